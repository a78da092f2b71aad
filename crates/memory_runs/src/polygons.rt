//! Calls on the rings that the numbers of a geometry draw.
ghost use Rattle.mvt_sweep.specs.Rings.{rings_of, AreProperRings};
ghost use Rattle.mvt_rules.specs.Ring.{ArePolygonRings};

use crate::input::numbers;
use crate::stop::Stop;
use mvt_draw::{DrawFault, RingBuffer};
use mvt_plane::{Count, Point};
use mvt_polygon::{check_polygon, check_rings, find_meeting, find_meeting_with, groups};
use mvt_status::{TreeStatus, VecStatus};
use mvt_wire::ListedNumbers;

/// A call on rings.
#[derive(Clone, Copy)]
pub(crate) enum PolygonCall {
    Groups,
    FindMeeting,
    /// `find_meeting_with` a `TreeStatus`.
    FindMeetingInTree,
    /// `find_meeting_with` a `VecStatus`.
    FindMeetingInVector,
    CheckPolygon,
}

impl PolygonCall {
    /// The call of this name.
    pub(crate) fn named(name: &str) -> Option<PolygonCall> {
        Some(match name {
            "groups" => PolygonCall::Groups,
            "find_meeting" => PolygonCall::FindMeeting,
            "find_meeting_in_tree" => PolygonCall::FindMeetingInTree,
            "find_meeting_in_vector" => PolygonCall::FindMeetingInVector,
            "check_polygon" => PolygonCall::CheckPolygon,
            _ => return None,
        })
    }

    /// Makes the call on the rings of the numbers of a text, and prints its answer.
    pub(crate) fn run<R: Print + AllocGlobal>(self, rt: &R, bytes: &[u8]) -> Result<(), Stop> {
        let mut room = [0u32; 128];
        let numbers = numbers(bytes, &mut room)?;
        let mut buffer = RingBuffer::new(rt.alloc());
        match buffer.draw(rt.alloc(), ListedNumbers::new(numbers)) {
            Ok(()) => {}
            Err(DrawFault::Memory) => return Err(Stop::NoInput),
            Err(DrawFault::Command { .. }) => return Err(Stop::NoCall),
        }
        let rings = buffer.rings();
        match check_rings(rings) {
            None => self.report(rt, rings),
            Some(_) => Err(Stop::NoCall),
        }
    }

    /// Makes the call on rings, and prints its answer.
    fn report<R: Print + AllocGlobal>(self, rt: &R, rings: &[Vec<Point>]) -> Result<(), Stop>
        requires sound { ArePolygonRings (rings_of rings.now) }
        requires drawn { AreProperRings (rings_of rings.now) }
    {
        let (alloc, mut count) = (rt.alloc(), Count::new());
        match self {
            PolygonCall::Groups => {
                let groups = groups(alloc, rings)?;
                println!(rt; "{groups:?}")?;
            }
            PolygonCall::CheckPolygon => {
                let fault = check_polygon(alloc, rings, 0, rings.len(), &mut count)?;
                println!(rt; "{fault:?}")?;
            }
            PolygonCall::FindMeeting => {
                let meeting = find_meeting(alloc, rings, &mut count)?;
                println!(rt; "{meeting:?}")?;
            }
            PolygonCall::FindMeetingInTree => {
                let mut status = TreeStatus::new(alloc);
                let meeting = find_meeting_with(rt.alloc(), rings, &mut status, &mut count)?;
                println!(rt; "{meeting:?}")?;
            }
            PolygonCall::FindMeetingInVector => {
                let mut status = VecStatus::new(alloc);
                let meeting = find_meeting_with(rt.alloc(), rings, &mut status, &mut count)?;
                println!(rt; "{meeting:?}")?;
            }
        }
        Ok(())
    }
}
