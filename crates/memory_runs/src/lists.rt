//! Edits of a status: memory_runs LIST EDIT PLACE FILL TAKE TIMES. A status is filled with so many
//! edges, so many are taken from its front, and it is edited so often at one place. And LIST three:
//! three edges are put into one.
use crate::input::{number, word};
use crate::status::{Course, Edit, Place};
use crate::stop::Stop;
use mvt_plane::Count;
use mvt_status::{Status, TreeStatus, VecStatus};
use std::alloc::AllocError;
use std::rt::Env;

/// Which status is edited.
#[derive(Clone, Copy)]
pub(crate) enum ListCall {
    Tree,
    Vector,
}

/// How a status is edited.
#[derive(Clone, Copy)]
struct Plan {
    edit: Edit,
    place: Place,
    fill: usize,
    take: usize,
    times: usize,
}

impl ListCall {
    /// The status of this name.
    pub(crate) fn named(name: &str) -> Option<ListCall> {
        match name {
            "tree" => Some(ListCall::Tree),
            "vector" => Some(ListCall::Vector),
            _ => None,
        }
    }

    /// Edits the status as the other words say, and prints what came of it.
    pub(crate) fn run<R: Env + Print + AllocGlobal>(self, rt: &R) -> Result<(), Stop> {
        let mut room = [0u8; 16];
        if word(rt, 2, &mut room)? == "three" {
            let edges = match self {
                ListCall::Tree => three_edges(&mut TreeStatus::new(rt.alloc()))?,
                ListCall::Vector => three_edges(&mut VecStatus::new(rt.alloc()))?,
            };
            println!(rt; "{edges:?}")?;
            return Ok(());
        }
        let plan = Plan::read(rt)?;
        let course = match self {
            ListCall::Tree => plan.follow(&mut TreeStatus::new(rt.alloc()))?,
            ListCall::Vector => plan.follow(&mut VecStatus::new(rt.alloc()))?,
        };
        let length = course.length;
        if !course.is_made || !course.is_kept || course.refusals > 1 {
            println!(rt; "{course:?}")?;
        } else if course.refusals == 1 {
            println!(rt; "refused at {length} edges, as before, then done")?;
        } else {
            println!(rt; "done")?;
        }
        Ok(())
    }
}

impl Plan {
    /// The plan of the words.
    fn read<R: Env>(rt: &R) -> Result<Plan, Stop> {
        let mut room = [0u8; 16];
        let edit = match word(rt, 2, &mut room)? {
            "insert" => Edit::Insert,
            "insert_two" => Edit::InsertTwo,
            "replace" => Edit::Replace,
            _ => return Err(Stop::NoCall),
        };
        let place = match word(rt, 3, &mut room)? {
            "front" => Place::Front,
            "middle" => Place::Middle,
            "end" => Place::End,
            _ => return Err(Stop::NoCall),
        };
        Ok(Plan {
            edit,
            place,
            fill: number(rt, 4)?,
            take: number(rt, 5)?,
            times: number(rt, 6)?,
        })
    }

    /// Edits an empty status so.
    fn follow<S: Status>(self, status: &mut S) -> Result<Course, Stop> {
        let mut count = Count::new();
        for edge in 0..self.fill {
            let end = status.len();
            if status.insert(end, edge, &mut count).is_err() {
                return Err(Stop::NoInput);
            }
        }
        for _ in 0..self.take {
            if status.len() > 0 {
                status.remove(0, &mut count);
            }
        }
        let mut course = Course::new();
        for _ in 0..self.times {
            course.edit(status, self.edit, self.place);
        }
        Ok(course)
    }
}

/// The edges of an empty status into which 7 is put at the front, then 4 at the front, then 9 after
/// it.
fn three_edges<S: Status>(status: &mut S) -> Result<[usize; 3], AllocError> {
    let mut count = Count::new();
    for (at, edge) in [(0, 7), (0, 4), (1, 9)] {
        if at <= status.len() {
            status.insert(at, edge, &mut count)?;
        }
    }
    let mut edges = [0; 3];
    for at in 0..3 {
        if at < status.len() {
            edges[at] = status.get(at, &mut count);
        }
    }
    Ok(edges)
}
