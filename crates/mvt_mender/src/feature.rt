//! One feature with other rings.
ghost use Rattle.std.specs.Prelude.{◌≡◌, Some, List, IfOk, IfSome};
ghost use Rattle.mvt_rules.specs.Valid.{AreValidRingsBy};
ghost use Rattle.mvt_draw.specs.Geometry.{figure_of};
ghost use Rattle.mvt_plane.specs.Commands.Figure.{polygon, rings};
ghost use Rattle.mvt_plane.specs.FeatureGeometry.{HasRings, type_number};
ghost use Rattle.mvt_plane.specs.Position.{Position};
ghost use Rattle.mvt_tile.specs.FeatureBytes.{Encodes};
ghost use Rattle.mvt_sweep.specs.Rings.{rings_of};
ghost use Rattle.mvt_rules.specs.Tile.{FeatureRecord};
ghost use Rattle.mvt_mender.specs.Calls.Steps.{IsNewGeometry};
ghost use Rattle.mvt_mender.specs.Changed.{IsMendedGeometry};

use crate::measures::measures_of;
use crate::mending::MendedFeature;
use mvt_draw::{Figure, SpellFault, spell};
use mvt_fault::{Fault, Profile};
use mvt_gate::{Search, rings_fault};
use mvt_mend::{MendedRings, Work, loose_rings, mend_rings};
use mvt_plane::{Count, Hpoint, Point};
use mvt_sweep::Meeting;
use mvt_tile::{FeatureBytes, list_of};
use std::alloc::{AllocError, Global};

/// A geometry in place of another one.
#[derive(Drop)]
pub(crate) struct NewGeometry {
    /// Its numbers.
    pub(crate) numbers: Vec<u32>,
    /// What is told of it.
    pub(crate) mended: MendedFeature,
}

/// A valid geometry in place of that of a feature of polygons, or None where its numbers draw no
/// rings, or none were found in their place within the work. The feature has this fault, if it is
/// given. The only error is that memory was refused.
pub(crate) fn mend_feature(
    alloc: Global,
    profile: Profile,
    feature: &FeatureBytes<'_>,
    fault: Option<&Fault>,
    work: &mut Work,
) -> Result<Option<NewGeometry>, AllocError>
    ensures { IfOk result (λ found. IfSome found (λ new. (it : FeatureRecord)
        → Encodes feature.now it
        → IsMendedGeometry profile it.geometry new.numbers.items new.mended)) }
{
    let numbers = list_of(alloc, feature.geometry())?;
    let Some(old) = loose_rings(alloc, &numbers)? else {
        return Ok(None);
    };
    drop(numbers);
    let known = meeting_of(fault);
    match mend_rings(alloc, profile, &old, known.as_ref(), work)? {
        Some(new) => new_geometry(alloc, profile, &old, new),
        None => Ok(None),
    }
}

/// The edges that meet wrongly by a fault, if it is of that kind.
fn meeting_of(fault: Option<&Fault>) -> Option<Meeting> {
    let Some(
        Fault::Meeting {
            first,
            second,
            x,
            y,
            w,
            ..
        },
    ) = fault
    else {
        return None;
    };
    Some(Meeting {
        first_ring: first.ring,
        first_edge: first.edge,
        second_ring: second.ring,
        second_edge: second.edge,
        point: Hpoint::new(*x, *y, *w)?,
    })
}

/// The geometry of new rings, or None where they aren't those of valid polygons.
fn new_geometry(
    alloc: Global,
    profile: Profile,
    old: &[Vec<Point>],
    new: MendedRings,
) -> Result<Option<NewGeometry>, AllocError>
    ensures { IfOk result (λ found. IfSome found (λ geometry.
        IsNewGeometry profile (rings_of old.now) (rings_of new.rings.items)
        geometry.numbers.items geometry.mended)) }
{
    let (Some(before), Some(after)) = (measures_of(old), measures_of(&new.rings)) else {
        return Ok(None);
    };
    let mended = MendedFeature {
        before,
        after,
        crossings: new.crossings,
        cuts: new.cuts,
    };
    match valid_numbers(alloc, profile, &Figure::Rings(new.rings))? {
        Some(numbers) => Ok(Some(NewGeometry { numbers, mended })),
        None => Ok(None),
    }
}

/// The numbers of a figure of rings, or None where the rings aren't those of valid polygons.
fn valid_numbers(
    alloc: Global,
    profile: Profile,
    figure: &Figure,
) -> Result<Option<Vec<u32>>, AllocError>
    ensures { IfOk result (λ found. IfSome found (λ numbers. (parts : List (List Position))
        → figure_of figure.now ≡ Some (rings parts)
        → HasRings (type_number polygon) numbers.items parts × AreValidRingsBy profile parts)) }
{
    let Figure::Rings(parts) = figure else {
        return Ok(None);
    };
    let numbers = match spell(alloc, figure) {
        Ok(numbers) => numbers,
        Err(SpellFault::Unspellable) => return Ok(None),
        Err(SpellFault::Memory) => return Err(AllocError),
    };
    match rings_fault(
        alloc,
        Search::Quick,
        profile,
        parts,
        &mut Count::new(),
        0,
        0,
    )? {
        Some(_) => Ok(None),
        None => Ok(Some(numbers)),
    }
}
