//! What is known of a tile after the first walk over it.
ghost use Rattle.std.specs.Prelude.{◌≡◌, IfOk, IfNone, IfSome, None};
ghost use Rattle.mvt_fault.specs.Place.{IsLeast};
ghost use Rattle.mvt_rules.specs.Parts.TrueFaults.{IsWireFault};
ghost use Rattle.mvt_rules.specs.WireFault.{WireFault};
ghost use Rattle.mvt_wire.specs.declared.cause.WireCause.{WireCause};
ghost use Rattle.mvt_wire.specs.declared.scope.Scope.{Scope};
ghost use Rattle.mvt_tile.specs.Passed.{IsPassed};
ghost use Rattle.mvt_gate.specs.Calls.FirstWalk.{IsFirstWalk};

use crate::figures::FigureTest;
use mvt_fault::Fault;
use mvt_tile::{Seen, passes_one_walk, wire_fault_after};
use std::alloc::{AllocError, Global};

/// What is known of the bytes of a tile before its polygons are looked at.
#[derive(Clone, Copy)]
pub(crate) enum FirstWalk {
    /// They are a valid tile by each profile.
    Valid,
    /// They are one but for polygons, which weren't looked at.
    ButPolygons,
    /// They aren't: they have a wire fault.
    Faulty,
    /// They have no wire fault, and the features that were seen no other one but a missing key or value.
    Whole(Seen),
}

/// Walks over the bytes of a tile once. Where that doesn't say that they are right, but for polygons,
/// it walks over what is left of them again, for wire faults, and stores the first one in `found`,
/// which is None before. (As an answer it would be copied at each call.) The only error is that memory
/// was refused.
pub(crate) fn first_walk(
    alloc: Global,
    bytes: &[u8],
    found: &mut Option<Fault>,
) -> Result<FirstWalk, AllocError>
    requires { found.old ≡ None }
    ensures { IfOk result (λ walk. IsFirstWalk bytes.now walk found.new) }
{
    let mut figures = FigureTest::new();
    let mut seen = Seen::nothing();
    if passes_one_walk(alloc, bytes, &mut figures, &mut seen)? {
        if figures.has_polygons {
            return Ok(FirstWalk::ButPolygons);
        }
        return Ok(FirstWalk::Valid);
    }
    find_wire_fault(bytes, seen.to, found);
    if found.is_some() {
        return Ok(FirstWalk::Faulty);
    }
    if figures.has_polygons {
        // (polygons weren't looked at)
        return Ok(FirstWalk::Whole(Seen::nothing()));
    }
    Ok(FirstWalk::Whole(seen))
}

/// Stores the first wire fault of the bytes in `found`, where they have one. Nothing that ends in front
/// of an offset has any.
#[cold]
#[inline(never)]
fn find_wire_fault(bytes: &[u8], to: usize, found: &mut Option<Fault>)
    requires { IsPassed bytes.now to }
    ensures none { IfNone found.new ((scope : Scope) (cause : WireCause)
        → ¬ WireFault bytes.now scope cause) }
    ensures least { IfSome found.new (IsLeast (IsWireFault bytes.now)) }
{
    *found = wire_fault_after(bytes, to);
}
