//! The text of a fault, and the room that any such text fits.
ghost use Rattle.std.specs.Prelude.{◌≡◌, ◌≢◌, ◌≤◌, ◌<◌, ◌⊎◌, ◌^◌, pos, length, IfOk, string_bytes};
ghost use Rattle.mvt_fault.specs.Text.{text_of};
ghost use Rattle.mvt_fault.specs.declared.fault.Fault.{Fault};
ghost use Rattle.mvtgate_c.specs.Calls.TextRoom.{IsInMemory, IsWord, IsScopeOfWords, IsEdgeOfWords};
ghost use Rattle.mvtgate_c.specs.TextRoom.{longest_text};
ghost use Rattle.mvtgate_c.specs.Texts.{Hands, Wants};

use crate::status::{FAULT, NO_MEMORY, NO_ROOM};
use crate::text::put_text;
use mvt_fault::{Fault, RingEdge, Scope, fault_text};
use std::alloc::{AllocError, Global};

/// The fault's text, of which a law says how long it can be.
fn short_text(alloc: Global, fault: Fault) -> Result<String, AllocError>
    ensures text { IfOk result (λ s. string_bytes s ≡ text_of fault) }
    ensures short { length (text_of fault) ≤ longest_text }
{
    fault_fits(fault);
    text_has_room();
    fault_text(alloc, &fault)
}

/// Writes the fault's text at the front of the room, and its length.
pub(crate) fn hand_fault(
    alloc: Global,
    fault: Fault,
    text: &mut [u8],
    text_length: &mut usize,
) -> i32
    ensures statuses { (result ≡ pos 1) ⊎ ((result ≡ pos 2) ⊎ (result ≡ pos 3)) }
    ensures fault { result ≡ pos 1 → Hands (λ it. it
        ≡ text_of fault) text.old text.new text_length.new }
    ensures no_room { result ≡ pos 3 → Wants (λ it. it ≡ text_of fault) text.old text_length.new }
    ensures room_for_all { longest_text ≤ length text.old → result ≢ pos 3 }
    ensures no_text { result ≡ pos 2 → text_length.new ≡ 0 }
    ensures untouched { result ≢ pos 1 → text.new ≡ text.old }
{
    *text_length = 0;
    match short_text(alloc, fault) {
        Ok(written) => {
            if put_text(written.as_bytes(), text, text_length) {
                FAULT
            } else {
                NO_ROOM
            }
        }
        Err(_) => NO_MEMORY,
    }
}

/// A law: no fault that memory can hold has a longer text.
#[tactic(none)]
fn text_has_room()
    ensures { (fault : Fault) → IsInMemory fault → length (text_of fault) ≤ longest_text }
{}

/// Any fault of the program is one that memory can hold.
fn fault_fits(fault: Fault)
    ensures { IsInMemory fault }
{
    match fault {
        Fault::Wire {
            scope,
            at,
            field,
            ..
        } => wire_fits(scope, at, field),
        Fault::Version { layer: _ } => {}
        Fault::Name {
            first: _,
            second: _,
        } => {}
        Fault::Tag {
            layer: _,
            feature: _,
            index: _,
            ..
        } => {}
        Fault::Command {
            layer: _,
            feature: _,
            index: _,
            ..
        } => {}
        Fault::Ring {
            layer: _,
            feature: _,
            ring: _,
            ..
        } => {}
        Fault::Meeting { first, second, .. } => {
            edge_fits(first);
            edge_fits(second);
        }
        Fault::Outside { .. } | Fault::HoleInHole { .. } | Fault::InPolygon { .. } => {}
    }
}

fn wire_fits(scope: Scope, at: usize, field: u32)
    ensures scope { IsScopeOfWords scope }
    ensures at { IsWord at }
    ensures field { field < 2 ^ 32 }
{
    scope_fits(scope);
}

fn scope_fits(scope: Scope)
    ensures { IsScopeOfWords scope }
{
    match scope {
        Scope::Tile => {}
        Scope::Layer(_) => {}
        Scope::Value(_, _) => {}
        Scope::Feature(_, _) => {}
    }
}

fn edge_fits(edge: RingEdge)
    ensures { IsEdgeOfWords edge }
{
    let RingEdge { ring: _, edge: _ } = edge;
}
