//! Whether a wire fault is true of bytes (Mapbox Vector Tile Specification 2.1, section 4).
ghost use Rattle.std.specs.Prelude.{◌≡◌, ◌↔◌, IsTrue};
ghost use Rattle.mvt_wire.specs.Field.{cause_at};
ghost use Rattle.mvt_rules.specs.Scope.{message_of};
ghost use Rattle.mvt_rules.specs.WireFault.{WireFault, MessageFault};
ghost use Rattle.mvt_confirm.specs.Calls.MessageBytes.{front};

mod defect;
mod end;
mod field;
mod packed;

use crate::message_bytes::MessageBytes;
use crate::span::span_of_scope;
use defect::has_defect;
use end::has_end_fault;
use field::has_field_fault;
use mvt_wire::{Message, Scope, WireCause, WireCode};

/// Whether the message of a scope has the wire fault of a code, at an offset, about a field number;
/// each message round it has to be whole. On a fault that isn't true of the bytes, however it was
/// made up, the answer is false.
pub(crate) fn has_wire_fault(
    bytes: &[u8],
    code: WireCode,
    scope: &Scope,
    at: usize,
    field: u32,
) -> bool
    ensures { IsTrue result ↔ WireFault bytes.now scope.now (cause_at code at field) }
{
    let Some(span) = span_of_scope(bytes, scope) else {
        return false;
    };
    let cause = WireCause { code, at, field };
    has_message_fault(&MessageBytes { bytes, span }, message_in(scope), cause)
}

/// Whether the message in a span has a fault.
fn has_message_fault(place: &MessageBytes<'_>, message: Message, cause: WireCause) -> bool
    ensures { IsTrue result ↔ MessageFault message (front place.now) place.now.span.from cause }
{
    has_defect(place, cause)
        || has_field_fault(place, message, cause)
        || has_end_fault(place, message, cause)
}

/// Which message a scope is.
fn message_in(scope: &Scope) -> Message
    ensures { result ≡ message_of scope.now }
{
    match scope {
        Scope::Tile => Message::Tile,
        Scope::Layer(_) => Message::Layer,
        Scope::Value(..) => Message::Value,
        Scope::Feature(..) => Message::Feature,
    }
}
