//! Fields that aren't whole (Protocol Buffers encoding, "Message Structure").
ghost use Rattle.std.specs.Prelude.{◌≡◌, ◌↔◌, IsTrue};
ghost use Rattle.mvt_wire.specs.Message.{HasDefect};
ghost use Rattle.mvt_confirm.specs.Calls.MessageBytes.{front};

use crate::message_bytes::MessageBytes;
use mvt_wire::{Fields, WireCause};

/// Whether the defect of the message in a span is this one. A message has at most one, with code
/// 101 to 105.
pub(crate) fn has_defect(place: &MessageBytes<'_>, cause: WireCause) -> bool
    ensures { IsTrue result ↔ HasDefect (front place.now) place.now.span.from cause }
{
    let mut fields = Fields::new(place.bytes, place.span.from, place.span.to);
    'walk: while let Some(item) = fields.next_field() {
        if let Err(defect) = item {
            return is_same(defect, cause);
        }
    }
    false
}

/// Whether two causes are the same.
fn is_same(first: WireCause, second: WireCause) -> bool
    ensures { IsTrue result ↔ first ≡ second }
{
    first == second
}
