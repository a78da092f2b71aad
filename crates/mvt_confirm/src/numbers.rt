//! The numbers of a field, as a message without wire fault has them.
ghost use Rattle.std.specs.Prelude.{◌≡◌, ◌<◌, ℕ, List, None, slice_get, IfSome};
ghost use Rattle.mvt_confirm.specs.Calls.MessageBytes.{front};
ghost use Rattle.mvt_confirm.specs.Calls.Numbers.{TakesNumber};
ghost use Rattle.mvt_wire.specs.Numbers.{NumbersEnd, most_left};

use crate::message_bytes::MessageBytes;
use mvt_wire::Numbers;

/// The next number, or None after the last.
pub(crate) fn next_number(numbers: &mut Numbers) -> Option<u32>
    ensures there { TakesNumber numbers.old numbers.new result }
    ensures fewer { IfSome result (λ _. most_left numbers.new < most_left numbers.old) }
{
    numbers.next_number()?.ok()
}

/// The first number of a message's fields of a field number, or None where there is none.
pub(crate) fn number_of(message: &MessageBytes<'_>, field_number: u32) -> Option<u32>
    ensures { (numbers : List ℕ)
        → NumbersEnd (front message.now) message.now.span.from field_number numbers None
        → result ≡ slice_get numbers 0 }
{
    let bytes = message.bytes;
    let mut numbers = Numbers::new(bytes, message.span.from, message.span.to, field_number);
    next_number(&mut numbers)
}
