//! The first fault of one message.
ghost use Rattle.mvt_tile.specs.Calls.Embedded.{HasFault};
ghost use Rattle.mvt_tile.specs.Calls.Least.{FindsLeastCause};
ghost use Rattle.mvt_wire.specs.Embedded.{span_in};

use crate::wire::scan::FieldScan;
use mvt_wire::{EmbeddedCheck, Message, Part, WireCause};

/// The first fault of the message that a part of the bytes holds, without those of the messages in
/// it. The message is walked once. Each message has a COPY of its own, so that its rules are
/// constants there.
#[inline(always)]
pub(crate) fn message_fault<const COPY: usize>(
    message: Message,
    part: Part<'_>,
) -> Option<WireCause>
    ensures { FindsLeastCause (HasFault message part.entry.bytes.now (span_in part.entry)) result }
{
    let front = &part.bytes[..part.to];
    let mut scan = FieldScan::new();
    let mut at = part.from;
    'walk: loop {
        match scan.pass_next::<COPY>(message, front, at) {
            Ok(Some((_, next))) => at = next,
            Ok(None) => return scan.end_fault(message, part.to),
            Err(cause) => return Some(cause),
        }
    }
}

/// The first fault of each message that another one holds, if those in front of an offset have none.
#[derive(Drop)]
pub(crate) struct MessageCheck {
    pub(crate) message: Message,
    pub(crate) passed: usize,
}

impl EmbeddedCheck for MessageCheck {
    ghost use Rattle.mvt_tile.specs.Calls.Passed.{HasFirstAfter, HasNoneAfter};

    type Found = (usize, WireCause);

    ghost IsClean = { λ check. HasNoneAfter check.message check.passed };

    ghost IsFound = { λ check. HasFirstAfter check.message check.passed };

    #[inline(always)]
    fn check(&self, part: Part<'_>, ordinal: usize) -> Option<(usize, WireCause)> {
        if part.to < self.passed {
            return None;
        }
        // (the copies differ only in what the compiler knows of the message)
        let cause = match self.message {
            Message::Value => message_fault::<2>(self.message, part)?,
            Message::Feature => message_fault::<3>(self.message, part)?,
            _ => message_fault::<4>(self.message, part)?,
        };
        Some((ordinal, cause))
    }
}
