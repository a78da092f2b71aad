//! The causes of faults by their numbers.

ghost use Rattle.std.specs.Prelude.{◌≡◌, ◌≢◌, MatchOption};
ghost use Rattle.mvt_wire.specs.Code.{code_of};
ghost use Rattle.mvt_fault.specs.Code.{tag_code as tag_number, command_code as command_number, ring_code as ring_number};

use crate::command::CommandCode;
use crate::ring::RingCode;
use crate::tag::TagCode;
use mvt_wire::WireCode;

pub(super) fn wire_code(number: u64) -> Option<WireCode>
    ensures { MatchOption result ((code : WireCode)
        → code_of code ≢ number) (λ code. code_of code ≡ number) }
{
    match number {
        101 => Some(WireCode::Ends),
        102 => Some(WireCode::TooLong),
        103 => Some(WireCode::BadNumber),
        104 => Some(WireCode::BadWireType),
        105 => Some(WireCode::PastEnd),
        106 => Some(WireCode::OtherType),
        107 => Some(WireCode::Again),
        108 => Some(WireCode::Missing),
        109 => Some(WireCode::OneField),
        110 => Some(WireCode::NotUtf8),
        111 => Some(WireCode::OutOfRange),
        _ => None,
    }
}

pub(super) fn tag_code(number: u64) -> Option<TagCode>
    ensures { MatchOption result ((code : TagCode)
        → tag_number code ≢ number) (λ code. tag_number code ≡ number) }
{
    match number {
        301 => Some(TagCode::OddLength),
        302 => Some(TagCode::NoKey),
        303 => Some(TagCode::NoValue),
        304 => Some(TagCode::Repeated),
        _ => None,
    }
}

pub(super) fn command_code(number: u64) -> Option<CommandCode>
    ensures { MatchOption result ((code : CommandCode)
        → command_number code ≢ number) (λ code. command_number code ≡ number) }
{
    match number {
        401 => Some(CommandCode::OtherCommand),
        402 => Some(CommandCode::OtherCount),
        403 => Some(CommandCode::Unfinished),
        404 => Some(CommandCode::GreatestParameter),
        405 => Some(CommandCode::OutOfBounds),
        406 => Some(CommandCode::NoStep),
        _ => None,
    }
}

pub(super) fn ring_code(number: u64) -> Option<RingCode>
    ensures { MatchOption result ((code : RingCode)
        → ring_number code ≢ number) (λ code. ring_number code ≡ number) }
{
    match number {
        501 => Some(RingCode::EndsAtItsBeginning),
        502 => Some(RingCode::NoArea),
        503 => Some(RingCode::BeginsWithHole),
        _ => None,
    }
}
