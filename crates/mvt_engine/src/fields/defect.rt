//! Whether a message is whole, before any memory is taken for its line.
ghost use Rattle.std.specs.Prelude.{IfNone, IfSome, List};
ghost use Rattle.mvt_wire.specs.Field.{Entry};
ghost use Rattle.mvt_wire.specs.Message.{HasDefect, IsMessage};

use mvt_wire::{Fields, WireCause};

/// What is wrong with the first field that has a defect, or None where the message is whole. The
/// bytes are walked once, and no memory is taken.
pub fn first_defect(input: &[u8]) -> Option<WireCause>
    ensures whole { IfNone result ((entries : List Entry) × IsMessage input.now 0 entries) }
    ensures defect { IfSome result (λ cause. HasDefect input.now 0 cause) }
{
    let mut fields = Fields::new(input, 0, input.len());
    'walk: while let Some(item) = fields.next_field() {
        match item {
            Ok(_field) => {}
            Err(cause) => return Some(cause),
        }
    }
    None
}
