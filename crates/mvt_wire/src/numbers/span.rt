//! Where the numbers of a message's fields of one number stand.
ghost use Rattle.std.specs.Prelude.{◌≡◌, ℕ, true, List};
ghost use Rattle.mvt_wire.specs.Field.{Entry, IsField, content_of, wire_type_of};
ghost use Rattle.mvt_wire.specs.Schema.{is_own};
ghost use Rattle.mvt_wire.specs.declared.schema.Shape.TheVariants as Shapes;

use crate::field::Body;
use crate::numbers::whole::varints_in;

/// Where the numbers stand that a message's fields of one number state (Protocol Buffers encoding,
/// "Packed Repeated Fields"). Where it has no such field, all three are the offset at which it
/// begins.
#[derive(Clone, Copy)]
pub struct NumberSpan {
    /// The offset of the first field's varints.
    pub at: usize,
    /// The offset after them.
    pub end: usize,
    /// The offset after the last field.
    pub last: usize,
}

impl NumberSpan {
    ghost use Rattle.mvt_wire.specs.NumberSources.{StandBefore};

    /// No field was passed of a message that begins at an offset.
    pub fn none(from: usize) -> NumberSpan
        ensures { (message : List ℕ) (field_number : ℕ)
            → StandBefore message from field_number from result }
    {
        NumberSpan {
            at: from,
            end: from,
            last: from,
        }
    }

    /// Passes one more field of the number, which has this payload and ends at an offset.
    #[inline(always)]
    pub fn add(&mut self, body: Body, to: usize)
        requires { is_own Shapes.Numbers (wire_type_of (content_of body)) ≡ true }
        ensures { (message : List ℕ) (from field_number : ℕ) (entry : Entry)
            → IsField message to entry → entry.number ≡ field_number
            → entry.content ≡ content_of body.entry
            → StandBefore message from field_number entry.at self.old
            → StandBefore message from field_number to self.new }
    {
        let at = varints_in(body);
        if self.at == self.last {
            self.at = at;
            self.end = to;
        }
        self.last = to;
    }
}
