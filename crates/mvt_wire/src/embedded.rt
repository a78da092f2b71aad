//! What is found first in the messages that the fields of one number hold (Protocol Buffers
//! encoding, "Submessages").
ghost use Rattle.std.specs.Prelude.{◌≡◌, ℕ, ◌+◌, ◌<◌, ◌≤◌, List, [], ◌∷◌, ◌++◌, length, MatchOption};
ghost use Rattle.mvt_wire.specs.Embedded.{FindsFirst, LiesIn, span_in};
ghost use Rattle.mvt_wire.specs.Field.{Entry, entry_of};
ghost use Rattle.mvt_wire.specs.Payload.{Span, spans_of};

use crate::field::{Body, Field};
use crate::part::Part;

/// What is searched for in messages.
pub trait EmbeddedCheck {
    type Found: Drop;

    // the message with this ordinal is clean
    ghost IsClean: { Self → List ℕ → ℕ → Span → Type 0 };
    // this is found in it
    ghost IsFound: { Self → List ℕ → Self.Found → ℕ → Span → Type 0 };

    /// What is found in the message that a part of the bytes holds.
    fn check(&self, part: Part<'_>, ordinal: usize) -> Option<Self::Found>
        ensures { MatchOption result
            (IsClean self.now part.entry.bytes.now ordinal (span_in part.entry))
            (λ found. IsFound self.now part.entry.bytes.now found ordinal (span_in part.entry)) };
}

/// The embedded messages of one field number, in the order of a walk over the fields.
#[derive(Drop)]
pub struct EmbeddedScan<L: EmbeddedCheck> {
    check: L,
    number: u32,
    /// How many there were in which nothing was found.
    count: usize,
    /// What was found first.
    pub first: Option<L::Found>,
}

impl<L: EmbeddedCheck> EmbeddedScan<L> {
    /// A scan that has passed no field yet.
    pub fn new(check: L, number: u32) -> Self
        ensures check { result.check ≡ check }
        ensures number { result.number ≡ number }
        ensures count { result.count ≡ 0 }
        ensures nothing { (bytes : List ℕ)
            → FindsFirst (L.IsClean result.check bytes) (L.IsFound result.check bytes) [] result.count
            result.first }
    {
        EmbeddedScan {
            check,
            number,
            count: 0,
            first: None,
        }
    }

    /// Passes the next field. Its payload lies in the bytes, of which there are more than messages in
    /// which nothing was found.
    #[inline(always)]
    pub fn pass(&mut self, bytes: &[u8], field: &Field<'_>)
        requires inside { LiesIn bytes.now (entry_of field.now) }
        requires room { self.old.count < length bytes.now }
        ensures check { self.new.check ≡ self.old.check }
        ensures number { self.new.number ≡ self.old.number }
        ensures count { self.new.count ≤ self.old.count + 1 }
        ensures noted { (entries : List Entry)
            → FindsFirst (L.IsClean self.old.check bytes.now) (L.IsFound self.old.check bytes.now)
            (spans_of self.old.number entries) self.old.count self.old.first
            → FindsFirst (L.IsClean self.new.check bytes.now) (L.IsFound self.new.check bytes.now)
            (spans_of self.new.number (entries ++ entry_of field.now ∷ [])) self.new.count
            self.new.first }
    {
        if field.number != self.number {
            return;
        }
        let Body::Bytes { from, slice } = field.body else {
            return;
        };
        if self.first.is_some() {
            return;
        }
        let to = from + slice.len();
        match self.check.check(Part { bytes, from, to }, self.count) {
            Some(found) => self.first = Some(found),
            None => self.count += 1,
        }
    }
}
