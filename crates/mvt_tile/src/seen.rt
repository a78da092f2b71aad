//! How far a walk over a tile has come.
ghost use Rattle.std.specs.Prelude.{◌≡◌};

use crate::rules::TagNeeds;

/// How far one walk over a tile has come, where it doesn't say that the tile is right.
#[derive(Clone, Copy)]
pub struct Seen {
    /// No layer, value or feature that ends in front of this offset has a wire fault, and no feature
    /// there another one but a missing key or value.
    pub to: usize,
    /// With so many keys and values the layer at the offset has all that its features in front of it name
    /// in their tags.
    pub(crate) needs: TagNeeds,
}

impl Seen {
    /// The walk has seen nothing.
    pub fn nothing() -> Seen
        ensures { result.to ≡ 0 }
    {
        Seen {
            to: 0,
            needs: TagNeeds::none(),
        }
    }
}
