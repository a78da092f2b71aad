//! Numbers for generated rings.

/// A source of numbers that are the same in each run.
#[derive(Drop)]
pub(crate) struct Dice {
    state: i32,
}

impl Dice {
    /// The same source each time.
    pub(crate) fn new() -> Dice {
        Dice { state: 1 }
    }

    /// A number from 0 to 7.
    pub(crate) fn throw(&mut self) -> i32 {
        self.state = self.state.wrapping_mul(1_103_515_245).wrapping_add(12_345);
        (self.state >> 16) & 7
    }
}
