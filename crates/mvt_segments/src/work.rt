use std::marker::Model;

/// How much work is left for mending: tests of pairs of edges, splits, corners and steps of
/// searches, counted against one limit. Contracts see it as that number.
#[derive(Clone, Copy, Debug, PartialEq, Eq)]
pub struct Work {
    left: u64,
}

impl Model for Work {
    ghost use Rattle.std.specs.Prelude.{ℕ};

    ghost Value = { ℕ };

    ghost view = { λ work. work.left };

    ghost inverse = { λ left. record { left = left } };
}

impl Work {
    ghost use Rattle.std.specs.Prelude.{◌≡◌, ◌≤◌, ◌+◌, true, false, min};

    /// So much work.
    pub fn new(limit: u64) -> Work
        ensures { result ≡ limit }
    {
        Work { left: limit }
    }

    /// How much is left.
    pub fn left(&self) -> u64
        ensures { result ≡ self.now }
    {
        self.left
    }

    /// Takes so much of what is left, and returns whether there was enough. Where there wasn't,
    /// nothing is left.
    pub fn spend(&mut self, amount: u64) -> bool
        ensures enough { result ≡ true → self.new + amount ≡ self.old }
        ensures spent { result ≡ false → self.new ≡ 0 }
        ensures no_more { self.new ≤ self.old }
    {
        if amount <= self.left {
            self.left -= amount;
            true
        } else {
            self.left = 0;
            false
        }
    }

    /// Leaves no more than this.
    pub fn lower(&mut self, left: u64)
        ensures lowered { self.new ≡ min self.old left }
        ensures no_more { self.new ≤ self.old }
    {
        self.left = self.left.min(left);
    }
}
