//! Numbers that are given one after another.
ghost use Rattle.std.specs.Prelude.{◌≡◌, ◌+◌, ◌^◌, ◌<◌, ◌≤◌, ℕ, List, [], ◌∷◌, IfNone, IfSome};

/// Numbers of 32 bits, given one after another.
pub trait NumberSource {
    // these numbers are left, in this order
    ghost Leaves: { Self → List ℕ → Type 0 };
    // a bound on how many are left
    ghost most: { Self → ℕ };

    /// The next number, or None where none is left.
    fn next_number(&mut self) -> Option<u32>
        ensures end { IfNone result ((numbers : List ℕ) → Leaves self.old numbers → numbers ≡ []) }
        ensures number { IfSome result (λ number. (numbers : List ℕ) → Leaves self.old numbers
            → (rest : List ℕ) × (numbers ≡ number ∷ rest) × Leaves self.new rest) }
        ensures fewer { IfSome result (λ _. most self.new < most self.old) };

    /// The next two numbers where both are below 128 and at hand, which costs less than to ask for
    /// one after the other. Else None, and those that were left still are.
    fn next_small_pair(&mut self) -> Option<(u32, u32)>
        ensures same { IfNone result ((numbers : List ℕ) → Leaves self.old numbers
            → Leaves self.new numbers) }
        ensures no_more { IfNone result (most self.new ≤ most self.old) }
        ensures pair { IfSome result (λ pair. (numbers : List ℕ) → Leaves self.old numbers
            → (rest : List ℕ) × (numbers ≡ pair.0 ∷ pair.1 ∷ rest) × Leaves self.new rest) }
        ensures small { IfSome result (λ pair. (pair.0 < 128) × (pair.1 < 128)) }
        ensures fewer { IfSome result (λ _. most self.new + 2 ≤ most self.old) };

    /// The same where both are below 2^14. It may be None though both are below 128.
    fn next_short_pair(&mut self) -> Option<(u32, u32)>
        ensures same { IfNone result ((numbers : List ℕ) → Leaves self.old numbers
            → Leaves self.new numbers) }
        ensures no_more { IfNone result (most self.new ≤ most self.old) }
        ensures pair { IfSome result (λ pair. (numbers : List ℕ) → Leaves self.old numbers
            → (rest : List ℕ) × (numbers ≡ pair.0 ∷ pair.1 ∷ rest) × Leaves self.new rest) }
        ensures small { IfSome result (λ pair. (pair.0 < 2 ^ 14) × (pair.1 < 2 ^ 14)) }
        ensures fewer { IfSome result (λ _. most self.new + 2 ≤ most self.old) };
}

/// The numbers of a list.
#[derive(Clone, Copy)]
pub struct ListedNumbers<'a> {
    rest: &'a [u32],
}

impl<'a> ListedNumbers<'a> {
    ghost use Rattle.mvt_wire.specs.NumberSources.{AreListed};

    /// All numbers of a list.
    pub fn new(numbers: &'a [u32]) -> ListedNumbers<'a>
        ensures all { AreListed result numbers.now }
    {
        ListedNumbers { rest: numbers }
    }
}

impl NumberSource for ListedNumbers<'_> {
    ghost use Rattle.mvt_wire.specs.NumberSources.{AreListed, most_listed};

    ghost Leaves = { AreListed };

    ghost most = { most_listed };

    #[inline(always)]
    fn next_number(&mut self) -> Option<u32> {
        let (&first, rest) = self.rest.split_first()?;
        self.rest = rest;
        Some(first)
    }

    #[inline(always)]
    fn next_small_pair(&mut self) -> Option<(u32, u32)> {
        if self.rest.len() < 2 {
            return None;
        }
        let (first, second) = (self.rest[0], self.rest[1]);
        if first >= 128 || second >= 128 {
            return None;
        }
        self.rest = &self.rest[2..];
        Some((first, second))
    }

    #[inline(always)]
    fn next_short_pair(&mut self) -> Option<(u32, u32)> {
        if self.rest.len() < 2 {
            return None;
        }
        let (first, second) = (self.rest[0], self.rest[1]);
        if first >= 1 << 14 || second >= 1 << 14 {
            return None;
        }
        self.rest = &self.rest[2..];
        Some((first, second))
    }
}
