//! The laws of split points and of binary digits, as contracts of functions that do nothing.

ghost use Rattle.std.specs.Prelude.{◌≡◌, ℕ, ◌^◌, ◌<◌, ◌≤◌, Bool, true, List, length, slice_index};
ghost use Rattle.mvt_status.specs.Counts.{bits};
ghost use Rattle.mvt_status.specs.Split.{IsSplit};

/// A list has a split point for a test that is true on all numbers in front of one on which it is
/// true, and no other one.
pub fn one_split()
    ensures there { (test : ℕ → Bool) (edges : List ℕ)
        → ((earlier later : ℕ) → earlier < later → later < length edges
        → test (slice_index edges later) ≡ true
        → test (slice_index edges earlier) ≡ true)
        → (point : ℕ) × IsSplit (λ edge answer. answer ≡ test edge) edges point }
    ensures one { (test : ℕ → Bool) (edges : List ℕ) (point other : ℕ)
        → IsSplit (λ edge answer. answer ≡ test edge) edges point
        → IsSplit (λ edge answer. answer ≡ test edge) edges other → point ≡ other }
{}

/// A number has as many binary digits as the least power of two above it has for an exponent. A
/// lesser number has no more of them.
pub fn digits_of_a_number()
    ensures within { (number : ℕ) → number < 2 ^ bits number }
    ensures least { (number digits : ℕ) → number < 2 ^ digits → bits number ≤ digits }
    ensures no_more { (lesser number : ℕ) → lesser ≤ number → bits lesser ≤ bits number }
{}
