//! Tables over the numbers of the old edges that others come of.
ghost use Rattle.std.specs.Prelude.{◌≡◌, ◌+◌, ◌-◌, ◌%◌, ◌^◌};

/// More numbers than so many times those that come of them aren't put into a table.
const SPARSEST: usize = 4;

/// A row of numbers of old edges: those that some edges or segments come of, and all between.
#[derive(Clone, Copy)]
pub struct WitnessRange {
    least: u32,
    /// How many numbers there are.
    count: usize,
}

impl WitnessRange {
    /// That of these. None where it would have many more numbers than these are.
    pub fn of<T, F: Fn(&T) -> u32>(all: &[T], witness_of: &F) -> Option<WitnessRange>
        requires { F.IsAlwaysCallable witness_of.now }
    {
        let (mut least, mut greatest) = (u32::MAX, 0);
        for one in all {
            let witness = witness_of(one);
            least = least.min(witness);
            greatest = greatest.max(witness);
        }
        let count = (greatest.checked_sub(least)? as usize).saturating_add(1);
        if count > all.len().saturating_mul(SPARSEST) {
            return None;
        }
        Some(WitnessRange { least, count })
    }

    /// How many numbers there are.
    pub fn count(&self) -> usize
        ensures { result ≡ self.now.count }
    {
        self.count
    }

    /// The place of a number among them. Of another one it is none of theirs: below the least one the
    /// places go on from 2^32 downwards.
    #[inline]
    pub fn place(&self, witness: u32) -> usize
        ensures { result ≡ (witness + (2 ^ 32 - self.now.least)) % 2 ^ 32 }
    {
        witness.wrapping_sub(self.least) as usize
    }
}
