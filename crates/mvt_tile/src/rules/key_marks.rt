//! Which keys the tags of a feature have.
ghost use Rattle.std.specs.Prelude.{◌≡◌, ◌/◌, ◌<◌, ◌≤◌, ◌==◌, ◌||◌, ℕ, length, not, slice_index_or, OnOk};
ghost use Rattle.mvt_tile.specs.Calls.KeyMarks.{block_at, is_added, is_in};

use std::alloc::{AllocError, Global};

/// So many keys take no memory of their own. Few layers have more.
const FIRST_KEYS: usize = 256;

/// A word has so many keys.
const WORD_KEYS: usize = 64;

/// A block has so many keys.
const BLOCK_KEYS: usize = 32;

/// Keys that follow one another.
#[derive(Clone, Copy)]
struct KeyBlock {
    /// What was current when a key of the block was last added. The others aren't in the set where it
    /// no longer is.
    mark: u32,
    /// A bit for each key, which is 1 where it was added.
    keys: u32,
}

impl KeyBlock {
    ghost use Rattle.mvt_tile.specs.Calls.KeyMarks.{keys_under};

    /// A block of which no key was added.
    const NONE: KeyBlock = KeyBlock { mark: 0, keys: 0 };

    /// The keys that were added under a mark.
    #[inline(always)]
    fn keys_under(self, mark: u32) -> u32
        ensures { result ≡ keys_under mark self }
    {
        if self.mark == mark { self.keys } else { 0 }
    }
}

/// A set of indices of keys: a bit for each key up to the block of the greatest index that was added.
/// The same blocks serve all features of a tile: to clear them, only the mark that counts is changed.
#[derive(Drop)]
pub(crate) struct KeyMarks {
    /// The first keys: a bit for each, which is 1 where it is in the set.
    first: [u64; FIRST_KEYS / WORD_KEYS],
    /// The keys after them.
    further: Vec<KeyBlock>,
    /// The mark of the blocks that count.
    current: u32,
    // a block of which no key was added has 0, which is no current mark
    ghost counts: { 0 < current },
    ghost no_greater: { (place : ℕ) → (block_at further.items place).mark ≤ current },
}

impl KeyMarks {
    ghost use Rattle.std.specs.Prelude.{◌^◌, false, IfOk, OnErr};
    ghost use Rattle.mvt_tile.specs.Calls.PassedTags.{has_key};

    /// No keys. It takes no memory.
    pub(crate) fn new(alloc: Global) -> Self
        ensures { (key : ℕ) → has_key result key ≡ false }
    {
        KeyMarks {
            first: no_words(),
            further: Vec::new(alloc),
            current: 1,
        }
    }

    /// Takes all keys out.
    #[inline(always)]
    pub(crate) fn clear(&mut self)
        ensures { (key : ℕ) → has_key self.new key ≡ false }
    {
        self.first = no_words();
        if self.current == u32::MAX {
            self.further.clear();
            self.current = 1;
        } else {
            self.current += 1;
        }
    }

    /// Adds a key, and returns whether it wasn't there. It takes two bits of memory for each key of a
    /// lesser index, but for the first ones. The only error is that memory was
    /// refused, and then the set is as it was.
    #[inline(always)]
    pub(crate) fn insert(&mut self, key: u32) -> Result<bool, AllocError>
        ensures added { IfOk result (λ added. added ≡ not (has_key self.old key)) }
        ensures holds { OnOk result ((other : ℕ)
            → has_key self.new other ≡ (other == key || has_key self.old other)) }
        ensures unchanged { OnErr result ((other : ℕ)
            → has_key self.new other ≡ has_key self.old other) }
    {
        let index = key as usize;
        if index >= FIRST_KEYS {
            return self.insert_further(index);
        }
        Ok(add_first(&mut self.first, index))
    }

    /// The same for a key after the first ones.
    #[inline(always)]
    fn insert_further(&mut self, key: usize) -> Result<bool, AllocError>
        requires further { 256 ≤ key }
        requires small { key < 2 ^ 32 }
        ensures added { IfOk result (λ added. added ≡ not (has_key self.old key)) }
        ensures holds { OnOk result ((other : ℕ)
            → has_key self.new other ≡ (other == key || has_key self.old other)) }
        ensures unchanged { OnErr result ((other : ℕ)
            → has_key self.new other ≡ has_key self.old other) }
    {
        let index = key - FIRST_KEYS;
        let place = index / BLOCK_KEYS;
        if place >= self.further.len() {
            lengthen(&mut self.further, place + 1)?;
        }
        Ok(add_key(&mut self.further, self.current, index))
    }
}

/// None of the first keys.
#[inline(always)]
fn no_words() -> [u64; FIRST_KEYS / WORD_KEYS]
    ensures { (place : ℕ) → slice_index_or result place 0 ≡ 0 }
{
    [0; FIRST_KEYS / WORD_KEYS]
}

/// Adds a key to the first ones, and returns whether it wasn't there.
#[inline(always)]
fn add_first(words: &mut [u64; FIRST_KEYS / WORD_KEYS], key: usize) -> bool
    requires { key < 256 }
    ensures added { result ≡ not (is_in words.old key) }
    ensures holds { (other : ℕ) → is_in words.new other ≡ (other == key || is_in words.old other) }
{
    let bit = 1u64 << (key % WORD_KEYS);
    let word = words[key / WORD_KEYS];
    words[key / WORD_KEYS] = word | bit;
    word & bit == 0
}

/// Adds a key under a mark to blocks that have room for it, and returns whether it wasn't there.
#[inline(always)]
fn add_key(blocks: &mut [KeyBlock], mark: u32, key: usize) -> bool
    requires { key / 32 < length blocks.old }
    ensures added { result ≡ not (is_added mark blocks.old key) }
    ensures holds { (other : ℕ) → is_added mark blocks.new other
        ≡ (other == key || is_added mark blocks.old other) }
    ensures no_greater { (place : ℕ) → (block_at blocks.old place).mark ≤ mark
        → (block_at blocks.new place).mark ≤ mark }
{
    let place = key / BLOCK_KEYS;
    let bit = 1u32 << (key % BLOCK_KEYS);
    let keys = blocks[place].keys_under(mark);
    blocks[place] = KeyBlock {
        mark,
        keys: keys | bit,
    };
    keys & bit == 0
}

/// Lengthens a list of blocks, so that so many have room. Its room doubles where it has to grow. The
/// only error is that memory was refused.
#[cold]
#[inline(never)]
fn lengthen(blocks: &mut Vec<KeyBlock>, count: usize) -> Result<(), AllocError>
    requires { length blocks.old.items ≤ count }
    ensures reaches { OnOk result (length blocks.new.items ≡ count) }
    ensures same { (place : ℕ) → block_at blocks.new.items place
        ≡ block_at blocks.old.items place }
{
    blocks.resize(count, KeyBlock::NONE)
}
