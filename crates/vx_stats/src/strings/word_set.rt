//! Sets of words to which words are added, and that count them.

ghost use Rattle.std.specs.Prelude.{◌≡◌, ◌≢◌, ◌<◌, ◌-◌, ◌^◌, ◌||◌, ◌==◌, ◌++◌, ◌∷◌, [], List, ℕ, not};
ghost use Rattle.vx_base.specs.Answers.{OrMemory};
ghost use Rattle.vx_stats.specs.Words.{home_of, has, IsProbed, IsSlotOf, Holds};

use std::alloc::Global;
use vx_base::VortexResult;

// 2^64 / phi, the factor of Fibonacci hashing: it spreads words that differ in a few bits over the highest bits of the product.
const SPREAD: u64 = 0x9E37_79B9_7F4A_7C15;

// The word of a free slot, which is never added.
const FREE: u64 = 1 << 32;

// The homes of a set without words, 2^10, and the shift that leaves ten bits of a product: 8 kB, which stay in the processor's
// nearest cache.
const FIRST_HOMES: usize = 1024;

const FIRST_SHIFT: u32 = 54;

// Slots above the homes, so that a table hardly ever has to grow at its end, which would double what it holds.
const SPARE: usize = 64;

/// A set of words by open addressing: a word stands in the first slot from its home on that was free when it came, and
/// behind all slots where none was. So no slot between a word and its home is free.
#[derive(Drop)]
pub(crate) struct WordSet {
    pub(crate) slots: Vec<u64>,
    pub(crate) shift: u32,
    pub(crate) last: usize,
    pub(crate) count: u32,
}

impl WordSet {
    // A set without words, with this many homes. The shift leaves the bits of a product that number the homes.
    fn free(alloc: Global, homes: usize, shift: u32) -> VortexResult<WordSet>
        requires { 0 < homes }
        ensures { OrMemory result (λ set. Holds [] set) }
    {
        Ok(WordSet {
            slots: vec![in alloc; FREE; homes.saturating_add(SPARE)]?,
            shift,
            last: homes - 1,
            count: 0,
        })
    }

    /// The number of words.
    pub(crate) fn len(&self) -> u32
        ensures { result ≡ self.now.count }
    {
        self.count
    }

    /// A set without words.
    pub(crate) fn new(alloc: Global) -> VortexResult<WordSet>
        ensures { OrMemory result (λ set. Holds [] set) }
    {
        WordSet::free(alloc, FIRST_HOMES, FIRST_SHIFT)
    }

    // The home of a word.
    #[inline(always)]
    fn home(&self, word: u64) -> usize
        ensures { result ≡ home_of self.now.shift self.now.last word }
    {
        word.wrapping_mul(SPREAD).wrapping_shr(self.shift) as usize & self.last
    }

    // The slot of a word, else the first free one from its home on, else the number of slots.
    #[inline(always)]
    fn slot_of(&self, word: u64) -> usize
        requires { IsProbed self.now }
        ensures { IsSlotOf (home_of self.now.shift self.now.last word) self.now.slots.items word result }
    {
        for slot in self.home(word)..self.slots.len() {
            let there = self.slots[slot];
            if there == word || there == FREE {
                return slot;
            }
        }
        self.slots.len()
    }

    // Adds a word, and tells whether it is new.
    #[inline(always)]
    fn add(&mut self, word: u64) -> VortexResult<bool>
        requires word { word ≢ FREE }
        requires probed { IsProbed self.old }
        ensures new { OrMemory result (λ new. new ≡ not (has self.old.slots.items word)) }
        ensures members { OrMemory result (λ _. (other : ℕ) → other ≢ FREE → has self.new.slots.items other ≡ (other == word || has self.old.slots.items other)) }
        ensures probed { OrMemory result (λ _. IsProbed self.new) }
        ensures count { OrMemory result (λ _. self.new.count ≡ self.old.count) }
    {
        let slot = self.slot_of(word);
        if slot >= self.slots.len() {
            self.slots.push(word)?;
            return Ok(true);
        }
        if self.slots[slot] == word {
            return Ok(false);
        }
        self.slots[slot] = word;
        Ok(true)
    }

    // Adds a word, and counts it where it is new.
    #[inline(always)]
    fn add_counted(&mut self, word: u64) -> VortexResult<()>
        requires word { word ≢ FREE }
        requires probed { IsProbed self.old }
        requires room { self.old.count < 2 ^ 32 - 1 }
        ensures held { OrMemory result (λ _. (words : List ℕ) → Holds words self.old → Holds (words ++ word ∷ []) self.new) }
        ensures probed { OrMemory result (λ _. IsProbed self.new) }
    {
        let new = self.add(word)?;
        self.count += u32::from(new);
        Ok(())
    }

    // Adds a word unless it marks a free slot.
    fn add_some(&mut self, word: u64) -> VortexResult<()>
        requires { IsProbed self.old }
        ensures members { OrMemory result (λ _. (other : ℕ) → other ≢ FREE → has self.new.slots.items other ≡ (other == word || has self.old.slots.items other)) }
        ensures probed { OrMemory result (λ _. IsProbed self.new) }
    {
        if word != FREE {
            self.add(word)?;
        }
        Ok(())
    }

    // The same words with four times as many homes.
    fn grown(&self, alloc: Global) -> VortexResult<WordSet>
        requires { IsProbed self.now }
        ensures { OrMemory result (λ set. (words : List ℕ) → Holds words self.now → Holds words set) }
    {
        let homes = self.last.saturating_add(1).saturating_mul(4);
        let mut set = WordSet::free(alloc, homes, self.shift.saturating_sub(2))?;
        for slot in 0..self.slots.len() {
            set.add_some(self.slots[slot])?;
        }
        set.count = self.count;
        Ok(set)
    }

    /// Adds a word.
    #[inline(always)]
    pub(crate) fn insert(&mut self, alloc: Global, word: u64) -> VortexResult<()>
        requires word { word ≢ FREE }
        requires probed { IsProbed self.old }
        requires room { self.old.count < 2 ^ 32 - 1 }
        ensures { OrMemory result (λ _. (words : List ℕ) → Holds words self.old → Holds (words ++ word ∷ []) self.new) }
    {
        self.add_counted(word)?;
        // At most half of the homes' number, so that most words stand in their homes.
        if self.count as usize > self.last / 2 {
            *self = self.grown(alloc)?;
        }
        Ok(())
    }
}
