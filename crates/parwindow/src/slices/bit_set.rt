ghost use Rattle.std.specs.Prelude.{◌≡◌, ◌↔◌, ℕ, IsTrue, IfOk, replicate, vec_len};
ghost use Rattle.parwindow.specs.KeyBits.{word_count, HasBit};

use std::alloc::{AllocError, Global};

/// A set of bits, in which 20 bits of a key choose a bit: its top 14 and its low 6.
#[derive(Drop)]
pub struct BitSet {
    /// The words of 64 bits that have the bits.
    pub words: Vec<u64>,
    ghost size: { vec_len words ≡ word_count },
}

impl BitSet {
    /// Makes a set in which no bit is set.
    pub fn new(alloc: Global) -> Result<BitSet, AllocError>
        ensures { IfOk result (λ set. set.words.items ≡ replicate word_count 0) }
    {
        let words = vec![in alloc; 0u64; 16_384]?;
        Ok(BitSet { words })
    }

    /// Sets the bit of a key.
    pub fn insert(&mut self, key: u32)
        ensures has { HasBit self.new.words.items key }
        ensures keeps { (other : ℕ) → HasBit self.old.words.items other
            → HasBit self.new.words.items other }
    {
        let word = (key >> 18) as usize;
        self.words[word] |= 1 << (key & 63);
    }

    /// Whether the bit of a key is set.
    pub fn has(&self, key: u32) -> bool
        ensures { IsTrue result ↔ HasBit self.now.words.items key }
    {
        (self.words[(key >> 18) as usize] >> (key & 63)) & 1 == 1
    }
}
