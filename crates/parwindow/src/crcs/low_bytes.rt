ghost use Rattle.std.specs.Prelude.{◌≡◌, ◌+◌, ◌*◌, ◌%◌, ◌≤◌, bit_xor, slice_index};
ghost use Rattle.parwindow.specs.Crc32.{crc_steps};
ghost use Rattle.parwindow.specs.Lanes.{HasLanes};
ghost use Rattle.parwindow.specs.Nibbles.{AreLowBytes, IsNibbleTable};

use crate::crcs::lanes::{bytes_at, looked_up, xored};
use crate::crcs::nibbles::Nibbles;
use crate::crcs::zero_run::ZeroRun;
use std::simd::prelude::*;

/// A run of zero bytes, given by the register that it makes of each nibble of a register. A
/// register is the xor of its nibbles, and so the register after the run is the xor of these.
#[derive(Drop)]
pub struct LowBytes {
    /// The number of bytes in the run.
    pub len: usize,
    /// The register after the run, for each of the sixteen values of each of the eight nibbles.
    pub words: [u32; 128],
    /// The low bytes of these registers.
    pub table: [u8; 128],
    ghost by_nibble: { IsNibbleTable words len },
    ghost low: { AreLowBytes words table },
}

impl LowBytes {
    /// Makes the run that has this number of bytes.
    pub fn new(len: usize) -> LowBytes
        ensures { result.len ≡ len }
    {
        let words = nibble_words(&ZeroRun::new(len));
        let table = low_bytes(&words);
        LowBytes { len, words, table }
    }

    /// Returns the register after the run.
    pub fn apply(&self, register: u32) -> u32
        ensures { result ≡ crc_steps (8 * self.now.len) register }
    {
        let mut out = 0;
        for q in 0..8usize {
            let nibble = (register >> (4 * q)) & 15;
            out ^= self.words[16 * q + nibble as usize];
        }
        out
    }

    /// Returns the low bytes of sixteen registers after the run, from index `at` on. Before the run
    /// they are the inverses of the registers in `nibbles`.
    #[inline(always)]
    pub fn after(&self, nibbles: &Nibbles, at: usize) -> u8x16
        requires { at + 16 ≤ 528 }
        ensures { HasLanes result (λ i. crc_steps (8 * self.now.len)
            (bit_xor (slice_index nibbles.now.registers (at + i)) 0xFFFFFFFF) % 256) }
    {
        let mut low = u8x16::splat(0);
        for q in 0..8usize {
            let table = bytes_at(&self.table, 16 * q);
            low = xored(low, looked_up(table, bytes_at(&nibbles.nibbles[q], at)));
        }
        low
    }
}

// Makes the words of a run: the register after the run for each value of each nibble.
fn nibble_words(run: &ZeroRun) -> [u32; 128]
    ensures { IsNibbleTable result run.now.len }
{
    let mut words = [0; 128];
    for i in 0..128usize {
        let nibble = ((i % 16) as u32) << (4 * (i / 16));
        words[i] = run.apply(nibble);
    }
    words
}

// Returns the low byte of each word.
fn low_bytes(words: &[u32; 128]) -> [u8; 128]
    ensures { AreLowBytes words.now result }
{
    let mut table = [0; 128];
    for i in 0..128usize {
        table[i] = (words[i] & 0xFF) as u8;
    }
    table
}
