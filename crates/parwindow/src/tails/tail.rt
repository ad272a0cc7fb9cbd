ghost use Rattle.std.specs.Prelude.{◌≡◌, ◌+◌, ◌<◌, ◌≤◌, length, slice_index};
ghost use Rattle.parset.specs.Limits.{slice_size_limit};

use crate::crcs::{LowBytes, ZeroRun, after_byte};
use crate::index::Index;
use crate::rolling::RollTables;
use circular_buffer::HeapCircularBuffer;

/// A short-slice length, and the register of that many first bytes of a window.
#[derive(Drop)]
pub struct Tail {
    pub length: usize,
    pub register: u32,
    /// The register after bytes ahead, among which no slice was met. It has a meaning only between
    /// a look ahead and the move that takes it.
    pub ahead: u32,
    /// The tables of a window of this length.
    pub tables: RollTables,
    /// The zeros that fill up the window after these bytes.
    pub zeros: ZeroRun,
    /// A run of zeros of this length.
    pub lows: LowBytes,
    ghost short: { length ≤ slice_size_limit },
    ghost own: { tables.others + 1 ≡ length },
    ghost own_zeros: { lows.len ≡ length },
}

impl Tail {
    ghost use Rattle.std.specs.Prelude.{ℕ, ◌++◌, [], ◌∷◌, take};
    ghost use Rattle.circular_buffer.specs.Buffer.{keep_last};
    ghost use Rattle.parwindow.specs.Ahead.{is_tail_register};
    ghost use Rattle.parwindow.specs.Crc32.{register_of};
    ghost use Rattle.parwindow.specs.Tails.{is_tail_slice, IsTail};

    /// Returns the register after a byte is pushed into a ring (the buffer of a
    /// window), full or not.
    pub fn pushed(&self, ring: &HeapCircularBuffer<u8>, byte: u8) -> u32
        requires tail { IsTail ring.now.capacity ring.now.items self.now }
        requires within { length ring.now.items ≤ ring.now.capacity }
        ensures { result ≡ register_of
            (take self.now.length (keep_last ring.now.capacity (ring.now.items ++ byte ∷ []))) }
    {
        if ring.len() < self.length {
            return after_byte(self.register, byte);
        }
        if !ring.is_full() {
            return self.register;
        }
        self.rolled(ring, first_of(ring))
    }

    // Returns the register after any byte is pushed into a full ring, whose first byte is `gone`.
    fn rolled(&self, ring: &HeapCircularBuffer<u8>, gone: u8) -> u32
        requires tail { IsTail ring.now.capacity ring.now.items self.now }
        requires full { length ring.now.items ≡ ring.now.capacity }
        requires gone { gone ≡ slice_index ring.now.items 0 }
        ensures { (byte : ℕ) → result ≡ register_of
            (take self.now.length (keep_last ring.now.capacity (ring.now.items ++ byte ∷ []))) }
    {
        let come = ring.get(self.length).copied().unwrap_or(0);
        self.tables.rolled(self.register, gone, come)
    }

    /// Rolls the register as when any byte is pushed into a full ring, whose first byte is
    /// `gone`. Returns whether the tail's bytes and zeros then have the CRC-32 of a slice of
    /// this unpadded length.
    pub fn roll(&mut self, ring: &HeapCircularBuffer<u8>, index: &Index, gone: u8) -> bool
        requires tail { IsTail ring.now.capacity ring.now.items self.old }
        requires full { length ring.now.items ≡ ring.now.capacity }
        requires gone { gone ≡ slice_index ring.now.items 0 }
        requires sized { ring.now.capacity ≡ index.now.slice_size }
        ensures length { self.new.length ≡ self.old.length }
        ensures tail { (byte : ℕ) → IsTail ring.now.capacity
            (keep_last ring.now.capacity (ring.now.items ++ byte ∷ [])) self.new }
        ensures slice { (byte : ℕ) → result ≡ is_tail_slice index.now ring.now.capacity
            (keep_last ring.now.capacity (ring.now.items ++ byte ∷ [])) self.old.length }
    {
        self.register = self.rolled(ring, gone);
        self.is_slice(self.register, index)
    }

    /// Whether bytes with this register, followed by the tail's zeros, have the CRC-32 of a slice
    /// of this unpadded length.
    pub fn is_slice(&self, register: u32, index: &Index) -> bool
        requires shorter { 0 < self.now.zeros.len }
        requires sized { self.now.length + self.now.zeros.len ≡ index.now.slice_size }
        ensures { result ≡ is_tail_register index.now self.now register }
    {
        index.may_have_tail(register) && index.has_tail_register(register, &self.zeros, self.length)
    }
}

/// Returns the first byte of a ring that has one.
pub fn first_of(ring: &HeapCircularBuffer<u8>) -> u8
    requires { 0 < length ring.now.items }
    ensures { result ≡ slice_index ring.now.items 0 }
{
    ring.get(0).copied().unwrap_or(0)
}
