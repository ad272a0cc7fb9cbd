ghost use Rattle.std.specs.Prelude.{◌≡◌, ℕ, ◌+◌, ◌<◌, ◌≤◌, ◌++◌, length, min, IsTrue};
ghost use Rattle.parset.specs.Limits.{slice_size_limit};
ghost use Rattle.parwindow.specs.Tables.{IsRemovalTable, IsStepTable};

use crate::crcs::{STEPPED_BYTES, STEPPED_TWICE, after_byte, removal_table};
use crate::index::Index;
use crate::rolling::register_set::RegisterSet;
use crate::rolling::roll::Roll;

/// The tables by which a register rolls, side by side in memory: since all four have one base
/// address, rolling two bytes at a time is a seventh faster.
#[derive(Drop)]
pub struct RollTables {
    /// The number of bytes of a full window after its first one.
    pub others: usize,
    /// Entry x is the register x after eight steps of a CRC-32.
    pub bytes: [u32; 256],
    /// Entry x is the register x after sixteen steps of a CRC-32.
    pub two_bytes: [u32; 256],
    /// For each first byte, the bits of the register that differ because of it, after a whole
    /// window has followed it.
    pub once: [u32; 256],
    /// For each first byte, the same after a whole window and one byte more have followed it.
    pub twice: [u32; 256],
    ghost steps: { IsStepTable bytes 8 },
    ghost two_steps: { IsStepTable two_bytes 16 },
    ghost once_removes: { IsRemovalTable once (others + 1) },
    ghost twice_removes: { IsRemovalTable twice (others + 2) },
}

impl RollTables {
    ghost use Rattle.parwindow.specs.Crc32.{register_of};
    ghost use Rattle.parwindow.specs.Rolling.{rolled_register, pushed_register, rolled_over, with_two, HasRegister, StopsAt};
    ghost use Rattle.parwindow.specs.Until.{pushed_content};

    /// Makes the tables for a window of `size` bytes. No byte runs through them: they
    /// are made by squaring.
    pub fn new(size: usize) -> RollTables
        requires some { 0 < size }
        requires within { size ≤ slice_size_limit }
        ensures { result.others + 1 ≡ size }
    {
        RollTables {
            others: size - 1,
            bytes: STEPPED_BYTES,
            two_bytes: STEPPED_TWICE,
            once: removal_table(size),
            twice: removal_table(size + 1),
        }
    }

    /// Returns the register after a byte is pushed, and one falls out if `fallen` is one.
    pub fn pushed(&self, register: u32, fallen: Option<u8>, come: u8) -> u32
        ensures { result ≡ pushed_register self.now.others register fallen come }
    {
        match fallen {
            Some(gone) => self.rolled(register, gone, come),
            None => after_byte(register, come),
        }
    }

    /// Returns the register after one byte leaves and one comes.
    pub fn rolled(&self, register: u32, gone: u8, come: u8) -> u32
        ensures { result ≡ rolled_register self.now.others register gone come }
    {
        (register >> 8)
            ^ self.bytes[((register ^ u32::from(come)) & 0xFF) as usize]
            ^ self.once[gone as usize]
    }

    // Returns a register with two bytes that come xored into it, the first one into its low byte.
    fn with_two(register: u32, come: u8, next: u8) -> u32
        ensures { result ≡ with_two register come next }
    {
        register ^ u32::from(u16::from_le_bytes([come, next]))
    }

    // Returns the register after one byte leaves and one comes. `both` is the register with two
    // bytes that come xored into it; this one is the first of them.
    fn rolled_once(&self, register: u32, both: u32, gone: u8) -> u32
        ensures { (come next : ℕ) → come < 256 → next < 256 → both ≡ with_two register come next
            → result ≡ rolled_register self.now.others register gone come }
    {
        (register >> 8) ^ self.bytes[(both & 0xFF) as usize] ^ self.once[gone as usize]
    }

    // Returns the register after two bytes leave and both come, without the register in between.
    fn rolled_twice(&self, register: u32, both: u32, gone: u8, next_gone: u8) -> u32
        ensures { (come next : ℕ) → come < 256 → next < 256 → both ≡ with_two register come next
            → result ≡ rolled_register self.now.others
            (rolled_register self.now.others register gone come) next_gone next }
    {
        (register >> 16)
            ^ (self.twice[gone as usize] ^ self.once[next_gone as usize])
            ^ self.two_bytes[(both & 0xFF) as usize]
            ^ self.bytes[((both >> 8) & 0xFF) as usize]
    }

    /// Rolls a register over bytes that leave and bytes that come, as long as there are both, up to
    /// the first register that is in the set. Not inlined, so that the loop is compiled once for
    /// each type of set and not once for each call.
    #[inline(never)]
    pub fn roll_until<S: RegisterSet>(&self, set: &S, gone: &[u8], come: &[u8], start: u32) -> Roll
        ensures { StopsAt (λ register. IsTrue (S.has set.now register))
            (rolled_over self.now.others start gone.now come.now)
            (min (length gone.now) (length come.now)) result }
    {
        let len = gone.len().min(come.len());
        let mut register = start;
        for turn in 0..len / 2 {
            let i = 2 * turn;
            // All look-ups share this value, so that the compiler loads both bytes as one number.
            let both = RollTables::with_two(register, come[i], come[i + 1]);
            let between = self.rolled_once(register, both, gone[i]);
            // Computed before the first test: else `both` is kept on the stack meanwhile, and the
            // next turn waits for it.
            let after = self.rolled_twice(register, both, gone[i], gone[i + 1]);
            if set.has(between) {
                return Roll::hit(i + 1, between);
            }
            if set.has(after) {
                return Roll::hit(i + 2, after);
            }
            register = after;
        }
        if len % 2 == 0 {
            return Roll::missed(len, register);
        }
        let i = len - 1;
        let last = self.rolled(register, gone[i], come[i]);
        Roll {
            count: len,
            register: last,
            hit: set.has(last),
        }
    }

    /// Rolls the register of a full window, whose content is in two parts, over the bytes that
    /// come. The bytes that leave are the content, and after it the bytes that came themselves.
    pub fn roll_over(
        &self,
        index: &Index,
        front: &[u8],
        back: &[u8],
        bytes: &[u8],
        start: u32,
    ) -> Roll
        requires full { length (front.now ++ back.now) ≡ self.now.others + 1 }
        requires start { start ≡ register_of (front.now ++ back.now) }
        ensures { StopsAt (HasRegister index.now)
            (λ k. register_of (pushed_content (front.now ++ back.now) bytes.now k))
            (length bytes.now) result }
    {
        let first = self.roll_until(index, front, bytes, start);
        if first.hit || first.count == bytes.len() {
            return first;
        }
        let rest = &bytes[first.count..];
        let second = self.roll_until(index, back, rest, first.register);
        let both = first.then(second);
        if second.hit || both.count == bytes.len() {
            return both;
        }
        let last = &bytes[both.count..];
        let third = self.roll_until(index, bytes, last, both.register);
        both.then(third)
    }
}
