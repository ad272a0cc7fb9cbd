ghost use Rattle.std.specs.Prelude.{◌≡◌, ◌≤◌, ℕ, ◌<◌, ◌^◌, ◌-◌, IfOk, vec_len, bit_and, slice_index};
ghost use Rattle.parset.specs.Limits.{slice_size_limit};
ghost use Rattle.parwindow.specs.LowSets.{set_of};

use crate::crcs::ZeroRuns;
use parset::SetSlice;
use std::alloc::{AllocError, Global};

/// A set of low bytes of registers, kept by their nibbles (groups of four bits). The second byte of
/// a register chooses one of eight bits, which is set for both nibbles of the low byte. Of the
/// bytes that aren't in the set, few have a bit that is set for both nibbles.
#[derive(Clone, Copy, Drop)]
pub struct LowSet {
    pub low: [u8; 16],
    pub high: [u8; 16],
}

impl LowSet {
    ghost use Rattle.parwindow.specs.LowSets.{HasLow};

    // Puts the low byte of a register into the set.
    fn insert(&mut self, register: u32)
        ensures has { HasLow self.new register }
        ensures keeps { (other : ℕ) → HasLow self.old other → HasLow self.new other }
    {
        let bit = 1 << ((register >> 8) & 7);
        self.low[(register & 15) as usize] |= bit;
        self.high[((register >> 4) & 15) as usize] |= bit;
    }
}

/// For each short-slice length, a set of the low bytes of the registers that its slices have before
/// their padding. A few lengths may share a set.
#[derive(Drop)]
pub struct LowSets {
    pub sets: Vec<LowSet>,
    ghost size: { vec_len sets ≡ 1024 },
}

impl LowSets {
    ghost use Rattle.std.specs.Prelude.{get_or};
    ghost use Rattle.parwindow.specs.LowSets.{HasLow, HaveLows};

    /// Makes the sets of these slices.
    pub fn of(
        alloc: Global,
        runs: &ZeroRuns,
        size: u64,
        slices: &[SetSlice],
    ) -> Result<LowSets, AllocError>
        requires { size ≤ slice_size_limit }
        ensures { IfOk result (λ lows. HaveLows size slices.now lows.sets.items) }
    {
        let none = LowSet {
            low: [0; 16],
            high: [0; 16],
        };
        let mut lows = LowSets {
            sets: vec![in alloc; none; 1024]?,
        };
        for slice in slices {
            if let Some((_, crc)) = slice.sums {
                if slice.length < size {
                    let zeros = (size - slice.length) as u32;
                    let register = runs.before(zeros, crc ^ 0xFFFF_FFFF);
                    lows.insert(slice.length as u32, register);
                }
            }
        }
        Ok(lows)
    }

    // Puts a register into the set of a length.
    fn insert(&mut self, own: u32, register: u32)
        ensures has { (set : LowSet) → HasLow (get_or self.new.sets.items (set_of own) set) register }
        ensures keeps { (k other : ℕ) (set : LowSet) → k < 1024
            → HasLow (get_or self.old.sets.items k set) other
            → HasLow (get_or self.new.sets.items k set) other }
    {
        self.sets[set_of(own)].insert(register);
    }

    /// Lends the set of a length.
    pub fn of_length(&self, own: u32) -> &LowSet
        ensures { (set : LowSet) → result.now ≡ get_or self.now.sets.items (set_of own) set }
    {
        &self.sets[set_of(own)]
    }
}

// Returns the number of the set of a length. Lengths that are multiples of one number are
// spread over all sets.
fn set_of(own: u32) -> usize
    ensures set { result ≡ set_of own }
    ensures within { result < 1024 }
{
    (own.wrapping_mul(0x9E37_79B1) >> 22) as usize
}
