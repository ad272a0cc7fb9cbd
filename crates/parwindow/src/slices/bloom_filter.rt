ghost use Rattle.std.specs.Prelude.{◌≡◌, ◌↔◌, ◌≤◌, ℕ, IsTrue, IfOk};
ghost use Rattle.parset.specs.Limits.{slice_size_limit};
ghost use Rattle.parwindow.specs.FilterBits.{scattered_key};

use crate::crcs::ZeroRuns;
use crate::slices::bit_set::BitSet;
use parset::SetSlice;
use std::alloc::{AllocError, Global};

/// Bits that for nearly all registers show that no slice has them.
#[derive(Drop)]
pub struct BloomFilter {
    /// The bits that registers choose as they are.
    pub plain: BitSet,
    /// The bits that registers choose after they are scattered.
    pub scattered: BitSet,
}

impl BloomFilter {
    ghost use Rattle.parwindow.specs.FilterBits.{MayHave, HasSlices, HasTails};

    /// Makes a filter that has the register of each slice.
    pub fn of(alloc: Global, slices: &[SetSlice]) -> Result<BloomFilter, AllocError>
        ensures { IfOk result (HasSlices slices.now) }
    {
        let mut filter = BloomFilter {
            plain: BitSet::new(alloc)?,
            scattered: BitSet::new(alloc)?,
        };
        for slice in slices {
            if let Some((_, crc)) = slice.sums {
                filter.insert(crc ^ 0xFFFF_FFFF);
            }
        }
        Ok(filter)
    }

    /// Makes a filter that has, for each slice shorter than this size, the register
    /// of its unpadded bytes.
    pub fn of_tails(
        alloc: Global,
        runs: &ZeroRuns,
        size: u64,
        slices: &[SetSlice],
    ) -> Result<BloomFilter, AllocError>
        requires { size ≤ slice_size_limit }
        ensures { IfOk result (HasTails size slices.now) }
    {
        let mut filter = BloomFilter {
            plain: BitSet::new(alloc)?,
            scattered: BitSet::new(alloc)?,
        };
        for slice in slices {
            if let Some((_, crc)) = slice.sums {
                if slice.length < size {
                    let zeros = (size - slice.length) as u32;
                    filter.insert(runs.before(zeros, crc ^ 0xFFFF_FFFF));
                }
            }
        }
        Ok(filter)
    }

    // Sets the three bits of a register.
    fn insert(&mut self, register: u32)
        ensures has { MayHave self.new register }
        ensures keeps { (other : ℕ) → MayHave self.old other → MayHave self.new other }
    {
        self.plain.insert(register);
        let key = scattered_key(register);
        self.scattered.insert(key);
        self.scattered.insert(scattered_key(key));
    }

    /// Whether the three bits of a register are set.
    pub fn may_have(&self, register: u32) -> bool
        ensures { IsTrue result ↔ MayHave self.now register }
    {
        let key = scattered_key(register);
        self.plain.has(register)
            && self.scattered.has(key)
            && self.scattered.has(scattered_key(key))
    }
}

// Returns a product whose upper bits depend on all bits of the register.
fn scattered_key(register: u32) -> u32
    ensures { result ≡ scattered_key register }
{
    register.wrapping_mul(0x9E37_79B1)
}
