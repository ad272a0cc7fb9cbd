ghost use Rattle.std.specs.Prelude.{◌≡◌, ℕ, ◌*◌, ◌^◌, ◌<◌, ◌≤◌, IfOk};
ghost use Rattle.parwindow.specs.Crc32.{crc_steps};
ghost use Rattle.parwindow.specs.Powers.{ArePowers};

use crate::crcs::zero_run::ZeroRun;
use std::alloc::{AllocError, Global};

/// The runs of 1, 2, 4 zero bytes and so on, up to 2^31.
#[derive(Drop)]
pub struct ZeroRuns {
    pub runs: Vec<ZeroRun>,
    ghost powers: { ArePowers 32 runs.items },
}

impl ZeroRuns {
    /// Makes all of them, each from the one before. Fails if memory is refused.
    pub fn new(alloc: Global) -> Result<ZeroRuns, AllocError> {
        let mut runs = Vec::with_capacity(alloc, 32)?;
        let mut run = ZeroRun::new(1);
        for _i in 0..32usize {
            let next = run.twice();
            runs.push(run)?;
            run = next;
        }
        Ok(ZeroRuns { runs })
    }

    /// Returns the register that becomes this one after `zeros` zero bytes. It appends the zero
    /// bytes that are missing to 2^32 - 1, since 2^32 - 1 zero bytes in all change nothing.
    #[tactic(auto, using(crate::proofs::crc_laws::TakenBackLaws::taken_back))]
    pub fn before(&self, zeros: u32, register: u32) -> u32
        ensures { (r : ℕ) → r < 2 ^ 32 → crc_steps (8 * zeros) r ≡ register → result ≡ r }
    {
        self.apply(0xFFFF_FFFF - zeros, register)
    }

    // Returns the register after `count` zero bytes.
    fn apply(&self, count: u32, register: u32) -> u32
        ensures { result ≡ crc_steps (8 * count) register }
    {
        let mut out = register;
        for i in 0..32usize {
            if (count >> i) & 1 == 1 {
                out = self.runs[i].apply(out);
            }
        }
        out
    }
}
