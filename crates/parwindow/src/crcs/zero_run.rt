ghost use Rattle.std.specs.Prelude.{◌≡◌, ℕ, ◌+◌, ◌*◌, ◌^◌, ◌<◌};
ghost use Rattle.parwindow.specs.Crc32.{crc_steps};
ghost use Rattle.parwindow.specs.Tables.{IsRemovalTable, MapsBits};

use crate::crcs::checksum::after_byte;

/// A run of zero bytes, by what it does to a register. That is linear over xor, so it is enough to
/// know what becomes of each single bit.
#[derive(Drop)]
pub struct ZeroRun {
    /// The number of bytes in the run.
    pub len: usize,
    /// The register after the run, for each single bit, the lowest bit first.
    pub columns: [u32; 32],
    ghost by_bit: { MapsBits columns len },
}

impl ZeroRun {
    /// Makes the run that has this number of bytes, from a run of half the length.
    pub fn new(len: usize) -> Self
        ensures { result.len ≡ len }
    {
        if len == 0 {
            return ZeroRun::empty();
        }
        let whole = ZeroRun::new(len / 2).twice();
        if len % 2 == 1 {
            whole.with_one()
        } else {
            whole
        }
    }

    // Makes the run of no byte, which changes nothing.
    fn empty() -> Self
        ensures { result.len ≡ 0 }
    {
        let mut columns = [0; 32];
        for i in 0..32usize {
            columns[i] = 1 << i;
        }
        ZeroRun { len: 0, columns }
    }

    /// Makes the run that is this one twice.
    pub fn twice(&self) -> Self
        requires { 2 * self.now.len < 2 ^ 64 }
        ensures { result.len ≡ 2 * self.now.len }
    {
        let mut columns = [0; 32];
        for i in 0..32usize {
            columns[i] = self.apply(self.columns[i]);
        }
        ZeroRun {
            len: 2 * self.len,
            columns,
        }
    }

    // Makes the run that is this one and one byte more.
    fn with_one(&self) -> Self
        requires { self.now.len + 1 < 2 ^ 64 }
        ensures { result.len ≡ self.now.len + 1 }
    {
        let mut columns = [0; 32];
        for i in 0..32usize {
            columns[i] = after_byte(self.columns[i], 0);
        }
        ZeroRun {
            len: self.len + 1,
            columns,
        }
    }

    /// Returns the register after the run.
    pub fn apply(&self, register: u32) -> u32
        ensures { result ≡ crc_steps (8 * self.now.len) register }
    {
        let mut out = 0;
        for i in 0..32usize {
            // No branch, since it could not be predicted: bits of registers are 0 as often as 1.
            out ^= self.columns[i] * ((register >> i) & 1);
        }
        out
    }
}

/// Makes a table: for each first byte, the bits of the register that differ because of it, after
/// `len` bytes have followed it.
pub fn removal_table(len: usize) -> [u32; 256]
    ensures { IsRemovalTable result len }
{
    let run = ZeroRun::new(len);
    let mut table = [0; 256];
    for x in 0..256usize {
        table[x] = run.apply(0xFFFF_FFFF ^ after_byte(0xFFFF_FFFF, x as u8));
    }
    table
}
