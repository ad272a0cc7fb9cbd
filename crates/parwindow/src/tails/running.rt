ghost use Rattle.std.specs.Prelude.{◌≡◌, ℕ, ◌<◌, ◌≤◌, ◌++◌, List, [], ◌∷◌, length, slice_index, take, fold, IfOk, IfSome};
ghost use Rattle.circular_buffer.specs.Buffer.{keep_last};
ghost use Rattle.parwindow.specs.Crc32.{register_after};
ghost use Rattle.parwindow.specs.Running.{run_register, IsRun, RunsOver};

use crate::crcs::{after_byte, after_two};
use circular_buffer::HeapCircularBuffer;
use std::alloc::{AllocError, Global};

// From this number of tails on, one running register replaces a register for each.
const SEVERAL: usize = 6;

// The size of the longest window that has a running register: its registers take four
// bytes for each byte.
const LONGEST_WINDOW: usize = 8_388_608;

/// A running register over the bytes of a window: it takes in all bytes, and
/// none is taken out of it.
#[derive(Drop)]
pub struct Running {
    /// The register before each byte of the window.
    pub before: HeapCircularBuffer<u32>,
    /// The register after the last byte.
    pub last: u32,
}

impl Running {
    // Takes in a byte.
    fn push(&mut self, byte: u8)
        ensures { (size : ℕ) (content : List ℕ) → IsRun size content self.old
            → IsRun size (keep_last size (content ++ byte ∷ [])) self.new }
    {
        self.before.push_back(self.last);
        self.last = after_byte(self.last, byte);
    }

    /// Takes in bytes. The register before each of them is known, and the one after the last too.
    pub fn extend(&mut self, registers: &[u32], last: u32)
        ensures { (size : ℕ) (content bytes : List ℕ) → IsRun size content self.old
            → RunsOver self.old.last bytes registers.now
            → last ≡ fold register_after self.old.last bytes
            → IsRun size (keep_last size (content ++ bytes)) self.new }
    {
        self.before.extend_from_slice(registers);
        self.last = last;
    }

    /// Computes the running register before each of these bytes and after the last one. It takes
    /// two bytes at a time, since then no register waits for the one before it.
    pub fn coming(&self, bytes: &[u8]) -> Coming
        requires { length bytes.now ≤ 512 }
        ensures before { RunsOver self.now.last bytes.now
            (take (length bytes.now) result.registers) }
        ensures last { result.last ≡ fold register_after self.now.last bytes.now }
    {
        let mut registers = [0; 512];
        let mut register = self.last;
        let mut i = 0;
        while i + 2 <= bytes.len() {
            registers[i] = register;
            registers[i + 1] = after_byte(register, bytes[i]);
            register = after_two(register, bytes[i], bytes[i + 1]);
            i += 2;
        }
        if i == bytes.len() {
            let last = register;
            return Coming { registers, last };
        }
        registers[i] = register;
        let last = after_byte(register, bytes[i]);
        Coming { registers, last }
    }
}

/// The running register before each of some bytes that come, and after the last one.
#[derive(Drop)]
pub struct Coming {
    pub registers: [u32; 512],
    pub last: u32,
}

/// Makes the running register of an empty window of this size, for this number of tails; `None` if
/// there are too few tails or the window is too long.
pub fn running_for(alloc: Global, size: usize, tails: usize) -> Result<Option<Running>, AllocError>
    ensures { IfOk result (λ running. IfSome running (IsRun size [])) }
{
    if tails < SEVERAL || size > LONGEST_WINDOW {
        return Ok(None);
    }
    let before = HeapCircularBuffer::with_capacity(alloc, size)?;
    Ok(Some(Running { before, last: 0 }))
}

/// Takes in a byte that is pushed, if there is a running register.
pub fn push_running(running: &mut Option<Running>, byte: u8)
    ensures { (size : ℕ) (content : List ℕ) → IfSome running.old (IsRun size content)
        → IfSome running.new (IsRun size (keep_last size (content ++ byte ∷ []))) }
{
    if let Some(run) = running {
        run.push(byte);
    }
}

/// Removes all bytes, if there is a running register.
pub fn clear_running(running: &mut Option<Running>)
    ensures { (size : ℕ) (content : List ℕ) → IfSome running.old (IsRun size content)
        → IfSome running.new (IsRun size []) }
{
    if let Some(run) = running {
        run.before.clear();
    }
}

/// Returns the running register if there are enough tails for one.
pub fn for_several(running: Option<Running>, tails: usize) -> Option<Running>
    ensures { (size : ℕ) (content : List ℕ) → IfSome running (IsRun size content)
        → IfSome result (IsRun size content) }
{
    if tails < SEVERAL {
        return None;
    }
    running
}
