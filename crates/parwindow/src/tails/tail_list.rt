ghost use Rattle.std.specs.Prelude.{◌≡◌, ℕ, ◌<◌, ◌≤◌, ◌++◌, List, [], ◌∷◌, All, IfOk, length};
ghost use Rattle.circular_buffer.specs.Buffer.{keep_last};
ghost use Rattle.parset.specs.Limits.{slice_size_limit};
ghost use Rattle.parwindow.specs.Tails.{tail_lengths_of, some_tail_slice, IsTail};
ghost use Rattle.parwindow.specs.Window.{AreTails};

use crate::crcs::{LowBytes, ZeroRun};
use crate::index::Index;
use crate::rolling::RollTables;
use crate::tails::tail::{Tail, first_of};
use circular_buffer::HeapCircularBuffer;
use std::alloc::{AllocError, Global};

/// Makes the tails of these lengths, in an empty window of this size.
pub fn tails_for(alloc: Global, size: usize, lengths: &[usize]) -> Result<Vec<Tail>, AllocError>
    requires within { size ≤ slice_size_limit }
    requires tails { AreTails size lengths.now }
    ensures lengths { IfOk result (λ tails. tail_lengths_of tails.items ≡ lengths.now) }
    ensures each { IfOk result (λ tails. All (IsTail size []) tails.items) }
{
    let mut tails = Vec::with_capacity(alloc, lengths.len())?;
    for &length in lengths {
        tails.push(Tail {
            length,
            register: 0xFFFF_FFFF,
            ahead: 0xFFFF_FFFF,
            tables: RollTables::new(length),
            zeros: ZeroRun::new(size - length),
            lows: LowBytes::new(length),
        })?;
    }
    Ok(tails)
}

/// Updates each tail for a byte that is pushed into a ring (the buffer of a window), full or not.
pub fn push_tails(tails: &mut [Tail], ring: &HeapCircularBuffer<u8>, byte: u8)
    requires tails { All (IsTail ring.now.capacity ring.now.items) tails.old }
    requires within { length ring.now.items ≤ ring.now.capacity }
    ensures lengths { tail_lengths_of tails.new ≡ tail_lengths_of tails.old }
    ensures each { All (IsTail ring.now.capacity
        (keep_last ring.now.capacity (ring.now.items ++ byte ∷ []))) tails.new }
{
    for k in 0..tails.len() {
        let register = tails[k].pushed(ring, byte);
        tails[k].register = register;
    }
}

/// Updates each tail for any byte that is pushed into a full ring. Returns whether some tail then
/// has the CRC-32 of a slice of its length.
pub fn roll_tails(tails: &mut [Tail], ring: &HeapCircularBuffer<u8>, index: &Index) -> bool
    requires tails { All (IsTail ring.now.capacity ring.now.items) tails.old }
    requires full { length ring.now.items ≡ ring.now.capacity }
    requires some { 0 < ring.now.capacity }
    requires sized { ring.now.capacity ≡ index.now.slice_size }
    ensures lengths { tail_lengths_of tails.new ≡ tail_lengths_of tails.old }
    ensures each { (byte : ℕ) → All (IsTail ring.now.capacity
        (keep_last ring.now.capacity (ring.now.items ++ byte ∷ []))) tails.new }
    ensures slice { (byte : ℕ) → result ≡ some_tail_slice index.now ring.now.capacity
        (keep_last ring.now.capacity (ring.now.items ++ byte ∷ [])) (tail_lengths_of tails.new) }
{
    let gone = first_of(ring);
    let mut hit = false;
    for k in 0..tails.len() {
        hit = tails[k].roll(ring, index, gone) || hit;
    }
    hit
}

/// Updates each tail for a window whose bytes are all removed.
pub fn clear_tails(tails: &mut [Tail])
    ensures lengths { tail_lengths_of tails.new ≡ tail_lengths_of tails.old }
    ensures each { (size : ℕ) (content : List ℕ) → All (IsTail size content) tails.old
        → All (IsTail size []) tails.new }
{
    for k in 0..tails.len() {
        tails[k].register = 0xFFFF_FFFF;
    }
}
