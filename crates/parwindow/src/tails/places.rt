ghost use Rattle.std.specs.Prelude.{◌≡◌, ℕ, ◌+◌, ◌^◌, ◌<◌, drop, length, slice_index, take};
ghost use Rattle.parwindow.specs.Places.{registers_of, AreFronts};

use crate::crcs::Nibbles;
use crate::tails::stream::Stream;

/// The running registers of a stream: the ones before the bytes of a full window, in two parts, and
/// the ones before the bytes that come next.
#[derive(Clone, Copy, Drop)]
pub struct RegisterStream<'a> {
    pub front: &'a [u32],
    pub back: &'a [u32],
    pub come: &'a [u32],
}

impl<'a> RegisterStream<'a> {
    /// Returns the registers from an offset of the stream on, up to the end of
    /// the part that it is in.
    pub fn piece_from(&self, place: usize) -> &'a [u32]
        requires { place < length (registers_of self.now) }
        ensures piece { result.now ≡ take (length result.now) (drop place (registers_of self.now)) }
        ensures some { 0 < length result.now }
    {
        if place < self.front.len() {
            return &self.front[place..];
        }
        let behind = place - self.front.len();
        if behind < self.back.len() {
            return &self.back[behind..];
        }
        &self.come[behind - self.back.len()..]
    }

    /// Copies the registers from an offset of the stream on, up to 528 of them. After the last
    /// register, the entries may have any value.
    pub fn copied(&self, from: usize) -> [u32; 528]
        requires { from < 2 ^ 32 }
        ensures { (i : ℕ) → i < 528 → from + i < length (registers_of self.now)
            → slice_index result i ≡ slice_index (registers_of self.now) (from + i) }
    {
        let mut copy = [0; 528];
        let len = self.front.len() + self.back.len() + self.come.len();
        let mut done = 0;
        while done < 528 && from + done < len {
            let piece = self.piece_from(from + done);
            let count = piece.len().min(528 - done);
            for i in 0..count {
                copy[done + i] = piece[i];
            }
            done += count;
        }
        copy
    }
}

/// A stream with its running registers. The bytes of all tails begin at the same
/// offset of the stream.
#[derive(Drop)]
pub struct Places<'s, 'r> {
    pub stream: Stream<'s>,
    pub registers: RegisterStream<'r>,
    /// The running registers after the first one.
    pub fronts: Nibbles,
    ghost are: { AreFronts (registers_of registers) fronts.registers },
}

impl<'s, 'r> Places<'s, 'r> {
    /// Makes the places of a stream, from the running registers before each of its bytes.
    pub fn new(stream: Stream<'s>, registers: RegisterStream<'r>) -> Places<'s, 'r>
        ensures stream { result.stream ≡ stream.entry }
        ensures registers { result.registers ≡ registers.entry }
    {
        Places {
            fronts: Nibbles::of(registers.copied(1)),
            stream,
            registers,
        }
    }
}
