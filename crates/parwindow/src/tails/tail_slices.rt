ghost use Rattle.std.specs.Prelude.{◌≡◌, ◌+◌, ◌<◌};

use crate::crcs::{
    Nibbles, bytes_at, high_nibbles, looked_up, low_bytes_at, low_nibbles, shared, xored,
};
use crate::index::Index;
use crate::rolling::{RegisterSet, Roll};
use crate::tails::places::Places;
use crate::tails::stream::Stream;
use crate::tails::tail::Tail;

/// The slices of a tail's length, which are found by the registers of the tail.
#[derive(Drop)]
pub struct TailSlices<'a> {
    pub index: &'a Index,
    pub tail: &'a Tail,
    ghost shorter: { 0 < tail.now.zeros.len },
    ghost fills: { tail.now.length + tail.now.zeros.len ≡ index.now.slice_size },
}

impl<'a> TailSlices<'a> {
    ghost use Rattle.std.specs.Prelude.{ℕ, ◌-◌, ◌≤◌, IfSome, IsTrue, length};
    ghost use Rattle.std.specs.Int.{bit_at};
    ghost use Rattle.parwindow.specs.Ahead.{window_bytes, is_tail_register, own_register};
    ghost use Rattle.parwindow.specs.Places.{ended_register};
    ghost use Rattle.parwindow.specs.Along.{AreAlong};
    ghost use Rattle.parwindow.specs.Rolling.{StopsAt};
    ghost use Rattle.parwindow.specs.Tails.{IsTail};

    /// Takes the slices of this tail's length from an index.
    pub fn new(index: &'a Index, tail: &'a Tail) -> TailSlices<'a>
        requires shorter { 0 < tail.now.zeros.len }
        requires fills { tail.now.length + tail.now.zeros.len ≡ index.now.slice_size }
        ensures index { result.index.now ≡ index.now }
        ensures tail { result.tail.now ≡ tail.now }
    {
        TailSlices { index, tail }
    }

    /// Rolls the tail's register along a stream, up to `limit` bytes or to the first register of
    /// such a slice. If the running registers of the stream are given, it uses these.
    pub fn roll_ahead(
        &self,
        stream: &Stream<'_>,
        places: Option<&Places<'_, '_>>,
        limit: usize,
    ) -> Roll
        requires tail { IsTail (length (window_bytes stream.now)) (window_bytes stream.now)
            self.now.tail.now }
        requires within { limit ≤ length stream.now.bytes.now }
        requires places { IfSome places (λ places. (places.now.stream ≡ stream.now)
            × AreAlong places.now) }
        ensures { StopsAt
            (λ register. IsTrue (is_tail_register self.now.index.now self.now.tail.now register))
            (own_register self.now.tail.now.length (window_bytes stream.now) stream.now.bytes.now)
            limit result }
    {
        match places {
            Some(places) => self.roll_by(places, limit),
            None => self.roll_along(stream, limit),
        }
    }

    // Does the same with only the tail's register.
    fn roll_along(&self, stream: &Stream<'_>, limit: usize) -> Roll
        requires tail { IsTail (length (window_bytes stream.now)) (window_bytes stream.now)
            self.now.tail.now }
        requires within { limit ≤ length stream.now.bytes.now }
        ensures { StopsAt
            (λ register. IsTrue (is_tail_register self.now.index.now self.now.tail.now register))
            (own_register self.now.tail.now.length (window_bytes stream.now) stream.now.bytes.now)
            limit result }
    {
        let mut roll = Roll::missed(0, self.tail.register);
        while roll.count < limit {
            let gone = stream.piece_from(roll.count);
            let come = stream.piece_from(self.tail.length + roll.count);
            let most = gone.len().min(limit - roll.count);
            let next = self
                .tail
                .tables
                .roll_until(self, &gone[..most], come, roll.register);
            roll = roll.then(next);
            if roll.hit {
                return roll;
            }
        }
        roll
    }

    // Does the same with the running registers of the stream.
    fn roll_by(&self, places: &Places<'_, '_>, limit: usize) -> Roll
        requires tail { IsTail (length (window_bytes places.now.stream))
            (window_bytes places.now.stream) self.now.tail.now }
        requires within { limit ≤ length places.now.stream.bytes.now }
        requires along { AreAlong places.now }
        ensures { StopsAt
            (λ register. IsTrue (is_tail_register self.now.index.now self.now.tail.now register))
            (own_register self.now.tail.now.length (window_bytes places.now.stream)
            places.now.stream.bytes.now) limit result }
    {
        if limit == 0 {
            return Roll::missed(0, self.tail.register);
        }
        let from = self.tail.length + 1;
        let ends = places.registers.piece_from(from);
        if ends.len() >= limit + 15 {
            self.roll_to(&places.fronts, ends, limit)
        } else {
            self.roll_to(&places.fronts, &places.registers.copied(from), limit)
        }
    }

    // Does the same with the running registers before the tail's bytes and those after them.
    fn roll_to(&self, fronts: &Nibbles, ends: &[u32], limit: usize) -> Roll
        requires some { 0 < limit }
        requires within { limit ≤ 512 }
        requires enough { limit + 15 ≤ length ends.now }
        ensures { StopsAt
            (λ register. IsTrue (is_tail_register self.now.index.now self.now.tail.now register))
            (λ k. ended_register self.now.tail.now.length fronts.now.registers ends.now (k - 1))
            limit result }
    {
        let mut at = 0;
        while at < limit {
            let to = limit.min(at + 16);
            let marks = self.marks(fronts, ends, at);
            let stop = if marks == 0 {
                to
            } else {
                self.first_marked(fronts, ends, marks, at, to)
            };
            if stop < to {
                return Roll::hit(stop + 1, self.register_at(fronts, ends, stop));
            }
            at = to;
        }
        Roll::missed(limit, self.register_at(fronts, ends, limit - 1))
    }

    // Returns a bit for each of sixteen registers, which is set if the register's low byte may
    // belong to a slice; nearly always no bit is set.
    #[inline(always)]
    fn marks(&self, fronts: &Nibbles, ends: &[u32], at: usize) -> u64
        requires fronts { at + 16 ≤ 528 }
        requires ends { at + 16 ≤ length ends.now }
        ensures { (i : ℕ) → i < 16
            → IsTrue (is_tail_register self.now.index.now self.now.tail.now
            (ended_register self.now.tail.now.length fronts.now.registers ends.now (at + i)))
            → bit_at result i ≡ 1 }
    {
        let set = self.index.low_set(self.tail.length);
        let low = xored(low_bytes_at(ends, at), self.tail.lows.after(fronts, at));
        shared(
            looked_up(bytes_at(&set.low, 0), low_nibbles(low)),
            looked_up(bytes_at(&set.high, 0), high_nibbles(low)),
        )
    }

    // Returns the index of the first register, from `at` up to `to`, that is marked and belongs to
    // a slice, or `to` if there is none. It is called rarely, so it isn't inlined into the loop.
    #[inline(never)]
    fn first_marked(
        &self,
        fronts: &Nibbles,
        ends: &[u32],
        marks: u64,
        at: usize,
        to: usize,
    ) -> usize
        requires fronts { to ≤ 528 }
        requires ends { to ≤ length ends.now }
        requires some { at ≤ to }
        requires few { to ≤ at + 16 }
        requires marked { 0 < marks }
        requires marks { (i : ℕ) → i < 16
            → IsTrue (is_tail_register self.now.index.now self.now.tail.now
            (ended_register self.now.tail.now.length fronts.now.registers ends.now (at + i)))
            → bit_at marks i ≡ 1 }
        ensures within { (at ≤ result) × (result ≤ to) }
        ensures none { (i : ℕ) → at ≤ i → i < result
            → ¬ IsTrue (is_tail_register self.now.index.now self.now.tail.now
            (ended_register self.now.tail.now.length fronts.now.registers ends.now i)) }
        ensures found { result < to
            → IsTrue (is_tail_register self.now.index.now self.now.tail.now
            (ended_register self.now.tail.now.length fronts.now.registers ends.now result)) }
    {
        let lowest = at + marks.trailing_zeros() as usize;
        for i in lowest..to {
            let left = marks >> (i - at);
            if left == 0 {
                return to;
            }
            if left & 1 == 1 && self.has(self.register_at(fronts, ends, i)) {
                return i;
            }
        }
        to
    }

    // Returns the register of the tail's bytes, computed from the running registers
    // before and after them.
    fn register_at(&self, fronts: &Nibbles, ends: &[u32], i: usize) -> u32
        requires fronts { i < 528 }
        requires ends { i < length ends.now }
        ensures { result
            ≡ ended_register self.now.tail.now.length fronts.now.registers ends.now i }
    {
        let inverse = fronts.registers[i] ^ 0xFFFF_FFFF;
        ends[i] ^ self.tail.lows.apply(inverse)
    }
}

impl RegisterSet for TailSlices<'_> {
    ghost use Rattle.parwindow.specs.Ahead.{is_tail_register};

    ghost has = { λ slices register. is_tail_register slices.index.now slices.tail.now register };

    fn has(&self, register: u32) -> bool {
        self.tail.is_slice(register, self.index)
    }
}
