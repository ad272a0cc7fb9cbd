ghost use Rattle.std.specs.Prelude.{◌≡◌, ℕ, ◌+◌, ◌-◌, ◌<◌, ◌≤◌, ◌↔◌, ◌++◌, ◌&&◌, List, [], drop, fold, length, nat_le, replicate, slice_get, slice_index, take, IfOk, IfSome, IsTrue};
ghost use Rattle.std.specs.List.{find};
ghost use Rattle.md5.specs.Md5.{Holds};
ghost use Rattle.parfield.specs.Md5.{md5};
ghost use Rattle.parwindow.specs.Ahead.{PushesPast};
ghost use Rattle.parwindow.specs.Crc32.{crc_of, register_after};
ghost use Rattle.parwindow.specs.FilterBits.{zeros_crc};
ghost use Rattle.parwindow.specs.Index.{set_has_own_crc, tails_of};
ghost use Rattle.parwindow.specs.Tails.{is_tail_slice};
ghost use Rattle.parset.specs.Limits.{slice_size_limit};
ghost use Rattle.parwindow.specs.Until.{has_tail_slice, is_at_slice, pushed_content, pushed_window, PushesUntil};
ghost use Rattle.parwindow.specs.Window.{content_after, empty_window, fallen_byte, tail_content, tail_limit, AreTails};

use crate::crcs::{ZeroRun, after_bytes};
use crate::index::Index;
use crate::rolling::RollTables;
use crate::tails::{
    Running, Stream, Tail, WaitingTails, clear_running, clear_tails, pass_tails, push_running,
    push_tails, roll_tails, running_for, tails_for,
};
use circular_buffer::HeapCircularBuffer;
use md5::{Digest, Md5};
use parfield::{Hash16, Tally};
use std::alloc::{AllocError, Global};
use std::marker::Model;

// The most bytes that tails look ahead at one time.
const LONGEST_PIECE: usize = 512;

/// The last bytes of a stream, no more than its capacity, and their CRC-32.
#[derive(Drop)]
pub struct Window {
    ring: HeapCircularBuffer<u8>,
    register: u32,
    tables: RollTables,
    tails: Vec<Tail>,
    running: Option<Running>,
    // How many bytes the next piece of `push_pieces_until` may have. No contract or invariant sees
    // it, so its bounds are applied where it is read.
    pace: usize,
    digests: Tally,
}

impl Model for Window {
    ghost use Rattle.parwindow.specs.Until.{pushed_content, PushesUntil};
    ghost use Rattle.parwindow.specs.Window.{WindowState};

    ghost Value = { WindowState };

    ghost use Rattle.parwindow.specs.Rolled.{window_view, IsRolled};

    ghost view = { window_view };

    ghost invariant = { IsRolled };
}

impl Window {
    /// Makes an empty window of `size` bytes, from 1 to 268,435,456.
    pub fn new(alloc: Global, size: usize) -> Result<Window, AllocError>
        requires some { 0 < size }
        requires within { size ≤ slice_size_limit }
        ensures { IfOk result (λ window. window ≡ empty_window size []) }
    {
        Window::with_tails(alloc, size, &[])
    }

    /// Makes an empty window of `size` bytes that also looks for short slices, of up to 256
    /// lengths. No other call except `new` takes memory.
    #[tactic(auto, unfolding(crate::specs::Crc32::register_of))]
    // Not inlined, so that windows can be counted in the program.
    #[inline(never)]
    pub fn with_tails(alloc: Global, size: usize, tails: &[usize]) -> Result<Window, AllocError>
        requires some { 0 < size }
        requires within { size ≤ slice_size_limit }
        requires few { length tails.now ≤ tail_limit }
        requires tails { AreTails size tails.now }
        ensures { IfOk result (λ window. window ≡ empty_window size tails.now) }
    {
        let ring = HeapCircularBuffer::with_capacity(alloc, size)?;
        Ok(Window {
            ring,
            register: 0xFFFF_FFFF,
            tables: RollTables::new(size),
            tails: tails_for(alloc, size, tails)?,
            running: running_for(alloc, size, tails.len())?,
            pace: 1,
            digests: Tally::new(),
        })
    }

    /// Appends a byte. If the window is full, its first byte falls out and is returned.
    pub fn push(&mut self, byte: u8) -> Option<u8>
        ensures content { self.new ≡ record self.old { content = content_after self.old byte } }
        ensures answer { result ≡ fallen_byte self.old }
    {
        push_tails(&mut self.tails, &self.ring, byte);
        push_running(&mut self.running, byte);
        let fallen = self.ring.push_back(byte);
        self.register = self.tables.pushed(self.register, fallen, byte);
        fallen
    }

    /// Appends bytes to a window that has space for all of them.
    pub fn extend(&mut self, bytes: &[u8])
        requires { length self.old.content + length bytes.now ≤ self.old.capacity }
        ensures { self.new ≡ record self.old { content = self.old.content ++ bytes.now } }
    {
        if self.tails.is_empty() {
            self.extend_plain(bytes);
        } else {
            for &byte in bytes {
                self.push(byte);
            }
        }
    }

    // Does the same without tails: the ring and the register take all bytes at once.
    fn extend_plain(&mut self, bytes: &[u8])
        requires room { length self.old.content + length bytes.now ≤ self.old.capacity }
        requires none { self.old.tails ≡ [] }
        ensures { self.new ≡ record self.old { content = self.old.content ++ bytes.now } }
    {
        self.ring.extend_from_slice(bytes);
        self.register = after_bytes(self.register, bytes);
        self.running = None;
    }

    /// Pushes bytes into a full window of the slice size until it is at a slice: the CRC-32 of the
    /// window or of a tail is the CRC-32 of a slice, for a tail a slice of its length. Returns the
    /// number of bytes pushed. If these are all, the window may be at a slice or not.
    pub fn push_until(&mut self, index: &Index, bytes: &[u8]) -> usize
        requires full { length self.old.content ≡ self.old.capacity }
        requires sized { self.old.capacity ≡ index.now.slice_size }
        ensures content { self.new
            ≡ record self.old { content = pushed_content self.old.content bytes.now result } }
        ensures full { length self.new.content ≡ self.new.capacity }
        ensures until { PushesUntil index.now self.old bytes.now result }
    {
        if self.tails.is_empty() {
            self.push_plain_until(index, bytes)
        } else {
            self.push_pieces_until(index, bytes)
        }
    }

    // Does the same without tails: the ring is written once, after the loop.
    fn push_plain_until(&mut self, index: &Index, bytes: &[u8]) -> usize
        requires full { length self.old.content ≡ self.old.capacity }
        requires none { self.old.tails ≡ [] }
        ensures content { self.new ≡ pushed_window self.old bytes.now result }
        ensures until { PushesUntil index.now self.old bytes.now result }
    {
        let roll = {
            let (front, back) = self.ring.as_slices();
            self.tables
                .roll_over(index, front, back, bytes, self.register)
        };
        self.register = roll.register;
        self.ring.extend_from_slice(&bytes[..roll.count]);
        self.running = None;
        roll.count
    }

    // Does the same with tails, in pieces that get longer as long as no slice is met. If one is
    // met in a piece, the bytes before it are the next piece, and then a single byte. The first
    // piece is as long as the last call would have made its next one, or a single byte if that
    // call ended at a slice.
    fn push_pieces_until(&mut self, index: &Index, bytes: &[u8]) -> usize
        requires full { length self.old.content ≡ self.old.capacity }
        requires sized { self.old.capacity ≡ index.now.slice_size }
        ensures content { self.new ≡ pushed_window self.old bytes.now result }
        ensures until { PushesUntil index.now self.old bytes.now result }
    {
        let mut done = 0;
        let mut most = self.pace.max(1).min(LONGEST_PIECE);
        let mut then = (2 * most).min(LONGEST_PIECE);
        self.pace = 1;
        while done < bytes.len() {
            let rest = &bytes[done..];
            let piece = &rest[..rest.len().min(most)];
            let passed = self.push_past(index, piece);
            if passed == piece.len() {
                done += passed;
                most = then;
                then = (2 * then).min(LONGEST_PIECE);
            } else if passed > 0 {
                most = passed;
                then = 1;
            } else {
                let hit = self.push_on(index, bytes[done]);
                done += 1;
                if hit {
                    return done;
                }
                most = then;
                then = (2 * then).min(LONGEST_PIECE);
            }
        }
        self.pace = most;
        done
    }

    // Pushes all bytes into a full window, if it is at a slice after none of them.
    // Otherwise changes nothing and returns a smaller number: the number of bytes that
    // are known to be passed.
    fn push_past(&mut self, index: &Index, bytes: &[u8]) -> usize
        requires full { length self.old.content ≡ self.old.capacity }
        requires sized { self.old.capacity ≡ index.now.slice_size }
        requires few { length bytes.now ≤ 512 }
        ensures within { result ≤ length bytes.now }
        ensures all { result ≡ length bytes.now → PushesPast index.now self.old bytes.now self.new }
        ensures fewer { result < length bytes.now → self.new ≡ self.old }
    {
        // Looking ahead at a single byte takes longer than pushing it.
        if bytes.len() == 1 {
            return 0;
        }
        let (front, back) = self.ring.as_slices();
        let roll = self
            .tables
            .roll_over(index, front, back, bytes, self.register);
        let stream = Stream { front, back, bytes };
        let passed = pass_tails(
            &mut self.tails,
            &mut self.running,
            index,
            &stream,
            roll.passed(),
        );
        if passed < bytes.len() {
            return passed;
        }
        self.register = roll.register;
        self.ring.extend_from_slice(bytes);
        passed
    }

    // Pushes a byte into a full window. Returns whether the window is at a slice then.
    fn push_on(&mut self, index: &Index, byte: u8) -> bool
        requires full { length self.old.content ≡ self.old.capacity }
        requires sized { self.old.capacity ≡ index.now.slice_size }
        ensures content { self.new ≡ record self.old { content = content_after self.old byte } }
        ensures slice { result ≡ is_at_slice index.now self.new }
    {
        self.push_by_tails(index, byte) || index.has_crc(self.crc())
    }

    // Does the same, but returns whether a tail has the CRC-32 of a slice of its length then.
    fn push_by_tails(&mut self, index: &Index, byte: u8) -> bool
        requires full { length self.old.content ≡ self.old.capacity }
        requires sized { self.old.capacity ≡ index.now.slice_size }
        ensures content { self.new ≡ record self.old { content = content_after self.old byte } }
        ensures slice { result ≡ has_tail_slice index.now self.new }
    {
        let has_tail = roll_tails(&mut self.tails, &self.ring, index);
        push_running(&mut self.running, byte);
        let fallen = self.ring.push_back(byte);
        self.register = self.tables.pushed(self.register, fallen, byte);
        has_tail
    }

    /// Returns the CRC-32 of the content, full or not.
    #[tactic(auto, unfolding(crate::specs::Crc32::crc_of))]
    pub fn crc(&self) -> u32
        ensures { result ≡ crc_of self.now.content }
    {
        self.register ^ 0xFFFF_FFFF
    }

    /// Computes the MD5 of the content, full or not.
    pub fn digest(&mut self) -> Hash16
        ensures digest { result.0 ≡ md5 self.old.content }
        ensures counted { self.new ≡ record self.old { digests = self.old.digests + 1 } }
    {
        let whole = self.len();
        self.hash(whole, 0)
    }

    /// Returns the CRC-32 of the first bytes, up to tail `k`'s length, and of
    /// zeros up to the capacity.
    pub fn tail_crc(&self, k: usize) -> u32
        requires tail { k < length self.now.tails }
        requires there { slice_index self.now.tails k ≤ length self.now.content }
        ensures { result ≡ crc_of (tail_content self.now (slice_index self.now.tails k)) }
    {
        let tail = &self.tails[k];
        tail.zeros.apply(tail.register) ^ 0xFFFF_FFFF
    }

    /// Computes the MD5 of the same bytes.
    pub fn tail_digest(&mut self, k: usize) -> Hash16
        requires tail { k < length self.old.tails }
        requires there { slice_index self.old.tails k ≤ length self.old.content }
        ensures digest { result.0 ≡ md5 (tail_content self.old (slice_index self.old.tails k)) }
        ensures counted { self.new ≡ record self.old { digests = self.old.digests + 1 } }
    {
        let tail = &self.tails[k];
        let (own, zeros) = (tail.length, tail.zeros.len);
        self.hash(own, zeros)
    }

    /// Computes from the bytes the CRC-32 of the first `own` ones and of zeros up to the capacity.
    pub fn front_crc(&self, own: usize) -> u32
        requires { own ≤ self.now.capacity }
        ensures { result ≡ crc_of (tail_content self.now own) }
    {
        let zeros = ZeroRun::new(self.size() - own);
        let (front, back) = self.first(own);
        let register = after_bytes(after_bytes(0xFFFF_FFFF, front), back);
        zeros.apply(register) ^ 0xFFFF_FFFF
    }

    /// Computes the MD5 of the same bytes.
    pub fn front_digest(&mut self, own: usize) -> Hash16
        requires { own ≤ self.old.capacity }
        ensures digest { result.0 ≡ md5 (tail_content self.old own) }
        ensures counted { self.new ≡ record self.old { digests = self.old.digests + 1 } }
    {
        let behind = self.size() - own;
        self.hash(own, behind)
    }

    /// Returns the least short-slice length, from `from` on, for which the first bytes and zeros
    /// have the CRC-32 of a slice of that length. Goes over the content once.
    // Not inlined, so that its calls can be counted in the program.
    #[inline(never)]
    pub fn next_tail(&self, index: &Index, from: usize) -> Option<usize>
        requires { self.now.capacity ≡ index.now.slice_size }
        ensures first { result ≡ find (λ own. nat_le from own
            && is_tail_slice index.now self.now.capacity self.now.content own)
            (tails_of index.now) }
        ensures within { IfSome result (λ own. (from ≤ own) × (own < index.now.slice_size)) }
    {
        let mut register = 0xFFFF_FFFF;
        let mut done = 0;
        let lengths = index.tail_lengths();
        for k in 0..lengths.len() {
            let own = lengths[k];
            register = self.after_front(register, done, own);
            done = own;
            if own >= from && is_tail_of(index, register, own) {
                return Some(own);
            }
        }
        None
    }

    // Returns the register after the bytes from index `done` up to `end`.
    fn after_front(&self, register: u32, done: usize, end: usize) -> u32
        ensures { result ≡ fold register_after register (drop done (take end self.now.content)) }
    {
        let (front, back) = self.first(end);
        let in_front = done.min(front.len());
        let in_back = (done - in_front).min(back.len());
        let middle = after_bytes(register, &front[in_front..]);
        after_bytes(middle, &back[in_back..])
    }

    /// Returns the byte at an index, if there is one.
    pub fn get(&self, place: usize) -> Option<u8>
        ensures { result ≡ slice_get self.now.content place }
    {
        self.ring.get(place).copied()
    }

    // Computes the MD5 of the first `count` bytes and of `zeros` zero bytes.
    fn hash(&mut self, count: usize, zeros: usize) -> Hash16
        ensures digest { result.0 ≡ md5 (take count self.old.content ++ replicate zeros 0) }
        ensures counted { self.new ≡ record self.old { digests = self.old.digests + 1 } }
    {
        self.digests.add(1);
        let (front, back) = self.first(count);
        let mut hasher = Md5::new();
        hasher.update(front);
        hasher.update(back);
        hash_zeros(&mut hasher, zeros);
        Hash16(hasher.finalize())
    }

    // Returns the first `count` bytes, in two parts.
    fn first(&self, count: usize) -> (&[u8], &[u8])
        ensures { result.0.now ++ result.1.now ≡ take count self.now.content }
    {
        let (front, back) = self.ring.as_slices();
        let in_front = count.min(front.len());
        let in_back = (count - in_front).min(back.len());
        (&front[..in_front], &back[..in_back])
    }

    /// Whether the window is full, so that the next byte makes one fall out.
    pub fn is_full(&self) -> bool
        ensures { IsTrue result ↔ (length self.now.content ≡ self.now.capacity) }
    {
        self.ring.is_full()
    }

    /// Returns the number of bytes in the window.
    pub fn len(&self) -> usize
        ensures len { result ≡ length self.now.content }
        ensures within { result ≤ self.now.capacity }
    {
        self.ring.len()
    }

    /// Returns the number of bytes that the window may have.
    pub fn size(&self) -> usize
        ensures { result ≡ self.now.capacity }
    {
        self.ring.capacity()
    }

    /// Replaces the tails by which it looks for short slices. The window must be empty.
    pub fn look_by(&mut self, tails: WaitingTails)
        requires empty { self.old.content ≡ [] }
        requires sized { tails.size ≡ self.old.capacity }
        ensures { self.new ≡ record self.old { tails = tails.lengths } }
    {
        let (list, running) = tails.into_parts();
        self.tails = list;
        self.running = running;
    }

    /// Removes all bytes.
    #[tactic(auto, unfolding(crate::specs::Crc32::register_of))]
    pub fn clear(&mut self)
        ensures { self.new ≡ record self.old { content = [] } }
    {
        self.ring.clear();
        self.register = 0xFFFF_FFFF;
        clear_tails(&mut self.tails);
        clear_running(&mut self.running);
    }
}

// Whether this register, followed by zeros, gives the CRC-32 of a slice of this unpadded length.
fn is_tail_of(index: &Index, register: u32, own: usize) -> bool
    requires { own < index.now.slice_size }
    ensures { result ≡ set_has_own_crc index.now
        (zeros_crc (index.now.slice_size - own) register) own }
{
    let zeros = index.size() as usize - own;
    index.may_have_tail(register) && index.has_tail_register(register, &ZeroRun::new(zeros), own)
}

// Feeds `count` zero bytes into a hasher.
fn hash_zeros(hasher: &mut Md5, count: usize)
    ensures { (m : List ℕ) → Holds hasher.old m → Holds hasher.new (m ++ replicate count 0) }
{
    let zeros = [0u8; 1024];
    let mut left = count;
    while left > 0 {
        let n = left.min(1024);
        hasher.update(&zeros[..n]);
        left -= n;
    }
}
