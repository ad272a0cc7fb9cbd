ghost use Rattle.std.specs.Prelude.{◌≡◌, ◌≢◌, ℕ, ◌+◌, ◌<◌, ◌≤◌, List, All, IfSome, IsTrue, length, get_or};
ghost use Rattle.circular_buffer.specs.Buffer.{keep_last};
ghost use Rattle.parwindow.specs.Ahead.{window_bytes, stream_of, AreOneTail, HasPassed, IsAhead};
ghost use Rattle.parwindow.specs.Along.{AreAlong};
ghost use Rattle.parwindow.specs.Running.{IsRun};
ghost use Rattle.parwindow.specs.Tails.{tail_lengths_of, some_tail_slice, IsTail};
ghost use Rattle.parwindow.specs.Until.{pushed_content};

use crate::index::Index;
use crate::tails::places::{Places, RegisterStream};
use crate::tails::running::Running;
use crate::tails::stream::Stream;
use crate::tails::tail::Tail;
use crate::tails::tail_slices::TailSlices;

// From this number of bytes on, counted for all tails together, a running register saves more time
// than it costs to compute its places.
const LEAST_WORK: usize = 1024;

/// Moves each tail past all bytes of a stream and returns their number, if `limit` is that number
/// and after none of the bytes a tail has the CRC-32 of a slice of its length. Otherwise moves no
/// tail, and returns a smaller number: all tails pass that many bytes without such a slice.
pub fn pass_tails(
    tails: &mut [Tail],
    running: &mut Option<Running>,
    index: &Index,
    stream: &Stream<'_>,
    limit: usize,
) -> usize
    requires tails { All (IsTail (length (window_bytes stream.now)) (window_bytes stream.now)) tails.old }
    requires running { IfSome running.old
        (IsRun (length (window_bytes stream.now)) (window_bytes stream.now)) }
    requires sized { length (window_bytes stream.now) ≡ index.now.slice_size }
    requires within { limit ≤ length stream.now.bytes.now }
    requires few { length stream.now.bytes.now ≤ 512 }
    ensures lengths { tail_lengths_of tails.new ≡ tail_lengths_of tails.old }
    ensures within { result ≤ limit }
    ensures all { result ≡ length stream.now.bytes.now
        → All (IsTail (length (window_bytes stream.now)) (pushed_content (window_bytes stream.now)
        stream.now.bytes.now (length stream.now.bytes.now))) tails.new }
    ensures ran { result ≡ length stream.now.bytes.now
        → IfSome running.new (IsRun (length (window_bytes stream.now))
        (keep_last (length (window_bytes stream.now)) (stream_of stream.now))) }
    ensures none { result ≡ length stream.now.bytes.now → (k : ℕ) → 0 < k
        → k ≤ length stream.now.bytes.now → ¬ IsTrue (some_tail_slice index.now
        (length (window_bytes stream.now))
        (pushed_content (window_bytes stream.now) stream.now.bytes.now k) (tail_lengths_of tails.new)) }
    ensures fewer { result < length stream.now.bytes.now
        → All (IsTail (length (window_bytes stream.now)) (window_bytes stream.now)) tails.new }
    ensures stays { result < length stream.now.bytes.now → IfSome running.new
        (IsRun (length (window_bytes stream.now)) (window_bytes stream.now)) }
{
    let passed = match running {
        Some(run) => look_and_run(tails, run, index, stream, limit),
        None => look_ahead(tails, index, stream, None, limit),
    };
    if passed < stream.bytes.len() {
        return passed;
    }
    go_ahead(tails);
    passed
}

// Looks ahead as `look_ahead` does. If all tails pass all bytes, the running register goes past
// them too. Not inlined, since its places take much space on the stack.
#[inline(never)]
fn look_and_run(
    tails: &mut [Tail],
    running: &mut Running,
    index: &Index,
    stream: &Stream<'_>,
    limit: usize,
) -> usize
    requires tails { All (IsTail (length (window_bytes stream.now)) (window_bytes stream.now)) tails.old }
    requires running { IsRun (length (window_bytes stream.now)) (window_bytes stream.now) running.old }
    requires sized { length (window_bytes stream.now) ≡ index.now.slice_size }
    requires within { limit ≤ length stream.now.bytes.now }
    requires few { length stream.now.bytes.now ≤ 512 }
    ensures lengths { tail_lengths_of tails.new ≡ tail_lengths_of tails.old }
    ensures each { All (IsTail (length (window_bytes stream.now)) (window_bytes stream.now)) tails.new }
    ensures within { result ≤ limit }
    ensures passed { result ≡ length stream.now.bytes.now → All (HasPassed index.now
        (window_bytes stream.now) stream.now.bytes.now) tails.new }
    ensures ran { result ≡ length stream.now.bytes.now
        → IsRun (length (window_bytes stream.now))
        (keep_last (length (window_bytes stream.now)) (stream_of stream.now)) running.new }
    ensures stays { result < length stream.now.bytes.now → running.new ≡ running.old }
{
    let coming = running.coming(stream.bytes);
    let come = &coming.registers[..stream.bytes.len()];
    let work = stream.bytes.len().saturating_mul(tails.len());
    let passed = if work < LEAST_WORK {
        look_ahead(tails, index, stream, None, limit)
    } else {
        let (front, back) = running.before.as_slices();
        let registers = RegisterStream { front, back, come };
        let places = Places::new(*stream, registers);
        look_ahead(tails, index, stream, Some(&places), limit)
    };
    if passed == stream.bytes.len() {
        running.extend(come, coming.last);
    }
    passed
}

// Returns how many bytes all tails pass without a slice of their length, up to a limit. If these
// are all bytes of a stream, `ahead` is the register of each tail after them. If there is a running
// register, it replaces the registers of the tails.
fn look_ahead(
    tails: &mut [Tail],
    index: &Index,
    stream: &Stream<'_>,
    places: Option<&Places<'_, '_>>,
    limit: usize,
) -> usize
    requires tails { All (IsTail (length (window_bytes stream.now)) (window_bytes stream.now)) tails.old }
    requires sized { length (window_bytes stream.now) ≡ index.now.slice_size }
    requires within { limit ≤ length stream.now.bytes.now }
    requires places { IfSome places (λ places. (places.now.stream ≡ stream.now)
        × AreAlong places.now) }
    ensures lengths { tail_lengths_of tails.new ≡ tail_lengths_of tails.old }
    ensures each { All (IsTail (length (window_bytes stream.now)) (window_bytes stream.now)) tails.new }
    ensures within { result ≤ limit }
    ensures passed { result ≡ length stream.now.bytes.now → All (HasPassed index.now
        (window_bytes stream.now) stream.now.bytes.now) tails.new }
{
    let mut passed = limit;
    for k in 0..tails.len() {
        let roll = TailSlices::new(index, &tails[k]).roll_ahead(stream, places, passed);
        set_ahead(tails, k, roll.register);
        passed = roll.passed();
    }
    passed
}

// Notes the register of tail `k` after the bytes ahead.
fn set_ahead(tails: &mut [Tail], k: usize, register: u32)
    requires { k < length tails.old }
    ensures lengths { tail_lengths_of tails.new ≡ tail_lengths_of tails.old }
    ensures same { (j : ℕ) (d : Tail) → AreOneTail (get_or tails.new j d) (get_or tails.old j d) }
    ensures others { (j : ℕ) (d : Tail) → j ≢ k → get_or tails.new j d ≡ get_or tails.old j d }
    ensures ahead { (d : Tail) → (get_or tails.new k d).ahead ≡ register }
{
    tails[k].ahead = register;
}

// Moves each tail: its register is the one that was noted as ahead.
fn go_ahead(tails: &mut [Tail])
    ensures lengths { tail_lengths_of tails.new ≡ tail_lengths_of tails.old }
    ensures each { (size : ℕ) (before after : List ℕ) → All (IsTail size before) tails.old
        → All (IsAhead after) tails.old → All (IsTail size after) tails.new }
{
    for k in 0..tails.len() {
        let register = tails[k].ahead;
        tails[k].register = register;
    }
}
