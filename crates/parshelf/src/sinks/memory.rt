ghost use Rattle.std.specs.Prelude.{◌≡◌, ◌+◌, ◌<◌, ◌≤◌, ◌↔◌, min, length, take, Ok, IfOk, OnErr, IsErr, false, vec_len};

use crate::sinks::sink::{Failed, Sink};
use parfield::Tally;
use std::alloc::{AllocError, Global};

/// A sink in memory that takes a fixed number of bytes.
#[derive(Drop)]
pub struct MemSink {
    buffer: Vec<u8>,
    used: usize,
    piece: usize,
    zero: bool,
    failures: Tally,
    ghost within: { used ≤ vec_len buffer },
    ghost has_piece: { 0 < piece },
}

impl MemSink {
    ghost use Rattle.parshelf.specs.SinkState.{empty_sink};
    ghost use Rattle.parshelf.specs.MemorySink.{memory_sink_state, sink_limits_of};

    /// Makes a sink that takes `room` bytes in all, at most `piece` in one call. If it is full and
    /// the part is not empty, it takes 0 bytes if `zero` is set, and else it fails.
    pub fn new(alloc: Global, room: usize, piece: usize, zero: bool) -> Result<MemSink, AllocError>
        requires { 0 < piece }
        ensures state { IfOk result (λ sink. memory_sink_state sink ≡ empty_sink) }
        ensures room { IfOk result (λ sink. (sink_limits_of sink).room ≡ room) }
        ensures piece { IfOk result (λ sink. (sink_limits_of sink).piece ≡ piece) }
        ensures zero { IfOk result (λ sink. (sink_limits_of sink).takes_zero ≡ zero) }
    {
        Ok(MemSink {
            buffer: vec![in alloc; 0; room]?,
            used: 0,
            piece,
            zero,
            failures: Tally::new(),
        })
    }

    /// Lends the bytes that were written to the sink.
    pub fn text(&self) -> &[u8]
        ensures { result.now ≡ (memory_sink_state self.now).bytes }
    {
        &self.buffer[..self.used]
    }
}

impl Sink for MemSink {
    ghost use Rattle.parshelf.specs.SinkState.{appended, refused};
    ghost use Rattle.parshelf.specs.MemorySink.{memory_sink_state, sink_limits_of, limits_after};

    ghost state = { memory_sink_state };

    fn put(&mut self, part: &[u8]) -> Result<usize, Failed>
        ensures bound { IfOk result (λ n. n ≤ length part.now) }
        ensures taken { IfOk result (λ n. 0 < n
            → memory_sink_state self.new
            ≡ appended (memory_sink_state self.old) (take n part.now)) }
        ensures empty { length part.now ≡ 0 → result ≡ Ok 0 }
        ensures nothing { IfOk result (λ _. length part.now ≡ 0
            → memory_sink_state self.new ≡ memory_sink_state self.old) }
        ensures full { IfOk result (λ n. n ≡ 0 → 0 < length part.now
            → memory_sink_state self.new ≡ refused (memory_sink_state self.old)) }
        ensures failed { OnErr result
            (memory_sink_state self.new ≡ refused (memory_sink_state self.old)) }

        // How much the sink takes, when it fails, and what it takes afterwards.
        ensures size { IfOk result (λ n. n
            ≡ min (min (length part.now) (sink_limits_of self.old).piece)
            (sink_limits_of self.old).room) }
        ensures fails { IsErr result ↔ (((sink_limits_of self.old).room ≡ 0)
            × (0 < length part.now) × ((sink_limits_of self.old).takes_zero ≡ false)) }
        ensures limits { sink_limits_of self.new ≡ limits_after (sink_limits_of self.old) result }
    {
        let rest = self.buffer.len() - self.used;
        if rest == 0 && !part.is_empty() {
            self.failures.add(1);
            return if self.zero { Ok(0) } else { Err(Failed) };
        }
        let size = part.len().min(self.piece).min(rest);
        let end = self.used + size;
        self.buffer[self.used..end].copy_from_slice(&part[..size]);
        self.used = end;
        Ok(size)
    }
}
