ghost use Rattle.std.specs.Prelude.{◌≡◌, ℕ, ◌<◌, ◌≤◌, length, take, Ok, IfOk, OnErr};

use crate::sinks::sink::{Failed, Sink};
use parfield::{Tally, Transcript};
use std::io::Write;

/// A sink over a writer: a `put` of some bytes is one `write`, and an error is `Failed`.
#[derive(Drop)]
pub struct WriteSink<W> {
    writer: W,
    written: Transcript,
    failures: Tally,
}

impl<W> WriteSink<W> {
    ghost use Rattle.parshelf.specs.SinkState.{empty_sink};
    ghost use Rattle.parshelf.specs.WriterSink.{writer_sink_state, writer_of};

    /// Makes a sink over a writer, before anything is written.
    pub fn new(writer: W) -> WriteSink<W>
        ensures state { writer_sink_state result ≡ empty_sink }
        ensures writer { writer_of result ≡ writer }
    {
        WriteSink {
            writer,
            written: Transcript::new(),
            failures: Tally::new(),
        }
    }
}

impl<W: Write> Sink for WriteSink<W> {
    ghost use Rattle.std.specs.Io.KnownBytes.{WriteAppends};
    ghost use Rattle.parshelf.specs.SinkState.{appended, refused};
    ghost use Rattle.parshelf.specs.WriterSink.{writer_sink_state, writer_of};

    ghost state = { writer_sink_state };

    /// Calls the writer's `write` once, or not at all if the part is empty; an
    /// error of it is `Failed`.
    fn put(&mut self, part: &[u8]) -> Result<usize, Failed>
        ensures bound { IfOk result (λ n. n ≤ length part.now) }
        ensures taken { IfOk result (λ n. 0 < n
            → writer_sink_state self.new
            ≡ appended (writer_sink_state self.old) (take n part.now)) }
        ensures empty { length part.now ≡ 0 → result ≡ Ok 0 }
        ensures nothing { IfOk result (λ _. length part.now ≡ 0
            → writer_sink_state self.new ≡ writer_sink_state self.old) }
        ensures full { IfOk result (λ n. n ≡ 0 → 0 < length part.now
            → writer_sink_state self.new ≡ refused (writer_sink_state self.old)) }
        ensures failed { OnErr result
            (writer_sink_state self.new ≡ refused (writer_sink_state self.old)) }

        // The contents of the writer, if its type says what they are, grow by the
        // bytes that were taken.
        ensures writer { WriteAppends (W.contents (writer_of self.old))
            (W.contents (writer_of self.new)) result part.now }
    {
        // The system may refuse even a write of no byte.
        if part.is_empty() {
            return Ok(0);
        }
        match self.writer.write(part) {
            Ok(0) => {
                self.failures.add(1);
                Ok(0)
            }
            Ok(n) => {
                self.written.append(&part[..n]);
                Ok(n)
            }
            Err(_) => {
                self.failures.add(1);
                Err(Failed)
            }
        }
    }
}
