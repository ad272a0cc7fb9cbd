ghost use Rattle.std.specs.Prelude.{◌<◌, length, string_bytes};
ghost use Rattle.parreport.specs.Blocks.{block};

use crate::faults::RunFault;
use parshelf::{Sink, write_text};
use std::alloc::Global;
use std::mem::replace;

/// A writer that gives lines to a sink in blocks, so that a long text is never held whole. The
/// function that makes one takes it apart at the end, and writes the bytes that wait.
#[derive(Drop)]
pub struct BlockWriter<'a, W> {
    alloc: Global,
    /// The sink that the blocks go to.
    pub sink: &'a mut W,
    /// The bytes that wait until there is a block of them.
    pub buffer: String,
    ghost below_block: { length (string_bytes buffer) < block },
}

// At least this number of bytes is given to the sink at once, except at the end of a text.
const BLOCK: usize = 65_536;

impl<'a, W: Sink> BlockWriter<'a, W> {
    ghost use Rattle.std.specs.Prelude.{◌≡◌, [], OnOk, IfErr};
    ghost use Rattle.parreport.specs.Blocks.{IsBuffered, StopsIn};

    /// Makes a writer to a sink. Its buffer is empty.
    pub fn new(alloc: Global, sink: &'a mut W) -> BlockWriter<'a, W>
        ensures same_sink { result.sink.ghost_name ≡ sink.entry.ghost_name }
        ensures state { W.state result.sink.now ≡ W.state sink.old }
        ensures buffer { string_bytes result.buffer ≡ [] }
    {
        BlockWriter {
            alloc,
            sink,
            buffer: String::new(alloc),
        }
    }

    /// Takes out the bytes that wait, so that a line can be appended to them.
    pub fn take_buffer(&mut self) -> String
        ensures same_sink { self.new.sink.ghost_name ≡ self.old.sink.ghost_name }
        ensures state { W.state self.new.sink.now ≡ W.state self.old.sink.now }
        ensures taken { string_bytes result ≡ string_bytes self.old.buffer }
        ensures buffer { string_bytes self.new.buffer ≡ [] }
    {
        replace(&mut self.buffer, String::new(self.alloc))
    }

    /// Puts back a text that begins with the bytes that were taken out: it waits, or is written if
    /// it is a block.
    pub fn put_back(&mut self, text: String) -> Result<(), RunFault>
        ensures same_sink { self.new.sink.ghost_name ≡ self.old.sink.ghost_name }
        ensures buffered { OnOk result (IsBuffered (W.state self.old.sink.now)
            (W.state self.new.sink.now) (string_bytes text) (string_bytes self.new.buffer)) }
        ensures stopped { IfErr result (λ why. StopsIn why (W.state self.old.sink.now)
            (W.state self.new.sink.now) (string_bytes text)) }
    {
        let mut text = text;
        if text.len() >= BLOCK {
            write_text(self.sink, text.as_bytes())?;
            text.clear();
        }
        self.buffer = text;
        Ok(())
    }
}
