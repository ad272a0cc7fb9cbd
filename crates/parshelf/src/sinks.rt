//! Sinks, which text is written to: `sink` has the trait, `memory` and `writer` have its two
//! implementations, and `writing` writes a whole text to any of them.

mod memory;
mod sink;
mod writer;
mod writing;

pub use crate::sinks::memory::MemSink;
pub use crate::sinks::sink::{Failed, Sink};
pub use crate::sinks::writer::WriteSink;
pub use crate::sinks::writing::write_text;
