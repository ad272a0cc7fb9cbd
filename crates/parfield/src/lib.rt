//! Fields of PAR2 files: hashes, packet headers, one packet in bytes, and names as they are shown;
//! and data that only contracts see.
//!
//! `hash16` and `kind` have the types of a header's fields, and `headers` the types of headers and
//! packets. `packet` finds a header or a packet at the front of bytes. `shown` writes names as one
//! line of ASCII, using `hex_byte`. `sequence` and `text` are a `Vec` and a `String` that contracts
//! see by their contents. `counts` has counts and lists of reads that take no bytes at run time,
//! and `laws` the law of the order of IDs.
#![tactic(auto)]

mod counts;
mod hash16;
mod headers;
mod hex_byte;
mod kind;
mod laws;
mod packet;
mod sequence;
mod shown;
mod text;

pub use crate::counts::{Counts, Readings, Tally, Transcript};
pub use crate::hash16::Hash16;
pub use crate::headers::{Header, HeaderFault, Packet};
pub use crate::kind::Kind;
pub use crate::laws::ids_follow_numbers;
pub use crate::packet::{MAGIC, field_at, header, packet_at};
pub use crate::sequence::Sequence;
pub use crate::shown::{Shown, show_name};
pub use crate::text::Text;
