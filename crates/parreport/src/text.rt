//! The text that each command writes.
//!
//! `packets`, `set`, `find` and `verify` have a command each, with its lines in `lines`; `set_line`
//! is the line that `set` and `verify` both begin with. `block_writer` is what lines are written to,
//! `rest` writes what is left of a text, with its status, and `names` are the names of files.

mod block_writer;
mod find;
mod names;
mod packets;
mod rest;
mod set;
mod set_line;
mod verify;

pub(crate) use crate::text::find::{Query, write_find};
pub(crate) use crate::text::packets::write_packets;
pub(crate) use crate::text::set::write_set;
pub(crate) use crate::text::verify::write_verify;
