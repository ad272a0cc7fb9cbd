//! The way of a window along a scanned file, with the bytes read ahead of it, and the slices that
//! are seen in it. Searches and surveys both use it.
//!
//! From below: `track` reads ahead along a file, and moves the window from place to place over the
//! bytes that were read. `mode` says how short slices are compared, and `sought` which slices are
//! looked for. The same code serves both modes: a window is compared at some lengths, in the plain
//! mode only at its whole length, and `sought` gives the checksums at each of them. `digests` finds
//! the slice that is seen in a full window, and keeps the MD5s that were taken of it.
//!
//! Each call borrows the window and the shelf. No call takes memory.

mod digests;
mod mode;
mod sought;
mod track;

pub(crate) use crate::tracks::digests::Digests;
pub use crate::tracks::mode::Mode;
pub use crate::tracks::sought::has_too_many_tails;
pub(crate) use crate::tracks::sought::{MOST_TAILS, Sought};
pub(crate) use crate::tracks::track::Track;
