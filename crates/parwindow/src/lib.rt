//! CRC-32, a window of the last bytes of a stream with its checksums, and the slices that
//! have given checksums.
//!
//! The lowest modules come first: `crcs` computes the CRC-32 of bytes and of zeros. `rolling` moves
//! the register of a full window from byte to byte. `slices` has lists of the slices with known
//! checksums, and `index` uses them to find the slices that have a given CRC-32 or MD5. `tails` are
//! the short-slice lengths of a window, with a register for each. `window` is a ring buffer of the
//! last bytes with all registers, and `laws` states laws of windows and CRC-32s.
//!
//! Four verbs have one meaning each. You *push* a byte into a window: it comes in at the end, and
//! if the window is full, the first byte falls out. A register *rolls* when one byte leaves and one
//! comes. Tails *look ahead* along bytes that are not pushed yet. A position is *passed* if no
//! slice has the checksum of the window there.
#![tactic(auto)]

mod crcs;
mod index;
mod laws;
mod rolling;
mod slices;
mod tails;
mod window;

pub use crate::crcs::crc32;
pub use crate::index::Index;
pub use crate::laws::{crc_removal_law, no_tails_law, push_until_law, tails_law, zero_fill_law};
pub use crate::tails::WaitingTails;
pub use crate::window::Window;
