//! CRC-32: of a list of bytes, and of runs of zeros.
//!
//! The lowest modules come first: `table` and `far_table` have the register after some steps, for
//! each byte. `checksum` uses them to take eight bytes at a time. `zero_run` is a run of zeros: a
//! linear map of registers, which is made by squaring. `zero_runs` has these maps for each power of
//! two, and can also take zeros back. `lanes` are vectors of sixteen bytes. `nibbles` has the
//! nibbles (groups of four bits) of registers, by which `low_bytes` looks up the low bytes of
//! sixteen registers after a run of zeros.

mod checksum;
mod far_table;
mod lanes;
mod low_bytes;
mod nibbles;
mod table;
mod zero_run;
mod zero_runs;

pub use crate::crcs::checksum::{after_byte, after_bytes, after_two, crc32};
pub use crate::crcs::lanes::{
    bytes_at, high_nibbles, looked_up, low_bytes_at, low_nibbles, shared, xored,
};
pub use crate::crcs::low_bytes::LowBytes;
pub use crate::crcs::nibbles::Nibbles;
pub use crate::crcs::table::{STEPPED_BYTES, STEPPED_TWICE};
pub use crate::crcs::zero_run::{ZeroRun, removal_table};
pub use crate::crcs::zero_runs::ZeroRuns;
