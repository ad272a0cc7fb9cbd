//! Data that only contracts see: `per_file` has a number for each file, `tally` one number,
//! `transcript` a list of bytes, and `readings` a list of reads and what they returned.

mod per_file;
mod readings;
mod tally;
mod transcript;

pub use crate::counts::per_file::Counts;
pub use crate::counts::readings::Readings;
pub use crate::counts::tally::Tally;
pub use crate::counts::transcript::Transcript;
