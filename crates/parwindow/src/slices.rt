//! The slices of a set that have known checksums, in the orders in which an index looks them up.
//!
//! `entries` are sorted by both checksums, and a `directory` has the part of this list in which a
//! CRC-32 can be. `own_lengths` have each CRC-32 with the unpadded length of its slice, and
//! `short_lengths` are the lengths below the slice size. `bit_set` and `bloom_filter` show for
//! nearly every register that no slice has it, before any of these lists is looked at. `low_sets`
//! do the same for sixteen registers at a time, by their low bytes.

mod bit_set;
mod bloom_filter;
mod directory;
mod entries;
mod low_sets;
mod own_lengths;
mod short_lengths;

pub use crate::slices::bloom_filter::BloomFilter;
pub use crate::slices::entries::Entries;
pub use crate::slices::low_sets::{LowSet, LowSets};
pub use crate::slices::own_lengths::OwnLengths;
pub use crate::slices::short_lengths::tail_lengths;
