//! Read-only files: `shelf` has the trait, and `memory` and `disk` have its two
//! implementations. `reading` reads whole parts of any of them, and `names` computes the
//! fingerprint of a list of files.

mod disk;
mod memory;
mod names;
mod reading;
mod shelf;

pub use crate::shelves::disk::{DiskShelf, OpenFault};
pub use crate::shelves::memory::MemShelf;
pub use crate::shelves::names::{Named, list_mark};
pub use crate::shelves::reading::{ReadFault, digest_of, digest_of_part, fill, hash_part};
pub use crate::shelves::shelf::Shelf;
