//! The fixtures that the tests of several crates share: a worked packet file, recovery sets of one
//! file, and files in memory. They are written from the standard. Of the crates under test they use
//! only types, `kept_of`, `build` and `MemShelf::new`.
#![tactic(auto)]

mod bytes;
mod sets;
mod shelves;
mod worked;

pub use crate::bytes::joined;
pub use crate::sets::set_with;
pub use crate::shelves::{file_of, shelf_of};
pub use crate::worked::WORKED;
