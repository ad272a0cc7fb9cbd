//! The findings on a recovery set in the scanned files.
//!
//! From below: `contents` has lengths and MD5s of the scanned files that may be files of the set,
//! `lookups` finds scanned files by content and by name, `state` is the state of each file, `found`
//! says which files are intact and which slices are found, and `findings` is all of it together.

mod contents;
mod findings;
mod found;
mod lookups;
mod state;

pub(crate) use crate::states::findings::{Findings, findings_on};
pub(crate) use crate::states::state::State;
