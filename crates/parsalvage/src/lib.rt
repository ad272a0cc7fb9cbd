//! The packets of bytes and of files, as they are found and as they are kept.
//!
//! `bytes` salvages bytes, and `files` a file: `searching` goes over it for the magic by pieces
//! (`piece`), `validating` tests what looks like a packet there, and `file_scan` stores each that
//! is one (`stored`), with its body in one store for all of the file (`body_store`). `kept` and
//! `part` are how packets are kept; `keeping` keeps those of bytes, `files` those of a file.
//! `salvage_fault` is the fault of a salvage, and `laws` has the law of the magic.
#![tactic(auto)]

mod body_store;
mod bytes;
mod file_scan;
mod files;
mod keeping;
mod kept;
mod laws;
mod part;
mod piece;
mod salvage_fault;
mod searching;
mod stored;
mod validating;

pub use crate::bytes::salvage;
pub use crate::files::salvage_file;
pub use crate::keeping::{BODY_LIMIT, kept_of};
pub use crate::kept::{Kept, KeptBody};
pub use crate::laws::magic_law;
pub use crate::part::Part;
pub use crate::salvage_fault::SalvageFault;
