//! The recovery set that kept packets describe.
//!
//! The lowest modules come first: `bodies` has a reader for each kind of packet body, and
//! `recovery_set` the set and the functions that read its parts. `reading` reads a kept packet
//! according to its kind, `choosing` takes each thing from the first usable packet that has it, and
//! `in_order` sorts file IDs. `describing` finds the description of each file and tests that no two
//! have the same name, `slicing` has the files and the slices of the set and tests the limit on
//! their number, and `building` puts the set together.
#![tactic(auto)]

mod bodies;
mod building;
mod choosing;
mod describing;
mod in_order;
mod reading;
mod recovery_set;
mod slicing;

pub use crate::bodies::{
    Aside, BodyFault, Desc, Ifsc, Main, creator_body, desc_body, ifsc_body, main_body, slice_body,
};
pub use crate::building::build;
pub use crate::recovery_set::{RecoverySet, SetAside, SetFault, SetFile, SetSlice};
