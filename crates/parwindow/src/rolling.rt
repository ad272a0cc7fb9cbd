//! The register of a full window, which rolls: as one byte comes, the first one is taken out of it.
//!
//! `register_set` is a set of registers that a roll looks for, `roll` says how far it came, and
//! `roll_tables` has the tables that it uses.

mod register_set;
mod roll;
mod roll_tables;

pub use crate::rolling::register_set::RegisterSet;
pub use crate::rolling::roll::Roll;
pub use crate::rolling::roll_tables::RollTables;
