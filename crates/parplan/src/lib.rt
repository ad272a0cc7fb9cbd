//! The types of plans, and the plan of the arguments of a command line: what the
//! program is asked for.
//!
//! `command` has the types of plans and the files that a plan scans. `arguments` says which words
//! of a command line come after the program's name, and how many files they may name. `words` makes
//! the plan of these words.
#![tactic(auto)]

mod arguments;
mod command;
mod words;

pub use crate::arguments::words_after_program;
pub use crate::command::{Command, Plan, PlanFault, Scanned, files_to_scan, reads_scanned};
pub use crate::words::plan;
