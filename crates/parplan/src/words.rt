//! The plan of the arguments of a command line.
//!
//! The lowest modules come first: `grammar` has the four command lines, and `matches` asks
//! `clap` what it finds in arguments. `limit`, `options` and `files` read these matches, and
//! `planning` makes the plan.

mod files;
mod grammar;
mod limit;
mod matches;
mod options;
mod planning;

pub use crate::words::planning::plan;
