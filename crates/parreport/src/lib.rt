//! The report that a plan asks for, and how a run ends. Plans, sinks and their failures are passed
//! on, so that one `use` is enough for a whole run except its shelves (its files).
//!
//! From below: `faults` has the faults of a run and how each fault below becomes one, `status` what
//! a run found, and `modes` how short slices are looked for. `states` says what the scanned files
//! show of a set, `text` writes what each command tells, `salvage` collects the packets of all packet
//! files, and `report` is the run of a plan over its files. `ends` has how a run ends, `messages` the
//! exit status and the line of each end, and `opened_files` what the program does once it tried to
//! open the files.
#![tactic(auto)]

mod ends;
mod faults;
mod messages;
mod modes;
mod opened_files;
mod report;
mod salvage;
mod states;
mod status;
mod text;

pub use crate::ends::{End, run_end};
pub use crate::faults::{Cause, RunFault};
pub use crate::messages::ending;
pub use crate::opened_files::run_opened;
pub use crate::report::run;
pub use crate::status::Status;
pub use parplan::{Command, Plan, PlanFault, Scanned, files_to_scan, plan, reads_scanned};
pub use parshelf::{Failed, MemSink, Sink, WriteSink};
