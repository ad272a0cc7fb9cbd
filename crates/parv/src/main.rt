//! Verifies files by their PAR2 recovery sets.
#![tactic(auto)]

mod program;

use crate::program::perform;
use std::io::Write;
use std::process::ExitCode;

// Runs the command line, and ends with its exit status.
fn main(rt: HostRuntime) -> ExitCode {
    match perform(&rt) {
        Ok((status, line)) => {
            let _ = rt.stderr().write_all(&line);
            ExitCode::from(status)
        }
        Err(_) => {
            let _ = rt.stderr().write_all(b"parv: out of memory\n");
            ExitCode::from(8)
        }
    }
}
