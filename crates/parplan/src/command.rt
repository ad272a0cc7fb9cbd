ghost use Rattle.std.specs.Prelude.{◌≡◌, ◌≤◌, length};
ghost use Rattle.parplan.specs.Commands.{reads_scanned, files_to_scan_of};
ghost use Rattle.parplan.specs.declared.command.PlanFault.TheVariants.{Memory};

use parfield::{Hash16, Sequence, Text};
use parfind::CursorText;
use parshelf::Named;
use std::alloc::AllocError;
use std::convert::AsStr;
use thiserror::Error;

/// The command that the program runs, with its options.
#[derive(Clone, Copy, Debug, PartialEq, Eq)]
pub enum Command {
    /// Lists the packets of the packet files.
    Packets,
    /// Shows the recovery set that the packets describe.
    Set,
    /// Lists the matches in the scanned files: from the cursor on, if there is one (given by the
    /// parts of its text), and at most `limit` of them, which is not 0. If `tails` is set, of a
    /// slice shorter than the others only its own bytes are compared, whatever bytes follow.
    Find {
        limit: Option<u64>,
        cursor: Option<CursorText>,
        tails: bool,
    },
    /// Reports which files and slices of the set are there. If `quiet` is 1, only the last two
    /// lines are printed, and if it is more, nothing is. `tails` is as in `Find`.
    Verify {
        quiet: u8,
        tails: bool,
    },
}

/// Whether a command reads the scanned files.
pub fn reads_scanned(command: Command) -> bool
    ensures { result ≡ reads_scanned command }
{
    match command {
        Command::Packets | Command::Set => false,
        Command::Find { .. } | Command::Verify { .. } => true,
    }
}

/// The plan of a command line: what its arguments ask the program to do.
#[derive(Debug, Drop)]
pub struct Plan {
    /// The command, with its options.
    pub command: Command,
    /// The ID of the only set that is looked at, if one is chosen.
    pub set: Option<Hash16>,
    /// The packet files in order.
    pub packets: Sequence<Text>,
    /// The other files in order.
    pub scanned: Sequence<Scanned>,
}

/// A scanned file: its path, and the name that it is compared by.
#[derive(Debug, Drop)]
pub struct Scanned {
    /// The path: the argument that names the file.
    pub path: Text,
    /// The name that is compared with the names of the files of the set.
    pub name: Text,
}

/// As a text, a scanned file is its path, so it is opened at the path that the argument gives.
impl AsStr for Scanned {
    ghost text = { λ file. file.path };

    fn as_str(&self) -> &str {
        self.path.as_str()
    }
}

/// In the file-list fingerprint, a scanned file has its name, whatever its path is.
impl Named for Scanned {
    ghost name = { λ file. file.name };

    fn name(&self) -> &str {
        self.name.as_str()
    }
}

/// Lends the files that the command scans; none if it reads only packet files.
pub fn files_to_scan(plan: &Plan) -> &[Scanned]
    ensures files { result.now ≡ files_to_scan_of plan.now }
    ensures few { length result.now ≤ length plan.now.scanned }
{
    if reads_scanned(plan.command) {
        plan.scanned.as_slice()
    } else {
        &[]
    }
}

/// Why arguments are not a plan, in the order in which it is tested. `Memory` may
/// come before any other.
///
/// - `Usage`: the arguments are none that a command takes.
/// - `Value`: a value is not of the stated form, or there are too many files.
/// - `NoPacketFile`: no packet file is among the files.
/// - `Memory`: memory was refused.
#[derive(Clone, Copy, Debug, PartialEq, Eq, Error)]
pub enum PlanFault {
    #[error("usage")]
    Usage,
    #[error("bad value")]
    Value,
    #[error("no packet file")]
    NoPacketFile,
    #[error("out of memory")]
    Memory,
}

impl From<AllocError> for PlanFault {
    ghost from_gives = { λ _ e. e ≡ Memory };

    fn from(_e: AllocError) -> PlanFault {
        PlanFault::Memory
    }
}
