ghost use Rattle.std.specs.Prelude.{◌≡◌};
ghost use Rattle.parreport.specs.Faults.{set_fault_of, scanned_fault_of, start_fault_of, foreign_fault_of};
ghost use Rattle.parreport.specs.declared.faults.RunFault.TheVariants as run_fault;

use parfield::Hash16;
use parfind::{Foreign, StartFault, SurveyFault};
use parset::SetFault;
use parshelf::{Failed, ReadFault};
use std::alloc::AllocError;
use thiserror::Error;

/// Why packets give no recovery set, in the order in which the reasons are tested.
#[derive(Clone, Copy, Debug, PartialEq, Eq)]
pub enum Cause {
    /// There is no usable Main packet, or none of the set that is asked for.
    NoMain,
    /// The least recovery ID that has no usable FileDesc packet.
    NoDesc(Hash16),
    /// The least recovery ID whose name a smaller recovery ID has.
    NameTwice(Hash16),
    /// The files have more than 32,768 slices together.
    TooManySlices,
}

/// Why a run did not write its whole text.
///
/// - `Set`: the packets give no recovery set.
/// - `Read`: a file could not be read: the packet file of this number, if `packet`, or else the
///   scanned file.
/// - `Write`: the output failed, or took no byte.
/// - `Memory`: memory was refused.
/// - `OtherSet`: the cursor is one of a search for the slices of another set; nothing was written.
/// - `OtherList`: the cursor is one of another list of files, which differs in a name, a length or
///   the order; no scanned file was read, and nothing was written.
/// - `TooManyTails`: more than 256 short-slice lengths would be compared; no scanned file was read,
///   and nothing was written.
#[derive(Clone, Copy, Debug, PartialEq, Eq, Error)]
pub enum RunFault {
    #[error("no usable set")]
    Set(Cause),
    #[error("read fault")]
    Read {
        packet: bool,
        file: u32,
        fault: ReadFault,
    },
    #[error("write fault")]
    Write,
    #[error("out of memory")]
    Memory,
    #[error("cursor of another set")]
    OtherSet,
    #[error("cursor of other files")]
    OtherList,
    #[error("no usable set: too many tails")]
    TooManyTails,
}

impl From<AllocError> for RunFault {
    ghost from_gives = { λ _ e. e ≡ run_fault.Memory };

    fn from(_e: AllocError) -> RunFault {
        RunFault::Memory
    }
}

// The sink failed.
impl From<Failed> for RunFault {
    ghost from_gives = { λ _ e. e ≡ run_fault.Write };

    fn from(_e: Failed) -> RunFault {
        RunFault::Write
    }
}

impl From<SetFault> for RunFault {
    ghost from_gives = { λ why e. e ≡ set_fault_of why };

    fn from(why: SetFault) -> RunFault {
        match why {
            SetFault::NoMain => RunFault::Set(Cause::NoMain),
            SetFault::NoDesc(id) => RunFault::Set(Cause::NoDesc(id)),
            SetFault::NameTwice(id) => RunFault::Set(Cause::NameTwice(id)),
            SetFault::TooManySlices => RunFault::Set(Cause::TooManySlices),
            SetFault::Memory => RunFault::Memory,
        }
    }
}

// A survey of the scanned files failed.
impl From<SurveyFault> for RunFault {
    ghost from_gives = { λ why e. e ≡ scanned_fault_of why };

    fn from(why: SurveyFault) -> RunFault {
        match why {
            SurveyFault::Read(file, fault) => RunFault::Read {
                packet: false,
                file,
                fault,
            },
            SurveyFault::Memory => RunFault::Memory,
            SurveyFault::TooManyTails => RunFault::TooManyTails,
        }
    }
}

// The cursor isn't one of the set and the scanned files.
impl From<Foreign> for RunFault {
    ghost from_gives = { λ why e. e ≡ foreign_fault_of why };

    fn from(why: Foreign) -> RunFault {
        match why {
            Foreign::OtherSet => RunFault::OtherSet,
            Foreign::OtherList => RunFault::OtherList,
        }
    }
}

// A search in the scanned files could not be started.
impl From<StartFault> for RunFault {
    ghost from_gives = { λ why e. e ≡ start_fault_of why };

    fn from(why: StartFault) -> RunFault {
        match why {
            StartFault::TooManyTails => RunFault::TooManyTails,
            StartFault::Memory => RunFault::Memory,
        }
    }
}
