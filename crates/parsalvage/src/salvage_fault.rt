ghost use Rattle.std.specs.Prelude.{◌≡◌};
ghost use Rattle.parsalvage.specs.declared.salvage_fault.SalvageFault.TheVariants.{Read, Memory};

use parshelf::ReadFault;
use std::alloc::AllocError;

/// Why a file's packets were not all found.
#[derive(Clone, Copy, Debug, PartialEq, Eq)]
pub enum SalvageFault {
    /// The file could not be read as a whole.
    Read(ReadFault),
    /// Memory was refused.
    Memory,
}

impl From<AllocError> for SalvageFault {
    ghost from_gives = { λ _ e. e ≡ Memory };

    fn from(_e: AllocError) -> SalvageFault {
        SalvageFault::Memory
    }
}

impl From<ReadFault> for SalvageFault {
    ghost from_gives = { λ fault e. e ≡ Read fault };

    fn from(fault: ReadFault) -> SalvageFault {
        SalvageFault::Read(fault)
    }
}
