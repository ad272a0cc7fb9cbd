ghost use Rattle.std.specs.Prelude.{◌≡◌};
ghost use Rattle.parfind.specs.declared.searches.start_fault.StartFault.TheVariants.{Memory};

use std::alloc::AllocError;

/// Why a search can't be started, in the order in which the reasons are tested.
#[derive(Clone, Copy, Debug, PartialEq, Eq)]
pub enum StartFault {
    /// More than 256 short-slice lengths would be compared.
    TooManyTails,
    /// Memory was refused.
    Memory,
}

impl From<AllocError> for StartFault {
    ghost from_gives = { λ _ fault. fault ≡ Memory };

    fn from(_error: AllocError) -> StartFault {
        StartFault::Memory
    }
}
