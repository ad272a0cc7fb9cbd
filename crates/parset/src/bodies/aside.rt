ghost use Rattle.std.specs.Prelude.{◌≡◌};

use std::alloc::AllocError;

/// Why a packet body is not usable.
#[derive(Clone, Copy, Debug, PartialEq, Eq)]
pub enum Aside {
    /// The body has too few bytes or too many, or ends within a field.
    WrongLength = 1,
    /// The slice size is 0 or not a multiple of 4.
    SliceSize = 2,
    /// A file ID is listed twice.
    IdTwice = 3,
    /// The MD5 of the body is not the recovery set ID.
    SetId = 4,
    /// The name is empty or too long, or has a zero byte inside.
    Name = 5,
    /// A length, a number or a count is above a limit of this library.
    OverLimit = 7,
}

impl Aside {
    ghost use Rattle.parset.specs.Reasons.{reason_number};

    /// Returns the number by which the reason is printed.
    pub fn number(self) -> u8
        ensures { result ≡ reason_number self }
    {
        self as u8
    }
}

/// Why a body reader returns no fields.
#[derive(Clone, Copy, Debug, PartialEq, Eq)]
pub enum BodyFault {
    /// The body is not usable. This is the first reason that applies.
    Aside(Aside),
    /// Memory was refused: for the fields of a usable body, or for the search for an ID
    /// that is listed twice.
    Memory,
}

impl From<AllocError> for BodyFault {
    ghost use Rattle.parset.specs.declared.bodies.aside.BodyFault.TheVariants as faults;

    ghost from_gives = { λ _ fault. fault ≡ faults.Memory };

    fn from(_error: AllocError) -> BodyFault {
        BodyFault::Memory
    }
}

impl From<Aside> for BodyFault {
    ghost use Rattle.parset.specs.declared.bodies.aside.BodyFault.TheVariants as faults;

    ghost from_gives = { λ reason fault. fault ≡ faults.Aside reason };

    fn from(reason: Aside) -> BodyFault {
        BodyFault::Aside(reason)
    }
}
