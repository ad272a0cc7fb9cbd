ghost use Rattle.std.specs.Prelude.{◌≡◌};

/// The kind of a packet: what it is for, according to the type field of its header.
#[derive(Clone, Copy, Debug, PartialEq, Eq)]
pub enum Kind {
    /// Names the recovery set and its files.
    Main,
    /// Describes one file.
    FileDesc,
    /// Holds the checksums of a file's slices.
    Ifsc,
    /// Holds one recovery slice.
    RecvSlic,
    /// Names the client that made the set.
    Creator,
    /// Any other type field. `of_type` never makes one of the five types an `Other`.
    Other([u8; 16]),
}

impl Kind {
    ghost use Rattle.parfield.specs.Kind.{kind_of};

    /// Returns the kind that a type field names.
    pub fn of_type(field: [u8; 16]) -> Kind
        ensures { result ≡ kind_of field }
    {
        if field == *b"PAR 2.0\0Main\0\0\0\0" {
            Kind::Main
        } else if field == *b"PAR 2.0\0FileDesc" {
            Kind::FileDesc
        } else if field == *b"PAR 2.0\0IFSC\0\0\0\0" {
            Kind::Ifsc
        } else if field == *b"PAR 2.0\0RecvSlic" {
            Kind::RecvSlic
        } else if field == *b"PAR 2.0\0Creator\0" {
            Kind::Creator
        } else {
            Kind::Other(field)
        }
    }
}
