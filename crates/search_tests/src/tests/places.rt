// Positions in files.
use parfind::{Cursor, Sighting};

/// A file, an offset in it and a slice, as of a cursor or of a match.
pub type Spot = (u32, u64, u32);

/// The first position.
pub const START: Spot = (0, 0, 0);

/// Returns the cursor at a spot.
pub fn cursor((file, offset, slice): Spot) -> Cursor {
    Cursor {
        file,
        offset,
        slice,
    }
}

/// Returns the match at a spot.
pub fn sighting((file, offset, slice): Spot) -> Sighting {
    Sighting {
        file,
        offset,
        slice,
    }
}
