/// A match: a slice of the set that was seen at an offset of a scanned file.
#[derive(Clone, Copy, Debug, PartialEq, Eq)]
pub struct Sighting {
    /// The number of the scanned file.
    pub file: u32,
    /// The offset in it.
    pub offset: u64,
    /// The number of the slice in the set.
    pub slice: u32,
}
