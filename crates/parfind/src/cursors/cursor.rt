/// A point in a search, after all sightings that are before it by file, then by offset, then by
/// slice.
#[derive(Clone, Copy, Debug, PartialEq, Eq, PartialOrd, Ord)]
pub struct Cursor {
    /// The number of a scanned file; there may be no such file.
    pub file: u32,
    /// An offset in it; it may lie past the file's end.
    pub offset: u64,
    /// The number of a slice in the set; there may be no such slice.
    pub slice: u32,
}
