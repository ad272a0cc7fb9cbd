/// The result of a run without an error.
#[derive(Clone, Copy, Debug, PartialEq, Eq)]
pub enum Status {
    /// `packets`, `set` or `find` has written its text.
    Listed,
    /// Every file of the set is complete.
    Complete,
    /// A file isn't complete, but no more slices are needed than there are recovery slices.
    Possible,
    /// A file isn't complete, and more slices are needed than there are recovery slices.
    Impossible,
}
