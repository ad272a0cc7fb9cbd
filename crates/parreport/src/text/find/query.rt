use parfind::CursorText;

/// The options of `find`.
#[derive(Clone, Copy)]
pub(crate) struct Query {
    /// The greatest number of lines, if there is a limit.
    pub limit: Option<u64>,
    /// The place to begin at, with the set and the list of files that the search was over.
    pub cursor: Option<CursorText>,
    /// Whether short slices are found whatever bytes come after them.
    pub tails: bool,
}
