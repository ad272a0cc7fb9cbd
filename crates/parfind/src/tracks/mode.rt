/// How short slices, which have fewer bytes of their file than the slice size, are compared.
#[derive(Clone, Copy, Debug, PartialEq, Eq)]
pub enum Mode {
    /// The whole window is compared, so a short slice is seen only if zeros or the file's end
    /// follow it in the scanned file.
    Plain,
    /// Only the bytes that the slice has of its file are compared, whatever follows them.
    Tails,
}
