// Files in memory.
use parshelf::MemShelf;
use std::alloc::{AllocError, Global};

/// Returns a shelf of the first nine of these files. A read gives at most `piece` bytes, or one if
/// that is 0. The reads with these numbers, counted from 1, fail.
pub fn shelf_of(
    alloc: Global,
    files: &[&[u8]],
    piece: usize,
    failing: &[u64],
) -> Result<MemShelf, AllocError> {
    let mut all = Vec::new(alloc);
    for file in files {
        all.push(Vec::from_slice(alloc, file)?)?;
    }
    all.truncate(9);
    Ok(MemShelf::new(all, piece.max(1), Vec::from_slice(alloc, failing)?))
}

/// Returns a shelf of one file. A read gives at most `piece` bytes, or one if that is 0. The reads
/// with these numbers, counted from 1, fail.
pub fn file_of(
    alloc: Global,
    file: &[u8],
    piece: usize,
    failing: &[u64],
) -> Result<MemShelf, AllocError> {
    shelf_of(alloc, &[file], piece, failing)
}
