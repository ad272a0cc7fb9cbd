// Fixtures and checks that tests share: rows of tables that are texts, indexes of the slices of
// files, files in memory, and comparisons of values.
ghost use Rattle.std.specs.Prelude.{◌≡◌, Ok};

use crate::tests::places::{Spot, cursor, sighting};
use crate::tests::sets::index_of_files;
use parfind::{Cursor, Step};
use parfixtures::{set_with, shelf_of};
use parset::SetFault;
use parshelf::{MemShelf, ReadFault};
use parwindow::Index;
use std::alloc::{AllocError, Global};
use std::fmt::Debug;
use std::panic::Expect;
use std::process::Abort;

/// Returns the value of a result, or ends the test if it is an error.
pub fn must<T, E: Debug>(rt: &impl Abort, got: Result<T, E>) -> T
    ensures { got ≡ Ok result }
{
    got.expect(rt, "error")
}

/// Ends the test unless the values are equal.
pub fn is<T: Debug + PartialEq>(rt: &impl Abort, got: &T, wanted: &T) {
    assert_eq!(rt; got, wanted);
}

/// Ends the test unless this holds.
pub fn holds(rt: &impl Abort, is_so: bool) {
    assert!(rt; is_so);
}

/// Returns a part of a text that has this character between its parts, or an empty text.
pub fn part(text: &str, between: char, place: usize) -> &str {
    text.split(between).nth(place).unwrap_or("")
}

/// Returns a field of a row that has bars between its fields, or an empty text.
pub fn field(row: &str, place: usize) -> &str {
    part(row, '|', place)
}

/// Whether a line of a table is a row. A line that begins with `#` is a remark on the rows after
/// it.
pub fn is_row(line: &str) -> bool {
    !line.starts_with('#')
}

/// Returns the number that a text names, or 0.
pub fn number_of(text: &str) -> u64 {
    text.parse::<u64>().unwrap_or(0)
}

/// Returns the number that a text names, or 0.
pub fn small_number_of(text: &str) -> u32 {
    text.parse::<u32>().unwrap_or(0)
}

/// Checks that at most the number of bytes that a text names was read. An empty text allows any
/// number.
pub fn is_at_most(rt: &impl Abort, bytes: u64, most: &str) {
    if !most.is_empty() {
        let most = number_of(most);
        is(rt, &bytes.max(most), &most);
    }
}

// Returns the spot that a text names: a file, an offset and a slice, with colons between.
fn spot_of(text: &str) -> Spot {
    (
        small_number_of(part(text, ':', 0)),
        number_of(part(text, ':', 1)),
        small_number_of(part(text, ':', 2)),
    )
}

/// Returns the cursor at a spot that a text names.
pub fn cursor_of(text: &str) -> Cursor {
    cursor(spot_of(text))
}

/// Returns the result of a step by its name: a word, or the spot of a match.
pub fn step_named(text: &str) -> Result<Step, ReadFault> {
    match text {
        "spent" => Ok(Step::Spent),
        "done" => Ok(Step::Done),
        "failed" => Err(ReadFault::Failed),
        "ended" => Err(ReadFault::Ended),
        spot => Ok(Step::Hit(sighting(spot_of(spot)))),
    }
}

// Returns the contents of files that are a text with commas between them. For `-` there are none.
fn files_of(alloc: Global, files: &str) -> Result<Vec<&[u8]>, AllocError> {
    let mut all = Vec::new(alloc);
    if files != "-" {
        for file in files.split(',') {
            all.push(file.as_bytes())?;
        }
    }
    Ok(all)
}

/// Returns a shelf of the files of such a text. A read gives at most `piece` bytes, and the reads
/// with these numbers, counted from 1, fail.
pub fn files_in(
    alloc: Global,
    files: &str,
    piece: usize,
    failing: &[u64],
) -> Result<MemShelf, AllocError> {
    let all = files_of(alloc, files)?;
    shelf_of(alloc, &all, piece, failing)
}

/// Returns a file of this length: these bytes, followed by `x`.
pub fn long_file(rt: &(impl Abort + AllocGlobal), front: &[u8], length: usize) -> Vec<u8> {
    let mut bytes = must(rt, Vec::from_slice(rt.alloc(), front));
    must(rt, bytes.resize(length, b'x'));
    bytes
}

/// Returns an index of the slices of a file of this length, of four bytes each, with these
/// checksums if their number is right.
pub fn index_with(alloc: Global, length: u64, pairs: &[u8]) -> Result<Index, SetFault> {
    let set = set_with(alloc, length, pairs)?;
    Ok(Index::new(alloc, &set)?)
}

/// Returns an index of the slices of the files of such a text, of four bytes each, with known
/// checksums.
pub fn index_of(alloc: Global, files: &str) -> Result<Index, SetFault> {
    let all = files_of(alloc, files)?;
    index_of_files(alloc, 4, &all)
}

/// The slices that are searched for, and the scanned files. A function that has one, or an index,
/// ends it by `drop`. If a scope ends it, the drop of each of its parts is proved there again.
#[derive(Drop)]
pub struct Search {
    pub index: Index,
    pub shelf: MemShelf,
}

/// Returns the search of a row, for the slices of the files in its first field and over the files
/// in its second. A read gives at most `piece` bytes, and the reads with these numbers fail.
pub fn search_of(
    rt: &(impl Abort + AllocGlobal),
    row: &str,
    piece: usize,
    failing: &[u64],
) -> Search {
    Search {
        index: must(rt, index_of(rt.alloc(), field(row, 0))),
        shelf: must(rt, files_in(rt.alloc(), field(row, 1), piece, failing)),
    }
}
