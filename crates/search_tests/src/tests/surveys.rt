// The slices that a survey finds.
ghost use Rattle.std.specs.Prelude.{◌≡◌, length};

mod finding;
mod tails;

use crate::tests::fixtures::{field, is, is_at_most, is_row, must, search_of, small_number_of};
use parfind::{Mode, SurveyFault, survey, survey_in};
use parshelf::{MemShelf, ReadFault};
use parwindow::{Index, Window};
use std::alloc::AllocError;
use std::process::Abort;

// A row has bars between its fields: the files whose slices are searched for, separated by commas;
// the scanned files, or `-` for none; the slices that are found before the survey, and after it,
// with a plus or a minus for each; the number of the file whose read fails, if one does; and the
// greatest number of bytes that may be read, if that has to be checked.

// Returns the result of a survey in which a read of the file with this number fails. An empty text
// means that none fails.
fn answer_named(file: &str) -> Result<(), SurveyFault> {
    if file.is_empty() {
        return Ok(());
    }
    Err(SurveyFault::Read(small_number_of(file), ReadFault::Failed))
}

// Returns for each of the first four places of a text whether there is a plus.
fn marks_of(marks: &str) -> [bool; 4] {
    let mut found = [false; 4];
    for place in 0..4 {
        found[place] = marks.as_bytes().get(place) == Some(&b'+');
    }
    found
}

// Which window a survey uses: one that it makes, or one that was used before and fits both modes.
#[derive(Clone, Copy)]
pub enum In {
    OwnWindow,
    UsedWindow,
}

// Surveys in a window that was used before.
fn surveyed_in(
    rt: &(impl Abort + AllocGlobal),
    index: &Index,
    shelf: &mut MemShelf,
    found: &mut [bool],
    mode: Mode,
) -> Result<(), SurveyFault>
    requires { length found.old ≡ length index.now.slices }
{
    let (size, tails) = (index.size() as usize, index.tail_lengths());
    assert!(rt; tails.len() <= 256);
    let mut window = must(rt, Window::with_tails(rt.alloc(), size, tails));
    let _ = window.push(b'a');
    Ok(survey_in(index, shelf, &mut window, found, mode)?)
}

// Surveys files for the slices of an index, of which some are found already.
fn surveyed(
    rt: &(impl Abort + AllocGlobal),
    index: &Index,
    shelf: &mut MemShelf,
    found: &mut [bool],
    way: In,
    mode: Mode,
) -> Result<(), SurveyFault> {
    assert!(rt; found.len() == index.slices() as usize);
    match way {
        In::OwnWindow => survey(rt.alloc(), index, shelf, found, mode),
        In::UsedWindow => surveyed_in(rt, index, shelf, found, mode),
    }
}

/// Surveys files for the slices of an index, and checks what the row says.
pub fn survey_finds(
    rt: &(impl Abort + AllocGlobal),
    index: &Index,
    shelf: &mut MemShelf,
    row: &str,
    way: In,
    mode: Mode,
) -> Result<(), AllocError> {
    let mut marks = marks_of(field(row, 2));
    let count = field(row, 2).len().min(4);
    let answer = surveyed(rt, index, shelf, &mut marks[..count], way, mode);
    if answer == Err(SurveyFault::Memory) {
        return Err(AllocError);
    }
    is(rt, &answer, &answer_named(field(row, 4)));
    is(rt, &marks, &marks_of(field(row, 3)));
    is_at_most(rt, shelf.handed(), field(row, 5));
    Ok(())
}

/// Surveys the files of a row, which are read `piece` bytes at a time. The read with this number
/// fails; 0 is no read.
pub fn surveys(
    rt: &(impl Abort + AllocGlobal),
    row: &str,
    piece: usize,
    failing: u64,
    way: In,
    mode: Mode,
) -> Result<(), AllocError> {
    let mut search = search_of(rt, row, piece, &[failing]);
    let surveyed = survey_finds(rt, &search.index, &mut search.shelf, row, way, mode);
    drop(search);
    surveyed
}

/// Surveys by each row of a table, in pieces of one byte and of many.
pub fn surveys_each(rt: &(impl Abort + AllocGlobal), table: &str, way: In, mode: Mode) {
    for row in table.lines() {
        if is_row(row) {
            must(rt, surveys(rt, row, 1, 0, way, mode));
            must(rt, surveys(rt, row, 64, 0, way, mode));
        }
    }
}
