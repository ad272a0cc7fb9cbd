// Searches for slices of 256 unpadded lengths, which are allowed, and of one length more.
use crate::tests::fixtures::{holds, is, long_file, must};
use crate::tests::places::{START, cursor};
use crate::tests::searches::searching::{opened, steps_give};
use crate::tests::sets::index_of_files;
use parfind::{Call, Mode, StartFault, SurveyFault, drive, survey, survey_in};
use parfixtures::{file_of, joined};
use parshelf::MemShelf;
use parwindow::{Index, Window};
use std::alloc::{AllocError, Global};
use std::process::Abort;
use std::test::Fail;

// The slice size.
const SIZE: usize = 260;

// Returns 257 files: the first of these bytes, the first two of them, and so on up to 256, and then
// the first `last`.
fn files_of(alloc: Global, bytes: &[u8], last: usize) -> Result<Vec<&[u8]>, AllocError> {
    let mut files = Vec::new(alloc);
    for length in 1..=256 {
        files.push(bytes.get(..length).unwrap_or(&[]))?;
    }
    files.push(bytes.get(..last).unwrap_or(&[]))?;
    Ok(files)
}

// Returns an index of the slices of these 257 files. Their bytes are a `b` and then `x`.
fn index_with_last(rt: &(impl Abort + AllocGlobal), last: usize) -> Index {
    let bytes = long_file(rt, b"b", SIZE);
    let files = must(rt, files_of(rt.alloc(), &bytes, last));
    must(rt, index_of_files(rt.alloc(), SIZE, &files))
}

// Returns a file of two other bytes, the longest of those files with 256 bytes, and another byte.
fn file_with_all(rt: &(impl Abort + AllocGlobal)) -> MemShelf {
    let bytes = long_file(rt, b"XYb", 258);
    let file = must(rt, joined(rt.alloc(), &[&bytes, b"X"]));
    must(rt, file_of(rt.alloc(), &file, 64, &[]))
}

// Returns the steps that find each of 256 slices, and then no further one.
fn all_found(alloc: Global) -> Result<String, AllocError> {
    let mut text = String::new(alloc);
    for number in 0..256 {
        text.push_str(&format!(in alloc; "next 0:2:{number},")?)?;
    }
    text.push_str("next done")?;
    Ok(text)
}

// Whether memory is refused from now on, as `tools/checks/refused_tests.sh` does it. This allocates
// often enough to meet the refusal.
fn is_refused(alloc: Global) -> bool {
    for _ in 0..200 {
        if Vec::<u8>::with_capacity(alloc, 64).is_err() {
            return true;
        }
    }
    false
}

// Ends a test that passed although memory was refused, so that the check sees that.
fn told(refused: bool, what: &'static str) -> Result<(), Fail> {
    if refused {
        return Err(what.into());
    }
    Ok(())
}

// Finds all slices at one position, also if memory is refused once the search is open. Returns
// whether it was.
fn finds_all(rt: &(impl Abort + AllocGlobal), index: &Index, shelf: &mut MemShelf) -> bool {
    let steps = must(rt, all_found(rt.alloc()));
    let at = cursor(START);
    let mut finder = must(rt, opened(rt.alloc(), index, &*shelf, at, Mode::Tails));
    let refused = is_refused(rt.alloc());
    steps_give(rt, &mut finder, index, shelf, &steps);
    is(rt, &shelf.handed(), &259);
    refused
}

#[test]
fn a_search_for_256_lengths_takes_no_memory_once_it_is_open(rt: HostRuntime) -> Result<(), Fail> {
    let index = index_with_last(&rt, 0);
    let refused = finds_all(&rt, &index, &mut file_with_all(&rt));
    drop(index);
    told(refused, "all found without Memory")
}

// Surveys with no slice to find, and checks that nothing is read.
fn finds_none(rt: &(impl Abort + AllocGlobal), index: &Index, shelf: &mut MemShelf) {
    assert!(rt; index.slices() == 256);
    let (mut marks, handed) = ([true; 256], shelf.handed());
    let marked = survey(rt.alloc(), index, shelf, &mut marks, Mode::Tails);
    is(rt, &marked, &Ok(()));
    is(rt, &shelf.handed(), &handed);
}

// Finds all slices, and then those that are left, also if memory is refused once there is a window.
// Returns whether it was.
fn marks_all(
    rt: &(impl Abort + AllocGlobal),
    index: &Index,
    shelf: &mut MemShelf,
) -> Result<bool, AllocError> {
    let (size, tails) = (index.size() as usize, index.tail_lengths());
    assert!(rt; tails.len() <= 256 && index.slices() == 256);
    let mut window = Window::with_tails(rt.alloc(), size, tails)?;
    let mut marks = [false; 256];
    let refused = is_refused(rt.alloc());
    let marked = survey_in(index, shelf, &mut window, &mut marks, Mode::Tails);
    is(rt, &marked, &Ok(()));
    holds(rt, !marks.contains(&false));
    finds_none(rt, index, shelf);
    Ok(refused)
}

#[test]
fn a_survey_for_256_lengths_takes_no_memory_once_it_has_a_window(
    rt: HostRuntime,
) -> Result<(), Fail> {
    let index = index_with_last(&rt, 0);
    let refused = marks_all(&rt, &index, &mut file_with_all(&rt))?;
    drop(index);
    told(refused, "all marked without Memory")
}

// Opens a search over an empty file. Returns why it can't be opened, if so.
fn opens(rt: &(impl Abort + AllocGlobal), last: usize, mode: Mode) -> Option<StartFault> {
    let index = index_with_last(rt, last);
    let shelf = must(rt, file_of(rt.alloc(), b"", 1, &[]));
    let fault = opened(rt.alloc(), &index, &shelf, cursor(START), mode).err();
    drop(index);
    fault
}

// The number of bytes of the last file, the mode, and why a search can't be opened. A slice with
// another unpadded length than the first 256 makes one length too many. A slice with one of these
// lengths doesn't, and a slice without padding doesn't either.
static LASTS: [(usize, Mode, Option<StartFault>); 5] = [
    (0, Mode::Tails, None),
    (256, Mode::Tails, None),
    (SIZE, Mode::Tails, None),
    (257, Mode::Plain, None),
    (257, Mode::Tails, Some(StartFault::TooManyTails)),
];

#[test]
fn a_search_opens_for_256_lengths(rt: HostRuntime) {
    for (last, mode, fault) in &LASTS {
        is(&rt, &opens(&rt, *last, *mode), fault);
    }
}

// Surveys for slices with too many lengths, and checks that none is found.
fn surveys_none(rt: &(impl Abort + AllocGlobal), index: &Index, shelf: &mut MemShelf) {
    assert!(rt; index.slices() == 257);
    let mut marks = [false; 257];
    let fault = survey(rt.alloc(), index, shelf, &mut marks, Mode::Tails);
    is(rt, &fault, &Err(SurveyFault::TooManyTails));
    holds(rt, !marks.contains(&true));
}

// Checks that each way to search reports too many lengths, and reads nothing.
fn says_too_many(rt: &(impl Abort + AllocGlobal), index: &Index, shelf: &mut MemShelf) {
    let (start, too_many) = (cursor(START), Some(StartFault::TooManyTails));
    let fault = opened(rt.alloc(), index, &*shelf, start, Mode::Tails).err();
    is(rt, &fault, &too_many);
    let done = drive(rt.alloc(), &[Call::Next], index, shelf, start, Mode::Tails);
    is(rt, &done.err(), &too_many);
    surveys_none(rt, index, shelf);
    is(rt, &shelf.handed(), &0);
}

#[test]
fn too_many_lengths_are_told_without_memory(rt: HostRuntime) -> Result<(), Fail> {
    let index = index_with_last(&rt, 257);
    let mut shelf = file_with_all(&rt);
    let refused = is_refused(rt.alloc());
    says_too_many(&rt, &index, &mut shelf);
    drop(index);
    told(refused, "too many lengths told without Memory")
}
