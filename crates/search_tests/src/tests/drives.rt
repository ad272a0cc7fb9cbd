// Scripts of calls to a search, and their results.
ghost use Rattle.std.specs.Prelude.{All, IfOk};
ghost use Rattle.parfind.specs.Runs.{HasBudget};

mod disk;
mod refused;

use crate::tests::fixtures::{cursor_of, field, is, must, number_of, part, search_of, step_named};
use crate::tests::places::{START, cursor};
use crate::tests::sets::index_of_files;
use parfind::{Answer, Call, Cursor, Mode, drive};
use parfixtures::file_of;
use parshelf::Shelf;
use parwindow::Index;
use std::alloc::{AllocError, Global};
use std::process::Abort;

// A script has commas between its calls. A call is the budget of a step, `next` or `reopen`, a
// space, and its result.

// Returns the call that a text names.
fn call_of(text: &str) -> Call
    ensures { HasBudget result }
{
    let call = part(text, ' ', 0);
    match call.parse::<u64>() {
        Ok(budget) if budget > 0 => Call::Step(budget),
        _ if call == "reopen" => Call::Reopen,
        _ => Call::Next,
    }
}

// Returns the calls of a script. An empty one has none.
fn calls_of(alloc: Global, script: &str) -> Result<Vec<Call>, AllocError>
    ensures { IfOk result (λ calls. All HasBudget calls.items) }
{
    let mut calls = Vec::new(alloc);
    if !script.is_empty() {
        for call in script.split(',') {
            calls.push(call_of(call))?;
        }
    }
    Ok(calls)
}

// Returns the result of a call.
fn answer_of(text: &str) -> Answer {
    match part(text, ' ', 1) {
        "reopened" => Answer::Reopened,
        step => Answer::Step(step_named(step)),
    }
}

// Checks these results, which are those of the first calls of a script.
fn are_told(rt: &impl Abort, answers: &[Answer], script: &str) {
    let mut calls = script.split(',');
    for answer in answers {
        is(rt, answer, &answer_of(calls.next().unwrap_or("")));
    }
}

/// Makes the calls of a script over files and checks their results. Returns the cursor after them.
pub fn driven<H: Shelf>(
    rt: &(impl Abort + AllocGlobal),
    index: &Index,
    shelf: &mut H,
    start: Cursor,
    mode: Mode,
    script: &str,
) -> Cursor {
    let calls = must(rt, calls_of(rt.alloc(), script));
    let done = must(rt, drive(rt.alloc(), &calls, index, shelf, start, mode));
    are_told(rt, done.answers.as_slice(), script);
    is(rt, &done.answers.len(), &calls.len());
    done.cursor
}

// A row has bars between its fields: the files whose slices are searched for, separated by commas;
// the scanned files; the cursor at which the search begins; the cursor at its end; the script; and
// the number of bytes read, if that has to be checked.

// Makes the calls of a row, and checks what it says. A read gives at most `piece` bytes, and some
// reads fail.
fn drives(rt: &(impl Abort + AllocGlobal), row: &str, piece: usize, failing: &[u64], mode: Mode) {
    let mut search = search_of(rt, row, piece, failing);
    let (index, shelf) = (&search.index, &mut search.shelf);
    let start = cursor_of(field(row, 2));
    let end = driven(rt, index, shelf, start, mode, field(row, 4));
    is(rt, &end, &cursor_of(field(row, 3)));
    if !field(row, 5).is_empty() {
        is(rt, &search.shelf.handed(), &number_of(field(row, 5)));
    }
    drop(search);
}

// Reads that fail, and rows whose files are read byte by byte.
static SCRIPTS: [(&[u64], &str); 5] = [
    (
        &[2, 3],
        "\0\0\0\0\0\0\0\0|\0\0\0\0\0\0|0:0:0|1:0:0|next failed,reopen reopened,next failed,\
        reopen reopened,next 0:0:0,next 0:0:1,next 0:1:0,next 0:1:1,next 0:2:0,next 0:2:1,next done",
    ),
    (
        &[],
        "\0\0\0\0\0\0\0\0|\0\0\0\0\0\0|0:0:0|1:0:0|next 0:0:0,reopen reopened,next 0:0:1,\
        reopen reopened,next 0:1:0,reopen reopened,next 0:1:1,reopen reopened,next 0:2:0,\
        reopen reopened,next 0:2:1,reopen reopened,next done,reopen reopened",
    ),
    (
        &[],
        "\0\0\0\0\0\0\0\0|\0\0\0\0\0\0|7:0:0|7:0:0|1 done,reopen reopened,next done",
    ),
    (&[1], "\0\0\0\0\0\0\0\0|\0\0\0\0\0\0|0:3:1|0:3:1|"),
    // A call that failed isn't repeated in place of the next one.
    (
        &[1],
        "\0\0\0\0\0\0\0\0|\0\0\0\0\0\0|0:0:0|0:0:1|next failed,next 0:0:0",
    ),
];

#[test]
fn a_fault_is_the_answer_of_the_call_that_met_it(rt: HostRuntime) {
    for (failing, row) in &SCRIPTS {
        drives(&rt, row, 1, failing, Mode::Plain);
    }
}

// The first slice ends with the sixth byte, and the second one with the tenth.
static FAULT_FIRST: &str =
    "abcdefgh|XXabcdefgh|0:0:0|1:0:0|next failed,next 0:2:0,next 0:6:1,next done";

static FAULT_SECOND: &str =
    "abcdefgh|XXabcdefgh|0:0:0|1:0:0|next 0:2:0,next failed,next 0:6:1,next done";

#[test]
fn each_read_that_fails_is_told_once(rt: HostRuntime) {
    for failing in 1..11 {
        let row = if failing < 7 {
            FAULT_FIRST
        } else {
            FAULT_SECOND
        };
        drives(&rt, row, 1, &[failing], Mode::Plain);
    }
}

// Searches for short slices by their own bytes. The fifth byte is the last of a short slice.
static SHORT: [(&[u64], &str); 3] = [
    (
        &[],
        "ab,abcd,a|abcd|0:0:0|1:0:0|next 0:0:0,reopen reopened,next 0:0:1,reopen reopened,\
        next 0:0:2,reopen reopened,next done|16",
    ),
    (
        &[5],
        "abcdef|Xefabcd|0:0:0|1:0:0|next failed,next 0:1:1,reopen reopened,next 0:3:0,next done",
    ),
    (
        &[6],
        "abcdef|Xefabcd|0:0:0|1:0:0|next 0:1:1,next failed,reopen reopened,next 0:3:0,next done",
    ),
];

#[test]
fn a_search_that_is_opened_again_keeps_its_mode(rt: HostRuntime) {
    for (failing, row) in &SHORT {
        drives(&rt, row, 1, failing, Mode::Tails);
    }
}

// The window is dropped with its finder, and the next finder reads the bytes of the window again.
// The call `next` drops no finder, so nothing is read twice.
static REOPENED: &str = "abcdefgh|XXabcdefgh|0:0:0|0:6:2|next 0:2:0,reopen reopened,next 0:6:1|18";

static REOPENED_LAST: &str =
    "abcdefgh|XXabcdefgh|0:0:0|0:6:2|next 0:2:0,next 0:6:1,reopen reopened|10";

#[test]
fn a_reopening_reads_its_window_again(rt: HostRuntime) {
    drives(&rt, REOPENED, 64, &[], Mode::Plain);
    drives(&rt, REOPENED_LAST, 64, &[], Mode::Plain);
}

// If memory is limited to one and a half windows, this test shows that a reopening drops the window
// first.
#[test]
fn a_reopening_holds_one_window(rt: HostRuntime) {
    let index = must(&rt, index_of_files(rt.alloc(), 4_194_304, &[b"abcd"]));
    let mut shelf = must(&rt, file_of(rt.alloc(), b"abcd", 4, &[]));
    let start = cursor(START);
    let script = "reopen reopened,reopen reopened";
    let end = driven(&rt, &index, &mut shelf, start, Mode::Plain, script);
    drop(index);
    is(&rt, &end, &start);
}
