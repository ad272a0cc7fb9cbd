// Scripts of calls that are refused memory, and what they leave.
use crate::tests::drives::{are_told, call_of, calls_of, driven};
use crate::tests::fixtures::{cursor_of, index_of, is, part};
use crate::tests::places::{START, Spot, cursor};
use parfind::{Answer, Call, Drive, Mode, drive};
use parfixtures::file_of;
use parshelf::MemShelf;
use parwindow::Index;
use std::panic::Expect;
use std::process::Abort;
use std::test::Fail;

// Calls, and their results if no memory is refused. The call after a reopening finds a match at the
// cursor of that reopening.
static UNDISTURBED: &str = "next failed,reopen reopened,next 0:0:0,reopen reopened,2 0:0:1,\
    1 spent,reopen reopened,next 0:1:0";

static REOPENED_FIRST: &str = "reopen reopened,next 0:0:0";

// Returns a script without this number of calls at its front.
fn rest_of(script: &str, count: usize) -> &str {
    let mut rest = script;
    for _ in 0..count {
        rest = match rest.split_once(',') {
            Some((_, behind)) => behind,
            None => "",
        };
    }
    rest
}

// Checks the results up to a reopening that was refused memory, and the cursor, at which the next
// call finds a match. Another search from there finds what the script has then.
fn goes_on(
    rt: &(impl Abort + AllocGlobal),
    done: &Drive,
    index: &Index,
    shelf: &mut MemShelf,
    script: &str,
    end: Spot,
) {
    let (last, before) = done.answers.as_slice().split_last().expect(rt, "no answer");
    is(rt, last, &Answer::NoMemory);
    are_told(rt, before, script);
    is(rt, &call_of(part(script, ',', before.len())), &Call::Reopen);
    let rest = rest_of(script, done.answers.len());
    is(
        rt,
        &done.cursor,
        &cursor_of(part(part(rest, ',', 0), ' ', 1)),
    );
    let at = driven(rt, index, shelf, done.cursor, Mode::Plain, rest);
    is(rt, &at, &cursor(end));
}

// Checks the results of calls, one of which may be a reopening that was refused memory.
fn came_to(
    rt: &(impl Abort + AllocGlobal),
    done: &Drive,
    index: &Index,
    shelf: &mut MemShelf,
    script: &str,
    end: Spot,
) -> Result<(), Fail> {
    let handed = shelf.handed();
    if done.answers.as_slice().last() != Some(&Answer::NoMemory) {
        are_told(rt, done.answers.as_slice(), script);
        is(rt, &rest_of(script, done.answers.len()), &"");
        is(rt, &done.cursor, &cursor(end));
        return Ok(());
    }
    goes_on(rt, done, index, shelf, script, end);
    if done.answers.len() == 1 {
        is(rt, &handed, &0);
        return Err("NoMemory told at a first reopening".into());
    }
    Err("NoMemory told at a reopening".into())
}

// Makes the calls of a script. If memory was refused before the first, nothing was read by then, so
// a read that has to fail still fails when they are made again.
fn comes_to(
    rt: &(impl Abort + AllocGlobal),
    index: &Index,
    shelf: &mut MemShelf,
    script: &str,
    end: Spot,
) -> Result<(), Fail> {
    let calls = calls_of(rt.alloc(), script)?;
    let start = cursor(START);
    match drive(rt.alloc(), &calls, index, shelf, start, Mode::Plain) {
        Ok(done) => came_to(rt, &done, index, shelf, script, end),
        Err(_) => {
            is(rt, &shelf.handed(), &0);
            let at = driven(rt, index, shelf, start, Mode::Plain, script);
            is(rt, &at, &cursor(end));
            Err("OutOfMemory before the first call".into())
        }
    }
}

// Makes them in six zeros, for two slices of zeros.
fn searches_zeros(
    rt: &(impl Abort + AllocGlobal),
    failing: u64,
    script: &str,
    end: Spot,
) -> Result<(), Fail> {
    let mut shelf = file_of(rt.alloc(), &[0; 6], 1, &[failing])?;
    let index = index_of(rt.alloc(), "\0\0\0\0\0\0\0\0")?;
    let came = comes_to(rt, &index, &mut shelf, script, end);
    drop(index);
    came
}

// The first read of one search fails, and another one is reopened before anything is read. If
// memory is refused, the test ends with an error, after it has checked what was left.
// `tools/checks/refused_tests.sh` refuses the memory.
#[test]
fn refused_memory_is_told_where_it_is_wanted(rt: HostRuntime) -> Result<(), Fail> {
    searches_zeros(&rt, 1, UNDISTURBED, (0, 1, 1))?;
    searches_zeros(&rt, 0, REOPENED_FIRST, (0, 0, 1))
}
