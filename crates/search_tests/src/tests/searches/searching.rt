// Calls to a search over files in memory.
ghost use Rattle.std.specs.Prelude.{IfOk};
ghost use Rattle.parshelf.specs.Memory.{shelf_state_of};
ghost use Rattle.parfind.specs.Finders.{BelongsTo};

use crate::tests::fixtures::{
    cursor_of, field, holds, is, is_at_most, is_row, must, part, search_of, step_named,
};
use parfind::{Cursor, Finder, Mode, StartFault, Step};
use parshelf::{MemShelf, ReadFault};
use parwindow::Index;
use std::alloc::Global;
use std::process::Abort;

// A walk is a text with bars between its fields: the files whose slices are searched for, separated
// by commas; the scanned files; the cursor at which the search begins; its steps, separated by
// commas; and the greatest number of bytes that may be read, if that has to be checked. A step has
// spaces between its parts: its budget, or `next`; its result; and the cursor after it, if that has
// to be checked, or after `..=` the greatest cursor that is allowed.

/// Opens a search from a cursor on.
pub fn opened(
    alloc: Global,
    index: &Index,
    shelf: &MemShelf,
    at: Cursor,
    mode: Mode,
) -> Result<Finder, StartFault>
    ensures { IfOk result (λ finder. BelongsTo finder index.now (shelf_state_of shelf.now)) }
{
    Finder::open(alloc, index, shelf, at, mode)
}

// Returns the result of a step with the budget that a text names, or of `next`.
fn gives(
    finder: &mut Finder,
    index: &Index,
    shelf: &mut MemShelf,
    budget: &str,
) -> Result<Step, ReadFault>
    requires { BelongsTo finder.old index.now (shelf_state_of shelf.old) }
    ensures { BelongsTo finder.new index.now (shelf_state_of shelf.new) }
{
    match budget.parse::<u64>() {
        Ok(places) if places > 0 => finder.step(index, shelf, places),
        _ => finder.next(index, shelf),
    }
}

// Checks that a cursor is the one that a text names, or at most the one after `..=`. An empty text
// allows any cursor.
fn stands(rt: &impl Abort, at: Cursor, wanted: &str) {
    if let Some((_, most)) = wanted.split_once("..=") {
        holds(rt, at <= cursor_of(most));
    } else if !wanted.is_empty() {
        is(rt, &at, &cursor_of(wanted));
    }
}

/// Makes the steps of a walk and checks their results.
pub fn steps_give(
    rt: &impl Abort,
    finder: &mut Finder,
    index: &Index,
    shelf: &mut MemShelf,
    steps: &str,
)
    requires { BelongsTo finder.old index.now (shelf_state_of shelf.old) }
{
    for step in steps.split(',') {
        let given = gives(finder, index, shelf, part(step, ' ', 0));
        is(rt, &given, &step_named(part(step, ' ', 1)));
        stands(rt, finder.cursor(), part(step, ' ', 2));
    }
}

/// Makes the steps of a walk over these files and for these slices.
pub fn walks_in(
    rt: &(impl Abort + AllocGlobal),
    index: &Index,
    shelf: &mut MemShelf,
    walk: &str,
    mode: Mode,
) -> Result<(), StartFault> {
    let start = cursor_of(field(walk, 2));
    let mut finder = opened(rt.alloc(), index, &*shelf, start, mode)?;
    steps_give(rt, &mut finder, index, shelf, field(walk, 3));
    is_at_most(rt, shelf.handed(), field(walk, 4));
    Ok(())
}

/// Makes the steps of a walk in its files, which are read `piece` bytes at a time. The read with
/// this number fails; 0 is no read.
pub fn walks(
    rt: &(impl Abort + AllocGlobal),
    walk: &str,
    piece: usize,
    failing: u64,
    mode: Mode,
) -> Result<(), StartFault> {
    let mut search = search_of(rt, walk, piece, &[failing]);
    let walked = walks_in(rt, &search.index, &mut search.shelf, walk, mode);
    drop(search);
    walked
}

/// Makes the steps of each walk of a table.
pub fn walks_each(
    rt: &(impl Abort + AllocGlobal),
    table: &str,
    piece: usize,
    failing: u64,
    mode: Mode,
) {
    for walk in table.lines() {
        if is_row(walk) {
            must(rt, walks(rt, walk, piece, failing, mode));
        }
    }
}
