ghost use Rattle.std.specs.Prelude.{◌≡◌, ◌+◌, ◌<◌, ◌≤◌, ◌++◌, ◌∷◌, ℕ, List, [], All, Contains, IsTrue, IfOk, IfErr, vec_len, vec_capacity};
ghost use Rattle.parshelf.specs.Shelf.{ReadsAs};
ghost use Rattle.parfind.specs.Order.{is_from};
ghost use Rattle.parfind.specs.Steps.{scan_of};
ghost use Rattle.parfind.specs.OnePass.{HandsWithin};
ghost use Rattle.parfind.specs.Points.{search_at};
ghost use Rattle.parfind.specs.Sought.{sought_of};
ghost use Rattle.parfind.specs.Starts.{TellsTails};
ghost use Rattle.parfind.specs.Runs.{HasBudget, CallsGive, AnswersEach};
ghost use Rattle.parfind.specs.AnswersToldOf.{TellsOf};
ghost use Rattle.parfind.specs.declared.drives.calls.Call.TheVariants.{Reopen};

use crate::drives::calls::{Answer, Call, Drive};
use crate::{Cursor, Finder, Mode, StartFault};
use parfield::Sequence;
use parshelf::Shelf;
use parwindow::Index;
use std::alloc::Global;

/// Makes the calls in order, from a cursor on. Memory for all answers and for the first finder is
/// taken before any read. If memory for another finder is refused, no further call is made.
pub fn drive<H: Shelf>(
    alloc: Global,
    calls: &[Call],
    index: &Index,
    shelf: &mut H,
    start: Cursor,
    mode: Mode,
) -> Result<Drive, StartFault>
    requires { All HasBudget calls.now }

    // The answers, the cursor and the shelf, in any files that are consistent with all reads.
    ensures answer { (files : List (List ℕ)) → ReadsAs (H.state shelf.new) files →
        IfOk result (λ drive. CallsGive (scan_of (sought_of index.now mode) files)
        (search_at (H.state shelf.old) start) calls.now drive.answers
        (search_at (H.state shelf.new) drive.cursor)) }

    // Whatever the reads returned.
    ensures each { IfOk result (λ drive. AnswersEach calls.now drive.answers) }
    ensures onward { IfOk result (λ drive. IsTrue (is_from start drive.cursor)) }
    ensures told { IfOk result (λ drive.
        TellsOf (H.state shelf.old) (H.state shelf.new) drive.answers) }
    ensures untouched { IfErr result (λ _. H.state shelf.new ≡ H.state shelf.old) }
    ensures tails { TellsTails (sought_of index.now mode) result }

    // How much is read if no call reopens, whatever the reads returned.
    ensures reads { ¬ Contains calls.now Reopen → IfOk result (λ drive.
        HandsWithin index.now.slice_size
        (search_at (H.state shelf.old) start) (search_at (H.state shelf.new) drive.cursor)) }
{
    let mut finder = Finder::open(alloc, index, shelf, start, mode)?;
    let mut answers = Vec::with_capacity(alloc, calls.len())?;
    for call in calls {
        let answer = match *call {
            Call::Step(budget) => Answer::Step(finder.step(index, shelf, budget)),
            Call::Next => Answer::Step(finder.next(index, shelf)),
            Call::Reopen => {
                let at = finder.cursor();
                // The old finder goes first, so that there are never two windows.
                drop(finder);
                match Finder::open(alloc, index, shelf, at, mode) {
                    Ok(next) => {
                        finder = next;
                        Answer::Reopened
                    }
                    Err(_) => {
                        put(&mut answers, Answer::NoMemory);
                        return Ok(drive_of(answers, at));
                    }
                }
            }
        };
        put(&mut answers, answer);
    }
    Ok(drive_of(answers, finder.cursor()))
}

// Appends an answer, for which there is room.
fn put(answers: &mut Vec<Answer>, answer: Answer)
    requires { vec_len answers.old < vec_capacity answers.old }
    ensures items { answers.new.items ≡ answers.old.items ++ answer ∷ [] }
    ensures len { vec_len answers.new ≡ vec_len answers.old + 1 }
    ensures capacity { vec_capacity answers.old ≤ vec_capacity answers.new }
{
    match answers.push(answer) {
        Ok(()) => {}
        Err(_) => unreachable!(),
    }
}

// Makes the result of a script, given its answers and its last cursor.
fn drive_of(answers: Vec<Answer>, cursor: Cursor) -> Drive
    ensures answers { result.answers ≡ answers.items }
    ensures cursor { result.cursor ≡ cursor }
{
    Drive {
        answers: Sequence::from_vec(answers),
        cursor,
    }
}
