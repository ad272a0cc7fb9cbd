ghost use Rattle.std.specs.Prelude.{◌≡◌, ◌≢◌, ℕ, List, length, true, IfErr, Some};
ghost use Rattle.parshelf.specs.Shelf.{ReadsAs};
ghost use Rattle.parfind.specs.Finders.{BelongsTo};
ghost use Rattle.parfind.specs.OnePass.{room_of};
ghost use Rattle.parfind.specs.Places.{place_at};
ghost use Rattle.parwindow.specs.Index.{slice_set_of};
ghost use Rattle.parshelf.specs.Reads.{HandsPerFile};
ghost use Rattle.parreport.specs.Faults.{listing_of, IsFindFault, IsSearchFault, OnScannedFault};
ghost use Rattle.parreport.specs.SetSearch.{mode_of, has_too_many_tails, set_sought_of};
ghost use Rattle.parreport.specs.declared.faults.RunFault.TheVariants as run_fault;
ghost use Rattle.parreport.specs.FindText.{find_text, limit_left, find_search_of, WritesLinesBefore};
ghost use Rattle.parreport.specs.Outcomes.{Answers, TellsScanned, LeavesSink};
ghost use Rattle.parreport.specs.Report.{listed, search_report};

use crate::faults::RunFault;
use crate::modes::mode_of;
use crate::text::find::lines::{write_cursor, write_end, write_sighting};
use crate::text::find::query::Query;
use parfind::{Cursor, Finder, Step};
use parplan::Scanned;
use parset::RecoverySet;
use parshelf::{Shelf, Sink, list_mark};
use parwindow::Index;
use std::alloc::Global;

/// Writes a line for each sighting from a cursor on, each before the next is looked for; then
/// `end`, or, if the limit is reached, the cursor to continue from.
pub fn write_sightings<Q: Shelf, W: Sink>(
    alloc: Global,
    files: &[Scanned],
    set: &RecoverySet,
    at: Cursor,
    query: Query,
    shelf: &mut Q,
    out: &mut W,
) -> Result<(), RunFault>
    requires limit { query.limit ≢ Some 0 }
    requires scanned { length (Q.state shelf.old).lengths ≡ length files.now }

    // The text is that of any files that are consistent with the reads.
    ensures text { (contents : List (List ℕ)) → ReadsAs (Q.state shelf.new) contents
        → Answers (search_report (find_search_of files.now contents set.now at query))
        (listing_of result) (W.state out.old) (W.state out.new) }
    ensures lines { (contents : List (List ℕ)) → ReadsAs (Q.state shelf.new) contents
        → IfErr result (OnScannedFault (λ file.
        WritesLinesBefore (find_search_of files.now contents set.now at query)
        file (W.state out.old) (W.state out.new))) }

    // Whatever the reads returned: the result says what failed.
    ensures fault { IfErr result IsFindFault }
    ensures unopened { IfErr result (λ fault. fault ≡ run_fault.TooManyTails
        → W.state out.new ≡ W.state out.old) }
    ensures reads { TellsScanned (listing_of result) (Q.state shelf.old) (Q.state shelf.new) }
    ensures too_many { has_too_many_tails (set_sought_of set.now (mode_of query.tails)) ≡ true
        → Q.state shelf.new ≡ Q.state shelf.old }
    ensures handed { HandsPerFile (room_of (Q.state shelf.old).lengths at)
        (Q.state shelf.old) (Q.state shelf.new) }
    ensures sink { LeavesSink (listing_of result) (W.state out.old) (W.state out.new) }
{
    let index = Index::new(alloc, set)?;
    let mut finder = Finder::open(alloc, &index, shelf, at, mode_of(query.tails))?;
    write_from(alloc, files, set, &index, &mut finder, query, shelf, out)
}

// Writes these lines, from a finder's cursor on.
fn write_from<Q: Shelf, W: Sink>(
    alloc: Global,
    files: &[Scanned],
    set: &RecoverySet,
    index: &Index,
    finder: &mut Finder,
    query: Query,
    shelf: &mut Q,
    out: &mut W,
) -> Result<(), RunFault>
    requires limit { query.limit ≢ Some 0 }
    requires scanned { length (Q.state shelf.old).lengths ≡ length files.now }
    requires index { index.now ≡ slice_set_of set.now.size set.now.slices }
    requires belongs { BelongsTo finder.old index.now (Q.state shelf.old) }
    requires mode { finder.old.mode ≡ mode_of query.tails }
    requires fetched { finder.old.fetched ≡ place_at finder.old.cursor }

    ensures text { (contents : List (List ℕ)) → ReadsAs (Q.state shelf.new) contents
        → Answers (listed (find_text
        (find_search_of files.now contents set.now finder.old.cursor query)))
        (listing_of result) (W.state out.old) (W.state out.new) }
    ensures lines { (contents : List (List ℕ)) → ReadsAs (Q.state shelf.new) contents
        → IfErr result (OnScannedFault (λ file.
        WritesLinesBefore (find_search_of files.now contents set.now finder.old.cursor query)
        file (W.state out.old) (W.state out.new))) }
    ensures fault { IfErr result IsSearchFault }
    ensures reads { TellsScanned (listing_of result) (Q.state shelf.old) (Q.state shelf.new) }
    ensures handed { HandsPerFile (room_of (Q.state shelf.old).lengths finder.old.cursor)
        (Q.state shelf.old) (Q.state shelf.new) }
    ensures sink { LeavesSink (listing_of result) (W.state out.old) (W.state out.new) }
{
    let mut left = query.limit;
    while left != Some(0) {
        match finder.next(index, shelf) {
            Ok(Step::Hit(sighting)) => {
                write_sighting(alloc, files, set, sighting, out)?;
                left = limit_left(left);
            }
            // `next` has no budget to spend, so it never returns this.
            Ok(Step::Spent) => {}
            Ok(Step::Done) => return write_end(out),
            Err(fault) => {
                let file = finder.cursor().file;
                return Err(RunFault::Read {
                    packet: false,
                    file,
                    fault,
                });
            }
        }
    }
    let list = list_mark(shelf, files);
    write_cursor(alloc, set.id(), list, finder.cursor(), out)
}

// Returns how many lines are left of a limit after one more is written, if there is a limit.
fn limit_left(left: Option<u64>) -> Option<u64>
    requires { left ≢ Some 0 }
    ensures { result ≡ limit_left left }
{
    match left {
        None => None,
        Some(lines) => Some(lines - 1),
    }
}
