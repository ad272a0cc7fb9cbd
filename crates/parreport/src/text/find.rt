ghost use Rattle.std.specs.Prelude.{◌≡◌, ◌≢◌, ℕ, List, length, false, IfErr, IsOkAnd, Some};
ghost use Rattle.parshelf.specs.Shelf.{ReadsAs};
ghost use Rattle.parreport.specs.Costs.{ScansWithin};
ghost use Rattle.parreport.specs.Faults.{OnScannedFault};
ghost use Rattle.parreport.specs.FindText.{find_search_of, WritesLinesBefore};
ghost use Rattle.parreport.specs.Outcomes.{is_packet_file_fault, written, may_follow_text, Answers, ReadsNoneOnCause, TellsScanned, LeavesSink};
ghost use Rattle.parreport.specs.OtherLists.{FitsList, is_for_files};
ghost use Rattle.parreport.specs.Names.{list_of, names_of};
ghost use Rattle.parreport.specs.Report.{find_report, find_start_of, start_of};
ghost use Rattle.parplan.specs.declared.command.Command.TheVariants as command;

use crate::faults::RunFault;
use crate::status::Status;
use crate::text::find::sightings::write_sightings;
use parfind::{Cursor, CursorText, Foreign};
use parplan::{Plan, Scanned};
use parset::RecoverySet;
use parshelf::{Shelf, Sink, list_mark};
use std::alloc::Global;

mod lines;
mod query;
mod sightings;

pub(crate) use crate::text::find::query::Query;

/// Writes the sightings of slices of the set, from the cursor on.
// If it were inlined, its finder would stay on the stack beside the arrays of salvage.
#[inline(never)]
pub(crate) fn write_find<Q: Shelf, W: Sink>(
    alloc: Global,
    plan: &Plan,
    query: Query,
    set: &RecoverySet,
    scanned: &mut Q,
    out: &mut W,
) -> Result<Status, RunFault>
    requires limit { query.limit ≢ Some 0 }
    requires scanned { length (Q.state scanned.old).lengths ≡ length plan.now.scanned }

    ensures text { (files : List (List ℕ)) → ReadsAs (Q.state scanned.new) files
        → Answers (find_report plan.now query files set.now) result
        (W.state out.old) (W.state out.new) }
    ensures lines { (files : List (List ℕ)) → ReadsAs (Q.state scanned.new) files
        → IfErr result (OnScannedFault (λ file.
        IsOkAnd (find_start_of plan.now query files set.now)
        (λ at. WritesLinesBefore (find_search_of plan.now.scanned files set.now at query)
        file (W.state out.old) (W.state out.new)))) }
    ensures no_packet { IfErr result (λ fault. is_packet_file_fault fault ≡ false) }
    ensures nothing_written { IfErr result (λ fault.
        may_follow_text (command.Find query.limit query.cursor query.tails)
        (written (W.state out.old) (W.state out.new)) fault ≡ false
        → W.state out.new ≡ W.state out.old) }
    ensures scanned { TellsScanned result (Q.state scanned.old) (Q.state scanned.new) }
    ensures cause { ReadsNoneOnCause (λ files. find_report plan.now query files set.now)
        (Q.state scanned.old) (Q.state scanned.new) }
    ensures handed { ScansWithin (command.Find query.limit query.cursor query.tails) set.now
        (Q.state scanned.old) (Q.state scanned.new) }
    ensures sink { LeavesSink result (W.state out.old) (W.state out.new) }
    ensures list { FitsList (is_for_files plan.now (Q.state scanned.old).lengths query.cursor) result }
{
    let files = plan.scanned.as_slice();
    let at = start(files, set, scanned, query.cursor)?;
    write_sightings(alloc, files, set, at, query, scanned, out)?;
    Ok(Status::Listed)
}

// Returns the cursor at which a search begins, or the error if the given one is of another set or
// of other files.
fn start<Q: Shelf>(
    files: &[Scanned],
    set: &RecoverySet,
    scanned: &Q,
    cursor: Option<CursorText>,
) -> Result<Cursor, Foreign>
    requires { length (Q.state scanned.now).lengths ≡ length files.now }
    ensures { result ≡ start_of set.now.id
        (list_of (names_of files.now) (Q.state scanned.now).lengths) cursor }
{
    match cursor {
        None => Ok(Cursor {
            file: 0,
            offset: 0,
            slice: 0,
        }),
        Some(text) => text.cursor_for(set.id(), list_mark(scanned, files)),
    }
}
