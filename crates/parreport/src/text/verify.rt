ghost use Rattle.std.specs.Prelude.{◌≡◌, ℕ, List, length, Bool, false, Ok, IfErr};
ghost use Rattle.parshelf.specs.Shelf.{ReadsAs};
ghost use Rattle.parreport.specs.Contents.{ReadsCandidates};
ghost use Rattle.parreport.specs.Costs.{ScansWithin};
ghost use Rattle.parreport.specs.Findings.{NeedsNoSearch};
ghost use Rattle.parreport.specs.States.{named_files};
ghost use Rattle.parreport.specs.SetSearch.{mode_of};
ghost use Rattle.parreport.specs.Names.{names_of};
ghost use Rattle.parreport.specs.Outcomes.{is_packet_file_fault, is_read_fault, written, may_follow_text, Answers, ReadsNoneOnCause, TellsScanned, LeavesSink};
ghost use Rattle.parreport.specs.Report.{verify_report};
ghost use Rattle.parreport.specs.VerifyText.{status_of, findings_text};
ghost use Rattle.parplan.specs.declared.command.Command.TheVariants as command;

use crate::faults::RunFault;
use crate::modes::mode_of;
use crate::states::{Findings, findings_on};
use crate::status::Status;
use crate::text::block_writer::BlockWriter;
use crate::text::rest::write_rest;
use crate::text::verify::lines::write_verify_text;
use parfind::has_too_many_tails;
use parplan::{Plan, Scanned};
use parset::RecoverySet;
use parshelf::{Shelf, Sink};
use parwindow::Index;
use std::alloc::Global;

mod counts;
mod lines;
mod status;

/// Writes the text of `verify`: how much of the set is found.
// If it were inlined, its values would stay on the stack beside the arrays of salvage.
#[inline(never)]
pub(crate) fn write_verify<Q: Shelf, W: Sink>(
    alloc: Global,
    plan: &Plan,
    quiet: u8,
    tails: bool,
    set: &RecoverySet,
    scanned: &mut Q,
    out: &mut W,
) -> Result<Status, RunFault>
    requires { length (Q.state scanned.old).lengths ≡ length plan.now.scanned }
    ensures text { (files : List (List ℕ)) → ReadsAs (Q.state scanned.new) files
        → Answers (verify_report plan.now quiet (mode_of tails) files set.now) result
        (W.state out.old) (W.state out.new) }
    ensures no_packet { IfErr result (λ fault. is_packet_file_fault fault ≡ false) }
    ensures nothing_written { IfErr result (λ fault. may_follow_text (command.Verify quiet tails)
        (written (W.state out.old) (W.state out.new)) fault ≡ false
        → W.state out.new ≡ W.state out.old) }
    ensures scanned { TellsScanned result (Q.state scanned.old) (Q.state scanned.new) }
    ensures cause { ReadsNoneOnCause
        (λ files. verify_report plan.now quiet (mode_of tails) files set.now)
        (Q.state scanned.old) (Q.state scanned.new) }
    ensures handed { ScansWithin (command.Verify quiet tails) set.now
        (Q.state scanned.old) (Q.state scanned.new) }
    ensures unsearched { (files : List (List ℕ)) → ReadsAs (Q.state scanned.new) files
        → NeedsNoSearch set.now (named_files plan.now.scanned files)
        → ReadsCandidates set.now.files (Q.state scanned.old) (Q.state scanned.new) }
    ensures sink { LeavesSink result (W.state out.old) (W.state out.new) }
{
    let index = Index::new(alloc, set)?;
    let mode = mode_of(tails);
    if has_too_many_tails(&index, mode) {
        return Err(RunFault::TooManyTails);
    }
    let files = plan.scanned.as_slice();
    let findings = findings_on(alloc, files, set, &index, mode, scanned)?;
    write_findings(alloc, quiet, files, set, &findings, out)
}

// Writes the text of the findings on a set, and returns the status.
fn write_findings<W: Sink>(
    alloc: Global,
    quiet: u8,
    files: &[Scanned],
    set: &RecoverySet,
    findings: &Findings,
    out: &mut W,
) -> Result<Status, RunFault>
    requires states { length findings.now.states ≡ length set.now.files }
    requires slices { length findings.now.found ≡ length set.now.slices }
    ensures text { Answers (record {
      text = findings_text quiet set.now (names_of files.now) findings.now;
      answer = Ok (status_of set.now findings.now);
    }) result
        (W.state out.old) (W.state out.new) }
    ensures no_read { IfErr result (λ fault. is_read_fault fault ≡ false) }
    ensures nothing_written { IfErr result (λ fault. (tails : Bool)
        → may_follow_text (command.Verify quiet tails)
        (written (W.state out.old) (W.state out.new)) fault ≡ false
        → W.state out.new ≡ W.state out.old) }
    ensures sink { LeavesSink result (W.state out.old) (W.state out.new) }
{
    let mut writer = BlockWriter::new(alloc, out);
    let told = write_verify_text(alloc, quiet, files, set, findings, &mut writer);
    let BlockWriter { sink, buffer, .. } = writer;
    let status = told?;
    write_rest(sink, buffer.as_bytes(), status)
}
