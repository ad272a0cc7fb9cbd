ghost use Rattle.std.specs.Prelude.{◌≡◌, ℕ, length, IsTrue, false, IfErr, List, Ok};
ghost use Rattle.parsalvage.specs.Kept.{kept_of_files};
ghost use Rattle.parset.specs.RecoverySet.{set_of};
ghost use Rattle.parplan.specs.Commands.{reads_scanned, LimitIsNotZero};
ghost use Rattle.parreport.specs.RunFiles.{RunFiles, AreReadAs, ReadsAsFor};
ghost use Rattle.parreport.specs.Faults.{OnScannedFault};
ghost use Rattle.parreport.specs.Outcomes.{is_packet_file_fault, written, may_follow_text, Answers, ReadFaultLeaves, LeavesPackets, LeavesScanned, ReadsNoneForCause, ReadsNoneOnCause, ScansAsAsked, TellsScanned, LeavesSink, MakesSet};
ghost use Rattle.parreport.specs.OtherLists.{TellsList};
ghost use Rattle.parreport.specs.Report.{report_of, command_report};

use crate::faults::RunFault;
use crate::salvage::salvage_files;
use crate::status::Status;
use crate::text::{Query, write_find, write_packets, write_set, write_verify};
use parplan::{Command, Plan};
use parsalvage::Kept;
use parset::{RecoverySet, build};
use parshelf::{Shelf, Sink};
use std::alloc::Global;

/// Writes the text that the plan asks for over its packet files and its scanned files. After an
/// error, a beginning of that text is written.
pub fn run<P: Shelf, Q: Shelf, W: Sink>(
    alloc: Global,
    plan: &Plan,
    packets: &mut P,
    scanned: &mut Q,
    out: &mut W,
) -> Result<Status, RunFault>
    requires packets { length (P.state packets.old).lengths ≡ length plan.now.packets }
    requires scanned { IsTrue (reads_scanned plan.now.command)
        → length (Q.state scanned.old).lengths ≡ length plan.now.scanned }
    requires limit { LimitIsNotZero plan.now.command }

    // The text and the status are those of any files that are consistent with the reads.
    ensures text { (files : RunFiles)
        → AreReadAs plan.now.command (P.state packets.new) (Q.state scanned.new) files
        → Answers (report_of plan.now files) result (W.state out.old) (W.state out.new) }
    ensures lines { (files : RunFiles)
        → AreReadAs plan.now.command (P.state packets.new) (Q.state scanned.new) files
        → IfErr result (OnScannedFault (λ file.
        ReadFaultLeaves plan.now files file (W.state out.old) (W.state out.new))) }

    // Whatever the reads returned: the result says what failed, and nothing else did.
    ensures nothing_written { IfErr result (λ fault. may_follow_text plan.now.command
        (written (W.state out.old) (W.state out.new)) fault ≡ false
        → W.state out.new ≡ W.state out.old) }
    ensures packets { LeavesPackets result (P.state packets.old) (P.state packets.new) }
    ensures scanned { LeavesScanned plan.now result (P.state packets.new)
        (Q.state scanned.old) (Q.state scanned.new) }
    ensures cause { ReadsNoneForCause plan.now (P.state packets.new)
        (Q.state scanned.old) (Q.state scanned.new) }
    ensures sink { LeavesSink result (W.state out.old) (W.state out.new) }
    ensures list { TellsList plan.now (Q.state scanned.old).lengths result }
    ensures untouched { reads_scanned plan.now.command ≡ false
        → Q.state scanned.new ≡ Q.state scanned.old }
{
    let kept = salvage_files(alloc, packets)?;
    if let Command::Packets = plan.command {
        return write_packets(alloc, plan, &kept, out);
    }
    let set = asked_set(alloc, plan, &kept)?;
    run_over_set(alloc, plan, &set, scanned, out)
}

// Makes the recovery set that a plan asks for from the packets.
fn asked_set(alloc: Global, plan: &Plan, kept: &[Kept]) -> Result<RecoverySet, RunFault>
    ensures { MakesSet (set_of kept.now plan.now.set) result }
{
    Ok(build(alloc, kept, plan.set)?)
}

// Writes the text that the plan asks for over a set.
fn run_over_set<Q: Shelf, W: Sink>(
    alloc: Global,
    plan: &Plan,
    set: &RecoverySet,
    scanned: &mut Q,
    out: &mut W,
) -> Result<Status, RunFault>
    requires scanned { IsTrue (reads_scanned plan.now.command)
        → length (Q.state scanned.old).lengths ≡ length plan.now.scanned }
    requires limit { LimitIsNotZero plan.now.command }

    ensures text { (files : List (List ℕ)) → ReadsAsFor plan.now.command (Q.state scanned.new) files
        → Answers (command_report plan.now.command plan.now files set.now)
        result (W.state out.old) (W.state out.new) }
    ensures lines { (files : RunFiles)
        → set_of (kept_of_files files.packets) plan.now.set ≡ Ok set.now
        → ReadsAsFor plan.now.command (Q.state scanned.new) files.scanned
        → IfErr result (OnScannedFault (λ file.
        ReadFaultLeaves plan.now files file (W.state out.old) (W.state out.new))) }
    ensures no_packet { IfErr result (λ fault. is_packet_file_fault fault ≡ false) }
    ensures nothing_written { IfErr result (λ fault. may_follow_text plan.now.command
        (written (W.state out.old) (W.state out.new)) fault ≡ false
        → W.state out.new ≡ W.state out.old) }
    ensures scanned { TellsScanned result (Q.state scanned.old) (Q.state scanned.new)
        × ScansAsAsked plan.now set.now (Q.state scanned.old) (Q.state scanned.new) }
    ensures cause { ReadsNoneOnCause (λ files. command_report plan.now.command plan.now files set.now)
        (Q.state scanned.old) (Q.state scanned.new) }
    ensures sink { LeavesSink result (W.state out.old) (W.state out.new) }
    ensures list { TellsList plan.now (Q.state scanned.old).lengths result }
    ensures untouched { reads_scanned plan.now.command ≡ false
        → Q.state scanned.new ≡ Q.state scanned.old }
{
    match plan.command {
        Command::Find {
            limit,
            cursor,
            tails,
        } => {
            let query = Query {
                limit,
                cursor,
                tails,
            };
            write_find(alloc, plan, query, set, scanned, out)
        }
        Command::Verify { quiet, tails } => {
            write_verify(alloc, plan, quiet, tails, set, scanned, out)
        }
        // `packets` needs no set, and never comes here.
        Command::Packets | Command::Set => write_set(alloc, plan, set, out),
    }
}
