ghost use Rattle.std.specs.Prelude.{◌≡◌, length, option_map, IsTrue, IsOkAnd, IfOk, IfErr};
ghost use Rattle.parplan.specs.Commands.{reads_scanned, LimitIsNotZero};
ghost use Rattle.parreport.specs.Ends.{opened_of};
ghost use Rattle.parreport.specs.OpenedFiles.{TellsEnd, TellsRun};

use crate::ends::{End, run_end, unopened_packets, unopened_scanned};
use crate::messages::ending;
use crate::report::run;
use parfield::Text;
use parplan::Plan;
use parshelf::{OpenFault, Shelf, Sink};
use std::alloc::{AllocError, Global};

/// Writes the text that the plan asks for over its files, if all could be opened, and returns the
/// exit status and the line for standard error.
pub fn run_opened<P: Shelf, Q: Shelf, W: Sink>(
    alloc: Global,
    plan: &Plan,
    packets: &mut Result<P, OpenFault>,
    scanned: &mut Result<Q, OpenFault>,
    out: &mut W,
) -> Result<(u8, Vec<u8>), AllocError>
    requires packets { IfOk packets.old (λ files.
        length (P.state files).lengths ≡ length plan.now.packets) }
    requires scanned { IfOk scanned.old (λ files. IsTrue (reads_scanned plan.now.command)
        → length (Q.state files).lengths ≡ length plan.now.scanned) }
    requires limit { LimitIsNotZero plan.now.command }

    // If all files are opened, the plan is run over them, and the end of this run is reported.
    ensures ran { IfOk (opened_of plan.now packets.old scanned.old) (λ files.
        IsOkAnd (opened_of plan.now packets.new scanned.new) (λ after.
        TellsRun plan.now
        (record { packets = P.state files.0; scanned = Q.state files.1; out = W.state out.old })
        (record { packets = P.state after.0; scanned = Q.state after.1; out = W.state out.new })
        (λ end. TellsEnd end result))) }

    // If some are not, that is reported, and nothing is read or written.
    ensures unopened { IfErr (opened_of plan.now packets.old scanned.old) (λ end.
        TellsEnd end result) }
    ensures nothing_written { IfErr (opened_of plan.now packets.old scanned.old) (λ _.
        W.state out.new ≡ W.state out.old) }
    ensures packets { IfErr (opened_of plan.now packets.old scanned.old) (λ _.
        packets.new ≡ packets.old) }
    ensures scanned { IfErr (opened_of plan.now packets.old scanned.old) (λ _.
        scanned.new ≡ scanned.old) }
{
    match (packets, scanned) {
        (Ok(packets), Ok(scanned)) => run_and_tell(alloc, plan, packets, scanned, out),
        (Err(why), _) => {
            let (end, argument) = unopened_packets(plan, *why);
            tell(alloc, end, argument)
        }
        (Ok(_), Err(why)) => {
            let (end, argument) = unopened_scanned(plan, *why);
            tell(alloc, end, argument)
        }
    }
}

// Runs the plan over its files, and returns the exit status and the line of the end.
fn run_and_tell<P: Shelf, Q: Shelf, W: Sink>(
    alloc: Global,
    plan: &Plan,
    packets: &mut P,
    scanned: &mut Q,
    out: &mut W,
) -> Result<(u8, Vec<u8>), AllocError>
    requires packets { length (P.state packets.old).lengths ≡ length plan.now.packets }
    requires scanned { IsTrue (reads_scanned plan.now.command)
        → length (Q.state scanned.old).lengths ≡ length plan.now.scanned }
    requires limit { LimitIsNotZero plan.now.command }
    ensures { TellsRun plan.now
        (record {
          packets = P.state packets.old;
          scanned = Q.state scanned.old;
          out = W.state out.old;
        })
        (record {
          packets = P.state packets.new;
          scanned = Q.state scanned.new;
          out = W.state out.new;
        })
        (λ end. TellsEnd end result) }
{
    let answer = run(alloc, plan, packets, scanned, out);
    let (end, argument) = run_end(plan, answer);
    tell(alloc, end, argument)
}

// Returns the exit status and the line of an end, about this argument.
fn tell(alloc: Global, end: End, argument: Option<&Text>) -> Result<(u8, Vec<u8>), AllocError>
    ensures { TellsEnd (end, option_map (λ file. file.now) argument.entry) result }
{
    let argument = match argument {
        Some(file) => file.as_str(),
        None => "",
    };
    ending(alloc, &end, argument)
}
