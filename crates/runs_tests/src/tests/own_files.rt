// Files in memory. Reads always return what they contain, so a run reports on these very files.
ghost use Rattle.std.specs.Prelude.{◌≡◌, length, IsTrue};
ghost use Rattle.parshelf.specs.Memory.{shelf_state_of, files_of};
ghost use Rattle.parshelf.specs.MemorySink.{memory_sink_state};
ghost use Rattle.parplan.specs.Commands.{reads_scanned, LimitIsNotZero};
ghost use Rattle.parreport.specs.Outcomes.{Answers};
ghost use Rattle.parreport.specs.Report.{report_of};

use crate::runs::{is_same, is_text, must, words_of};
use parfixtures::shelf_of;
use parreport::{MemSink, Plan, RunFault, Status, plan, reads_scanned, run};
use parshelf::{MemShelf, Shelf};
use std::alloc::Global;
use std::panic::Expect;
use std::process::Abort;

// Runs a plan over files in memory. The text and the result are those of the files as they were at
// the call.
fn run_in_memory(
    alloc: Global,
    plan: &Plan,
    packets: &mut MemShelf,
    scanned: &mut MemShelf,
    out: &mut MemSink,
) -> Result<Status, RunFault>
    requires packets { length (shelf_state_of packets.old).lengths ≡ length plan.now.packets }
    requires scanned { IsTrue (reads_scanned plan.now.command)
        → length (shelf_state_of scanned.old).lengths ≡ length plan.now.scanned }
    requires limit { LimitIsNotZero plan.now.command }
    ensures { Answers (report_of plan.now (record {
      packets = files_of packets.old;
      scanned = files_of scanned.old;
    })) result (memory_sink_state out.old) (memory_sink_state out.new) }
{
    run(alloc, plan, packets, scanned, out)
}

#[test]
fn a_run_over_files_in_memory_tells_of_these(rt: HostRuntime) {
    let plan = plan(rt.alloc(), &words_of(&rt, "packets p.par2")).expect(&rt, "error");
    let mut packets = must(&rt, shelf_of(rt.alloc(), &[b""], 64, &[]));
    let mut scanned = must(&rt, shelf_of(rt.alloc(), &[], 64, &[]));
    let mut out = must(&rt, MemSink::new(rt.alloc(), 64, 64, false));
    if packets.count() as usize != plan.packets.len() || reads_scanned(plan.command) {
        rt.panic("another plan");
    }
    let answer = run_in_memory(rt.alloc(), &plan, &mut packets, &mut scanned, &mut out);
    is_same(&rt, &"answer", &answer, &Ok(Status::Listed));
    is_text(&rt, &"text", out.text(), "packets 0\n");
}
