ghost use Rattle.std.specs.Prelude.{◌≡◌, false, IfErr};
ghost use Rattle.parreport.specs.Outcomes.{is_read_fault, written, may_follow_text, Answers, LeavesSink};
ghost use Rattle.parreport.specs.Report.{set_report};
ghost use Rattle.parplan.specs.declared.command.Command.TheVariants as command;

use crate::faults::RunFault;
use crate::status::Status;
use crate::text::block_writer::BlockWriter;
use crate::text::rest::write_rest;
use crate::text::set::lines::write_set_text;
use parplan::Plan;
use parset::RecoverySet;
use parshelf::Sink;
use std::alloc::Global;

mod lines;

/// Writes the text of `set`, which describes the recovery set.
pub(crate) fn write_set<W: Sink>(
    alloc: Global,
    plan: &Plan,
    set: &RecoverySet,
    out: &mut W,
) -> Result<Status, RunFault>
    ensures text { Answers (set_report plan.now set.now) result
        (W.state out.old) (W.state out.new) }
    ensures no_read { IfErr result (λ fault. is_read_fault fault ≡ false) }
    ensures nothing_written { IfErr result (λ fault. may_follow_text command.Set
        (written (W.state out.old) (W.state out.new)) fault ≡ false
        → W.state out.new ≡ W.state out.old) }
    ensures sink { LeavesSink result (W.state out.old) (W.state out.new) }
{
    let mut writer = BlockWriter::new(alloc, out);
    let listed = write_set_text(plan.packets.as_slice(), set, &mut writer);
    let BlockWriter { sink, buffer, .. } = writer;
    listed?;
    write_rest(sink, buffer.as_bytes(), Status::Listed)
}
