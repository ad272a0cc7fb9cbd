ghost use Rattle.std.specs.Prelude.{◌≡◌, false, IfErr};
ghost use Rattle.parreport.specs.Outcomes.{is_read_fault, written, may_follow_text, Answers, LeavesSink};
ghost use Rattle.parreport.specs.Report.{packets_report};
ghost use Rattle.parplan.specs.declared.command.Command.TheVariants as command;

use crate::faults::RunFault;
use crate::status::Status;
use crate::text::block_writer::BlockWriter;
use crate::text::packets::lines::write_packets_text;
use crate::text::rest::write_rest;
use parplan::Plan;
use parsalvage::Kept;
use parshelf::Sink;
use std::alloc::Global;

mod lines;

/// Writes a line for each packet that the plan asks for, and their number.
pub(crate) fn write_packets<W: Sink>(
    alloc: Global,
    plan: &Plan,
    kept: &[Kept],
    out: &mut W,
) -> Result<Status, RunFault>
    ensures text { Answers (packets_report plan.now kept.now) result
        (W.state out.old) (W.state out.new) }
    ensures no_read { IfErr result (λ fault. is_read_fault fault ≡ false) }
    ensures nothing_written { IfErr result (λ fault. may_follow_text command.Packets
        (written (W.state out.old) (W.state out.new)) fault ≡ false
        → W.state out.new ≡ W.state out.old) }
    ensures sink { LeavesSink result (W.state out.old) (W.state out.new) }
{
    let mut writer = BlockWriter::new(alloc, out);
    let listed = write_packets_text(plan.packets.as_slice(), plan.set, kept, &mut writer);
    let BlockWriter { sink, buffer, .. } = writer;
    listed?;
    write_rest(sink, buffer.as_bytes(), Status::Listed)
}
