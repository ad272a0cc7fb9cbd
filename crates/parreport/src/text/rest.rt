ghost use Rattle.std.specs.Prelude.{◌≡◌, Ok, IfErr};
ghost use Rattle.parreport.specs.Outcomes.{Answers, LeavesSink};
ghost use Rattle.parreport.specs.declared.faults.RunFault.TheVariants as run_fault;

use crate::faults::RunFault;
use crate::status::Status;
use parshelf::{Sink, write_text};

/// Writes the last bytes of a text, and returns the status that goes with it.
pub fn write_rest<W: Sink>(out: &mut W, text: &[u8], status: Status) -> Result<Status, RunFault>
    ensures text { Answers (record { text = text.now; answer = Ok status }) result
        (W.state out.old) (W.state out.new) }
    ensures fault { IfErr result (λ fault. fault ≡ run_fault.Write) }
    ensures sink { LeavesSink result (W.state out.old) (W.state out.new) }
{
    write_text(out, text)?;
    Ok(status)
}
