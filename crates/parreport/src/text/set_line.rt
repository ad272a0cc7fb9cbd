ghost use Rattle.std.specs.Prelude.{◌≡◌, ◌++◌, OnOk, string_bytes};
ghost use Rattle.parreport.specs.Lines.{set_line};
ghost use Rattle.parreport.specs.Writers.{Writes};

use crate::faults::RunFault;
use crate::text::block_writer::BlockWriter;
use parset::RecoverySet;
use parshelf::Sink;
use std::alloc::AllocError;

/// Writes the line of a set.
pub fn write_set_line<W: Sink>(
    set: &RecoverySet,
    writer: &mut BlockWriter<'_, W>,
) -> Result<(), RunFault>
    ensures { Writes W.state writer.old writer.new (set_line set.now) result }
{
    let mut text = writer.take_buffer();
    append_set(&mut text, set)?;
    writer.put_back(text)
}

// Appends the line of a set.
#[tactic(auto, unfolding(crate::specs::Lines::set_line))]
fn append_set(text: &mut String, set: &RecoverySet) -> Result<(), AllocError>
    ensures { OnOk result (string_bytes text.new ≡ string_bytes text.old ++ set_line set.now) }
{
    let id = set.id();
    let size = set.size();
    let count = set.slices().len();
    writeln!(text, "set {id} size {size} slices {count}")
}
