ghost use Rattle.std.specs.Prelude.{◌≡◌, ◌++◌, ◌<◌, OnOk, string_bytes, option_map};
ghost use Rattle.std.specs.List.{flat_map};
ghost use Rattle.parreport.specs.Lines.{file_line, others_line, have_line, creator_line, aside_line, yes_or_no};
ghost use Rattle.parreport.specs.SetText.{set_text, counts_lines, creator_lines, set_aside_line};
ghost use Rattle.parreport.specs.Writers.{Writes};

use crate::faults::RunFault;
use crate::text::block_writer::BlockWriter;
use crate::text::names::packet_name;
use crate::text::set_line::write_set_line;
use parfield::{Shown, Text};
use parset::{RecoverySet, SetAside, SetFile};
use parshelf::Sink;
use std::alloc::AllocError;

/// Writes the text of `set`; `names` are those of the packet files.
pub fn write_set_text<W: Sink>(
    names: &[Text],
    set: &RecoverySet,
    writer: &mut BlockWriter<'_, W>,
) -> Result<(), RunFault>
    ensures { Writes W.state writer.old writer.new (set_text names.now set.now) result }
{
    write_set_line(set, writer)?;
    write_files(set.size(), set.files(), writer)?;
    write_counts(set, writer)?;
    write_asides(names, set.aside(), writer)
}

// Writes a line for each file.
fn write_files<W: Sink>(
    size: u64,
    files: &[SetFile],
    writer: &mut BlockWriter<'_, W>,
) -> Result<(), RunFault>
    requires { 0 < size }
    ensures { Writes W.state writer.old writer.new (flat_map (file_line size) files.now) result }
{
    for file in files {
        write_file(size, file, writer)?;
    }
    Ok(())
}

// Writes the line of a file.
fn write_file<W: Sink>(
    size: u64,
    file: &SetFile,
    writer: &mut BlockWriter<'_, W>,
) -> Result<(), RunFault>
    requires { 0 < size }
    ensures { Writes W.state writer.old writer.new (file_line size file.now) result }
{
    let mut text = writer.take_buffer();
    append_file(&mut text, size, file)?;
    writer.put_back(text)
}

// Appends the line of a file.
#[tactic(auto, unfolding(crate::specs::Lines::file_line))]
fn append_file(text: &mut String, size: u64, file: &SetFile) -> Result<(), AllocError>
    requires { 0 < size }
    ensures { OnOk result (string_bytes text.new
        ≡ string_bytes text.old ++ file_line size file.now) }
{
    let id = file.id;
    let length = file.length;
    let slices = length.div_ceil(size);
    let known = yes_if(file.known);
    let name = Shown(file.name.as_slice());
    writeln!(text, "file {id} {length} {slices} {known} {name}")
}

fn yes_if(known: bool) -> &'static str
    ensures { result.now ≡ yes_or_no known }
{
    if known { "yes" } else { "no" }
}

// Writes the lines between those of the files and those of the rejected packets.
fn write_counts<W: Sink>(set: &RecoverySet, writer: &mut BlockWriter<'_, W>) -> Result<(), RunFault>
    ensures { Writes W.state writer.old writer.new (counts_lines set.now) result }
{
    let mut text = writer.take_buffer();
    append_counts(&mut text, set)?;
    writer.put_back(text)
}

// Appends the lines between those of the files and those of the rejected packets.
fn append_counts(text: &mut String, set: &RecoverySet) -> Result<(), AllocError>
    ensures { OnOk result (string_bytes text.new
        ≡ string_bytes text.old ++ counts_lines set.now) }
{
    append_others(text, set.others())?;
    append_have(text, set.have())?;
    append_creator(text, set.creator())
}

// Appends the number of non-recovery files.
#[tactic(auto, unfolding(crate::specs::Lines::others_line))]
fn append_others(text: &mut String, count: u32) -> Result<(), AllocError>
    ensures { OnOk result (string_bytes text.new ≡ string_bytes text.old ++ others_line count) }
{
    writeln!(text, "others {count}")
}

// Appends the number of exponents of recovery slices.
#[tactic(auto, unfolding(crate::specs::Lines::have_line))]
fn append_have(text: &mut String, count: u32) -> Result<(), AllocError>
    ensures { OnOk result (string_bytes text.new ≡ string_bytes text.old ++ have_line count) }
{
    writeln!(text, "have {count}")
}

// Appends the `creator` line, if the client's text is known.
#[tactic(auto, unfolding(crate::specs::Lines::creator_line))]
fn append_creator(text: &mut String, creator: Option<&[u8]>) -> Result<(), AllocError>
    ensures { OnOk result (string_bytes text.new
        ≡ string_bytes text.old ++ creator_lines (option_map (λ c. c.now) creator.entry)) }
{
    match creator {
        None => Ok(()),
        Some(creator) => writeln!(text, "creator {}", Shown(creator)),
    }
}

// Writes a line for each rejected packet.
fn write_asides<W: Sink>(
    names: &[Text],
    asides: &[SetAside],
    writer: &mut BlockWriter<'_, W>,
) -> Result<(), RunFault>
    ensures { Writes W.state writer.old writer.new
        (flat_map (set_aside_line names.now) asides.now) result }
{
    for aside in asides {
        write_aside(packet_name(names, aside.file), aside, writer)?;
    }
    Ok(())
}

// Writes the line of a rejected packet.
fn write_aside<W: Sink>(
    name: &[u8],
    aside: &SetAside,
    writer: &mut BlockWriter<'_, W>,
) -> Result<(), RunFault>
    ensures { Writes W.state writer.old writer.new (aside_line name.now aside.now) result }
{
    let mut text = writer.take_buffer();
    append_aside(&mut text, name, aside)?;
    writer.put_back(text)
}

// Appends the line of a rejected packet.
#[tactic(auto, unfolding(crate::specs::Lines::aside_line))]
fn append_aside(text: &mut String, name: &[u8], aside: &SetAside) -> Result<(), AllocError>
    ensures { OnOk result (string_bytes text.new
        ≡ string_bytes text.old ++ aside_line name.now aside.now) }
{
    let name = Shown(name);
    let at = aside.at;
    let reason = aside.reason.number();
    writeln!(text, "aside {name} {at} {reason}")
}
