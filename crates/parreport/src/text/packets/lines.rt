ghost use Rattle.std.specs.Prelude.{◌≡◌, ◌++◌, length, IfOk, OnOk, string_bytes};
ghost use Rattle.std.specs.List.{flat_map};
ghost use Rattle.parreport.specs.Lines.{packet_line, count_line, kind_word};
ghost use Rattle.parreport.specs.PacketsText.{chosen_of, kept_line, packets_text};
ghost use Rattle.parreport.specs.Writers.{Writes};

use crate::faults::RunFault;
use crate::text::block_writer::BlockWriter;
use crate::text::names::packet_name;
use parfield::{Hash16, Kind, Shown, Text};
use parsalvage::Kept;
use parshelf::Sink;
use std::alloc::AllocError;

/// Writes a line for each packet that is asked for, and their number.
pub fn write_packets_text<W: Sink>(
    names: &[Text],
    choice: Option<Hash16>,
    packets: &[Kept],
    writer: &mut BlockWriter<'_, W>,
) -> Result<(), RunFault>
    ensures { Writes W.state writer.old writer.new
        (packets_text names.now choice packets.now) result }
{
    let count = write_chosen(names, choice, packets, writer)?;
    write_count(count, writer)
}

// Writes the lines of the packets that are asked for, and returns their number.
fn write_chosen<W: Sink>(
    names: &[Text],
    choice: Option<Hash16>,
    packets: &[Kept],
    writer: &mut BlockWriter<'_, W>,
) -> Result<u64, RunFault>
    ensures count { IfOk result (λ n. n ≡ length (chosen_of choice packets.now)) }
    ensures lines { Writes W.state writer.old writer.new
        (flat_map (kept_line names.now) (chosen_of choice packets.now)) result }
{
    let mut count = 0u64;
    for packet in packets {
        if packet.is_chosen(choice) {
            write_packet(packet_name(names, packet.file), packet, writer)?;
            count += 1;
        }
    }
    Ok(count)
}

// Writes the line of a packet.
fn write_packet<W: Sink>(
    name: &[u8],
    packet: &Kept,
    writer: &mut BlockWriter<'_, W>,
) -> Result<(), RunFault>
    ensures { Writes W.state writer.old writer.new (packet_line name.now packet.now) result }
{
    let mut text = writer.take_buffer();
    append_packet(&mut text, name, packet)?;
    writer.put_back(text)
}

// Appends the line of a packet.
#[tactic(auto, unfolding(crate::specs::Lines::packet_line))]
fn append_packet(text: &mut String, name: &[u8], packet: &Kept) -> Result<(), AllocError>
    ensures { OnOk result (string_bytes text.new
        ≡ string_bytes text.old ++ packet_line name.now packet.now) }
{
    writeln!(
        text,
        "{} {} {} {} {}",
        Shown(name),
        packet.at,
        packet.length,
        kind_word(packet.kind),
        packet.set
    )
}

// Writes the last line, with the number of packets.
fn write_count<W: Sink>(count: u64, writer: &mut BlockWriter<'_, W>) -> Result<(), RunFault>
    ensures { Writes W.state writer.old writer.new (count_line count) result }
{
    let mut text = writer.take_buffer();
    append_count(&mut text, count)?;
    writer.put_back(text)
}

// Appends the last line, with the number of packets.
#[tactic(auto, unfolding(crate::specs::Lines::count_line))]
fn append_count(text: &mut String, count: u64) -> Result<(), AllocError>
    ensures { OnOk result (string_bytes text.new ≡ string_bytes text.old ++ count_line count) }
{
    writeln!(text, "packets {count}")
}

// Returns the word for the kind of a packet.
fn kind_word(kind: Kind) -> &'static str
    ensures { result.now ≡ kind_word kind }
{
    match kind {
        Kind::Main => "main",
        Kind::FileDesc => "filedesc",
        Kind::Ifsc => "ifsc",
        Kind::RecvSlic => "recvslic",
        Kind::Creator => "creator",
        Kind::Other(_) => "unknown",
    }
}
