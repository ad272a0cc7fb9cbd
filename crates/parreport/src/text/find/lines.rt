ghost use Rattle.std.specs.Prelude.{◌≡◌, IfOk, Some, string_bytes};
ghost use Rattle.parreport.specs.FindText.{found_line, line_of_slice, WritesLine};
ghost use Rattle.parreport.specs.Names.{names_of};
ghost use Rattle.parreport.specs.Lines.{sighting_line, end_line, cursor_line};

use crate::faults::RunFault;
use crate::text::names::scanned_name;
use parfield::{Hash16, Shown};
use parfind::{Cursor, Sighting};
use parplan::Scanned;
use parset::{RecoverySet, SetSlice};
use parshelf::{Sink, write_text};
use std::alloc::{AllocError, Global};

/// Writes the line of a sighting.
pub fn write_sighting<W: Sink>(
    alloc: Global,
    files: &[Scanned],
    set: &RecoverySet,
    sighting: Sighting,
    out: &mut W,
) -> Result<(), RunFault>
    ensures { WritesLine (found_line (names_of files.now) set.now sighting) result
        (W.state out.old) (W.state out.new) }
{
    let line = line_of(alloc, files, set, sighting)?;
    Ok(write_text(out, line.as_bytes())?)
}

/// Writes `end`, the line after the last sighting.
#[tactic(auto, unfolding(crate::specs::Lines::end_line))]
pub fn write_end<W: Sink>(out: &mut W) -> Result<(), RunFault>
    ensures { WritesLine end_line result (W.state out.old) (W.state out.new) }
{
    Ok(write_text(out, b"end\n")?)
}

/// Writes the line of the cursor to continue from, in a search for the slices of this set in the
/// list of files with this mark.
pub fn write_cursor<W: Sink>(
    alloc: Global,
    set: Hash16,
    list: Hash16,
    at: Cursor,
    out: &mut W,
) -> Result<(), RunFault>
    ensures { WritesLine (cursor_line (record { set = set; list = Some list; at = at })) result
        (W.state out.old) (W.state out.new) }
{
    let line = cursor_line(alloc, set, list, at)?;
    Ok(write_text(out, &line)?)
}

// Returns the line of a sighting.
#[tactic(auto, unfolding(crate::specs::Lines::sighting_line))]
fn line_of(
    alloc: Global,
    files: &[Scanned],
    set: &RecoverySet,
    sighting: Sighting,
) -> Result<String, AllocError>
    ensures { IfOk result (λ line. string_bytes line
        ≡ found_line (names_of files.now) set.now sighting) }
{
    let name = Shown(scanned_name(files, sighting.file as usize));
    let offset = sighting.offset;
    match set.slices().get(sighting.slice as usize) {
        None => Ok(String::new(alloc)),
        Some(SetSlice { id, number, .. }) => format!(in alloc; "{name} {offset} {id} {number}\n"),
    }
}

// Returns the line of the cursor to continue from.
#[tactic(auto, unfolding(crate::specs::Lines::cursor_line))]
fn cursor_line(alloc: Global, set: Hash16, list: Hash16, at: Cursor) -> Result<Vec<u8>, AllocError>
    ensures { IfOk result (λ line. line.items
        ≡ cursor_line (record { set = set; list = Some list; at = at })) }
{
    let mut line = Vec::from_slice(alloc, b"cursor ")?;
    line.append(&mut at.text(alloc, set, list)?)?;
    line.push(b'\n')?;
    Ok(line)
}
