ghost use Rattle.std.specs.Prelude.{◌≡◌, ◌++◌, ◌<◌, length, unwrap_or, string_bytes, IfOk, OnOk};
ghost use Rattle.std.specs.BTreeMap.{get};
ghost use Rattle.std.specs.List.{flat_map, zip};
ghost use Rattle.parfield.specs.HashOrder.{id_cmp};
ghost use Rattle.parreport.specs.Names.{names_of};
ghost use Rattle.parreport.specs.VerifyText.{state_line, counted_line, complete_line, renamed_line, damaged_line, missing_line, need_line, result_line, status_word, status_of, states_text, result_text, findings_text};
ghost use Rattle.parreport.specs.Writers.{Writes};

use crate::faults::RunFault;
use crate::states::{Findings, State};
use crate::status::Status;
use crate::text::block_writer::BlockWriter;
use crate::text::names::scanned_name;
use crate::text::set_line::write_set_line;
use crate::text::verify::counts::{count_at, found_counts};
use crate::text::verify::status::status_from;
use parfield::{Hash16, Shown};
use parplan::Scanned;
use parset::{RecoverySet, SetFile};
use parshelf::Sink;
use std::alloc::{AllocError, Global};
use std::collections::BTreeMap;

/// Writes the text of `verify`: all lines with `quiet` 0, the last two with 1, else none. Returns the
/// status that goes with it.
pub fn write_verify_text<W: Sink>(
    alloc: Global,
    quiet: u8,
    files: &[Scanned],
    set: &RecoverySet,
    findings: &Findings,
    writer: &mut BlockWriter<'_, W>,
) -> Result<Status, RunFault>
    requires states { length findings.now.states ≡ length set.now.files }
    requires slices { length findings.now.found ≡ length set.now.slices }
    ensures text { Writes W.state writer.old writer.new
        (findings_text quiet set.now (names_of files.now) findings.now) result }
    ensures status { IfOk result (λ status. status ≡ status_of set.now findings.now) }
{
    let need = findings.need();
    let have = set.have();
    let status = status_from(findings.states.as_slice(), need, have);
    match quiet {
        0 => {
            write_states(alloc, files, set, findings, writer)?;
            write_results(need, have, status, writer)
        }
        1 => write_results(need, have, status, writer),
        _ => Ok(status),
    }
}

// Writes the line of the set, and one for each file.
fn write_states<W: Sink>(
    alloc: Global,
    files: &[Scanned],
    set: &RecoverySet,
    findings: &Findings,
    writer: &mut BlockWriter<'_, W>,
) -> Result<(), RunFault>
    requires states { length findings.now.states ≡ length set.now.files }
    requires slices { length findings.now.found ≡ length set.now.slices }
    ensures { Writes W.state writer.old writer.new
        (states_text set.now (names_of files.now) findings.now) result }
{
    let counts = found_counts(alloc, set.slices(), findings.found.as_slice())?;
    write_set_line(set, writer)?;
    let states = findings.states.as_slice();
    write_files(files, set.size(), set.files(), states, &counts, writer)
}

// Writes a line for each file.
fn write_files<W: Sink>(
    names: &[Scanned],
    size: u64,
    files: &[SetFile],
    states: &[State],
    counts: &BTreeMap<Hash16, u64>,
    writer: &mut BlockWriter<'_, W>,
) -> Result<(), RunFault>
    requires size { 0 < size }
    requires states { length states.now ≡ length files.now }
    ensures { Writes W.state writer.old writer.new (flat_map (counted_line size (names_of names.now)
        (λ id. unwrap_or (get id_cmp counts.now id) 0)) (zip files.now states.now)) result }
{
    for (index, file) in files.iter().enumerate() {
        write_file(names, size, file, states[index], counts, writer)?;
    }
    Ok(())
}

// Writes the line of a file in this state.
fn write_file<W: Sink>(
    names: &[Scanned],
    size: u64,
    file: &SetFile,
    state: State,
    counts: &BTreeMap<Hash16, u64>,
    writer: &mut BlockWriter<'_, W>,
) -> Result<(), RunFault>
    requires { 0 < size }
    ensures { Writes W.state writer.old writer.new (counted_line size (names_of names.now)
        (λ id. unwrap_or (get id_cmp counts.now id) 0) (file.now, state)) result }
{
    let found = count_at(counts, file.id);
    let all = file.length.div_ceil(size);
    let mut text = writer.take_buffer();
    append_file(&mut text, names, file.name.as_slice(), found, all, state)?;
    writer.put_back(text)
}

// Appends the line of a file of this name and state; `found` of its `all` slices are found.
fn append_file(
    text: &mut String,
    names: &[Scanned],
    name: &[u8],
    found: u64,
    all: u64,
    state: State,
) -> Result<(), AllocError>
    ensures { OnOk result (string_bytes text.new ≡ string_bytes text.old
        ++ state_line (names_of names.now) name.now found all state) }
{
    match state {
        State::Complete => append_complete(text, name),
        State::Renamed(index) => append_renamed(text, name, scanned_name(names, index)),
        State::Damaged => append_damaged(text, name, found, all),
        State::Missing => append_missing(text, name, found, all),
    }
}

// Appends the line of a complete file.
#[tactic(auto, unfolding(crate::specs::VerifyText::complete_line))]
fn append_complete(text: &mut String, name: &[u8]) -> Result<(), AllocError>
    ensures { OnOk result (string_bytes text.new
        ≡ string_bytes text.old ++ complete_line name.now) }
{
    writeln!(text, "complete {}", Shown(name))
}

// Appends the line of a renamed file, with the name of the scanned file that has its content.
#[tactic(auto, unfolding(crate::specs::VerifyText::renamed_line))]
fn append_renamed(text: &mut String, name: &[u8], other: &[u8]) -> Result<(), AllocError>
    ensures { OnOk result (string_bytes text.new
        ≡ string_bytes text.old ++ renamed_line name.now other.now) }
{
    writeln!(text, "renamed {} from {}", Shown(name), Shown(other))
}

// Appends the line of a damaged file.
#[tactic(auto, unfolding(crate::specs::VerifyText::damaged_line))]
fn append_damaged(text: &mut String, name: &[u8], found: u64, all: u64) -> Result<(), AllocError>
    ensures { OnOk result (string_bytes text.new
        ≡ string_bytes text.old ++ damaged_line name.now found all) }
{
    writeln!(text, "damaged {} {found}/{all}", Shown(name))
}

// Appends the line of a missing file.
#[tactic(auto, unfolding(crate::specs::VerifyText::missing_line))]
fn append_missing(text: &mut String, name: &[u8], found: u64, all: u64) -> Result<(), AllocError>
    ensures { OnOk result (string_bytes text.new
        ≡ string_bytes text.old ++ missing_line name.now found all) }
{
    writeln!(text, "missing {} {found}/{all}", Shown(name))
}

// Writes the last two lines, and gives the status that goes with them.
fn write_results<W: Sink>(
    need: usize,
    have: u32,
    status: Status,
    writer: &mut BlockWriter<'_, W>,
) -> Result<Status, RunFault>
    ensures text { Writes W.state writer.old writer.new (result_text need have status) result }
    ensures status { IfOk result (λ told. told ≡ status) }
{
    let mut text = writer.take_buffer();
    append_results(&mut text, need, have, status)?;
    writer.put_back(text)?;
    Ok(status)
}

// Appends the last two lines.
#[tactic(auto, unfolding(crate::specs::VerifyText::result_text))]
fn append_results(
    text: &mut String,
    need: usize,
    have: u32,
    status: Status,
) -> Result<(), AllocError>
    ensures { OnOk result (string_bytes text.new
        ≡ string_bytes text.old ++ result_text need have status) }
{
    append_need(text, need, have)?;
    append_result(text, status)
}

// Appends how many slices are needed, and how many recovery slices there are.
#[tactic(auto, unfolding(crate::specs::VerifyText::need_line))]
fn append_need(text: &mut String, need: usize, have: u32) -> Result<(), AllocError>
    ensures { OnOk result (string_bytes text.new
        ≡ string_bytes text.old ++ need_line need have) }
{
    writeln!(text, "need {need} have {have}")
}

// Appends the result.
#[tactic(auto, unfolding(crate::specs::VerifyText::result_line))]
fn append_result(text: &mut String, status: Status) -> Result<(), AllocError>
    ensures { OnOk result (string_bytes text.new ≡ string_bytes text.old ++ result_line status) }
{
    writeln!(text, "result {}", status_word(status))
}

// Returns the word of a status.
fn status_word(status: Status) -> &'static str
    ensures { result.now ≡ status_word status }
{
    match status {
        Status::Listed => "listed",
        Status::Complete => "complete",
        Status::Possible => "possible",
        Status::Impossible => "impossible",
    }
}
