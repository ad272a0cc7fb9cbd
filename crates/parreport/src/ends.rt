ghost use Rattle.std.specs.Prelude.{◌≡◌, map, option_map, slice_get};
ghost use Rattle.parreport.specs.Ends.{argument_of, run_end_of, open_end_of};
ghost use Rattle.parplan.specs.Commands.{scanned_paths_of};

use crate::faults::RunFault;
use crate::status::Status;
use parfield::Text;
use parplan::{Plan, PlanFault, Scanned, files_to_scan};
use parshelf::OpenFault;

/// The ends of the program.
#[derive(Clone, Copy, Debug, PartialEq, Eq)]
pub enum End {
    /// The run ended without an error, with this status.
    Status(Status),
    /// The arguments are no plan.
    Plan(PlanFault),
    /// A file on the command line can't be opened.
    CannotOpen,
    /// Memory was refused before the run, or while files were opened.
    Memory,
    /// The run failed before its whole text was written.
    Run(RunFault),
}

/// Returns the end of a run, and the argument that it is about.
pub fn run_end(plan: &Plan, answer: Result<Status, RunFault>) -> (End, Option<&Text>)
    ensures { (result.0, option_map (λ file. file.now) result.1) ≡ run_end_of plan.now answer }
{
    match answer {
        Ok(status) => (End::Status(status), None),
        Err(fault) => (End::Run(fault), argument_of(plan, fault)),
    }
}

/// Returns the end of a run whose packet files can't all be opened, and the argument that it is
/// about.
pub(crate) fn unopened_packets(plan: &Plan, why: OpenFault) -> (End, Option<&Text>)
    ensures { (result.0, option_map (λ file. file.now) result.1)
        ≡ open_end_of plan.now.packets why }
{
    match why {
        OpenFault::CannotOpen(file) => (End::CannotOpen, plan.packets.as_slice().get(file)),
        OpenFault::Memory => (End::Memory, None),
    }
}

/// Returns the end of a run whose scanned files can't all be opened, and the argument that it is
/// about.
pub(crate) fn unopened_scanned(plan: &Plan, why: OpenFault) -> (End, Option<&Text>)
    ensures { (result.0, option_map (λ file. file.now) result.1)
        ≡ open_end_of (scanned_paths_of plan.now) why }
{
    match why {
        OpenFault::CannotOpen(file) => (End::CannotOpen, path_at(files_to_scan(plan), file)),
        OpenFault::Memory => (End::Memory, None),
    }
}

// Returns the argument that a fault of a run is about, if it is about one.
fn argument_of(plan: &Plan, fault: RunFault) -> Option<&Text>
    ensures { option_map (λ file. file.now) result ≡ argument_of plan.now fault }
{
    let RunFault::Read { packet, file, .. } = fault else {
        return None;
    };
    if packet {
        return plan.packets.as_slice().get(file as usize);
    }
    path_at(plan.scanned.as_slice(), file as usize)
}

// Returns the path of one of these files, by its number.
fn path_at(files: &[Scanned], file: usize) -> Option<&Text>
    ensures { option_map (λ path. path.now) result
        ≡ slice_get (map (λ file. file.path) files.now) file }
{
    match files.get(file) {
        Some(file) => Some(&file.path),
        None => None,
    }
}
