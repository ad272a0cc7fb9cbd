ghost use Rattle.std.specs.Prelude.{◌≡◌, ◌&&◌, ◌||◌, ℕ, List, map, length, slice_index, All, IsTrue, IfOk, OnOk, IfErr};
ghost use Rattle.std.specs.BTreeSet.{contains};
ghost use Rattle.std.specs.List.{enumerate_from, list_any};
ghost use Rattle.std.specs.Str.{bytes_eq};
ghost use Rattle.parfield.specs.HashOrder.{id_cmp};
ghost use Rattle.parshelf.specs.Reads.{ReadsOnly};
ghost use Rattle.parshelf.specs.Shelf.{ReadsAs};
ghost use Rattle.parwindow.specs.Index.{slice_set_of};
ghost use Rattle.parfind.specs.Sought.{HasFewTails};
ghost use Rattle.parfind.specs.Surveys.{is_sighted, StopsOnceFound};
ghost use Rattle.parfind.specs.declared.tracks.mode.Mode.TheVariants.{Plain};
ghost use Rattle.parshelf.specs.Reads.{HandsPerFile};
ghost use Rattle.parreport.specs.Costs.{searched_length_of};
ghost use Rattle.parreport.specs.Outcomes.{FaultTells};
ghost use Rattle.parreport.specs.States.{is_intact};
ghost use Rattle.parreport.specs.Findings.{need_of, is_in_whole_file, needs_no_search, set_scan_of};
ghost use Rattle.parreport.specs.SetSearch.{set_sought_of};

use crate::faults::RunFault;
use crate::states::state::State;
use parfield::Hash16;
use parfind::{Mode, survey};
use parset::{RecoverySet, SetFile, SetSlice};
use parshelf::Shelf;
use parwindow::Index;
use std::alloc::{AllocError, Global};
use std::collections::BTreeSet;

/// Returns the IDs of the files that are complete or renamed.
pub fn intact_ids(
    alloc: Global,
    files: &[SetFile],
    states: &[State],
) -> Result<BTreeSet<Hash16>, AllocError>
    requires { length states.now ≡ length files.now }
    ensures { IfOk result (λ whole. (state_at : SetFile → State)
        → states.now ≡ map state_at files.now
        → (id : Hash16) → contains id_cmp whole id
        ≡ list_any (λ file. bytes_eq file.id.0 id.0 && is_intact (state_at file)) files.now) }
{
    let mut whole = BTreeSet::new(alloc);
    for (index, file) in files.iter().enumerate() {
        add_if_intact(&mut whole, file.id, states[index])?;
    }
    Ok(whole)
}

// Adds the ID of a file in this state, if it is complete or renamed.
fn add_if_intact(whole: &mut BTreeSet<Hash16>, id: Hash16, state: State) -> Result<(), AllocError>
    ensures { OnOk result ((q : Hash16) → contains id_cmp whole.new q
        ≡ (contains id_cmp whole.old q || (bytes_eq id.0 q.0 && is_intact state))) }
{
    if state.is_intact() {
        whole.insert(id)?;
    }
    Ok(())
}

/// Returns which slices are found: those of the files in `whole`, and those that have a sighting.
/// Files are searched until each slice of another file that has known checksums is found. If there
/// is no such slice, nothing is read.
pub fn found_slices<Q: Shelf>(
    alloc: Global,
    set: &RecoverySet,
    index: &Index,
    mode: Mode,
    whole: &BTreeSet<Hash16>,
    shelf: &mut Q,
) -> Result<Vec<bool>, RunFault>
    requires index { index.now ≡ slice_set_of set.now.size set.now.slices }
    requires few { HasFewTails (set_sought_of set.now mode) }

    // In any files that are consistent with the reads.
    ensures found { (files : List (List ℕ)) → ReadsAs (Q.state shelf.new) files
        → IfOk result (λ found. found.items ≡ map (λ slice. contains id_cmp whole.now slice.1.id
        || is_sighted (set_scan_of set.now mode files) slice.0)
        (enumerate_from 0 set.now.slices)) }
    ensures stops { mode ≡ Plain → (files : List (List ℕ)) → ReadsAs (Q.state shelf.new) files
        → StopsOnceFound (set_scan_of set.now mode files) (Q.state shelf.old) (Q.state shelf.new)
        (map (is_in_whole_file whole.now) set.now.slices) }

    // Whatever the reads returned.
    ensures slices { IfOk result (λ found. length found.items ≡ length set.now.slices) }
    ensures handed { HandsPerFile
        (λ file. searched_length_of set.now mode (slice_index (Q.state shelf.old).lengths file))
        (Q.state shelf.old) (Q.state shelf.new) }
    ensures none { All (λ slice. IsTrue (needs_no_search whole.now slice)) set.now.slices →
        Q.state shelf.new ≡ Q.state shelf.old }
    ensures ok { OnOk result (ReadsOnly (Q.state shelf.old) (Q.state shelf.new)) }
    ensures fault { IfErr result (FaultTells (Q.state shelf.old) (Q.state shelf.new)) }
{
    let mut found = slices_of_whole_files(alloc, set.slices(), whole)?;
    survey(alloc, index, shelf, &mut found, mode)?;
    Ok(found)
}

// Returns a flag for each slice: whether its file is one of `whole`.
fn slices_of_whole_files(
    alloc: Global,
    slices: &[SetSlice],
    whole: &BTreeSet<Hash16>,
) -> Result<Vec<bool>, AllocError>
    ensures { IfOk result (λ marks. marks.items ≡ map (is_in_whole_file whole.now) slices.now) }
{
    slices
        .iter()
        .map(|slice| whole.contains(&slice.id))
        .collect(alloc)
}

/// Returns how many slices are not found.
pub fn need_of(found: &[bool]) -> usize
    ensures { result ≡ need_of found.now }
{
    found.iter().filter(|found| !**found).count()
}
