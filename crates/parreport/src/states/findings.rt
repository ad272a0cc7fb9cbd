ghost use Rattle.std.specs.Prelude.{◌≡◌, ℕ, List, length, slice_index, IfOk, OnOk, IfErr};
ghost use Rattle.parshelf.specs.Reads.{ReadsOnly};
ghost use Rattle.parshelf.specs.Shelf.{ReadsAs};
ghost use Rattle.parshelf.specs.Reads.{HandsPerFile};
ghost use Rattle.parreport.specs.Contents.{ReadsCandidates};
ghost use Rattle.parreport.specs.Costs.{verified_length_of};
ghost use Rattle.parreport.specs.Outcomes.{FaultTells};
ghost use Rattle.parreport.specs.States.{named_files};
ghost use Rattle.parreport.specs.Findings.{findings_of, NeedsNoSearch};
ghost use Rattle.parreport.specs.SetSearch.{set_sought_of};
ghost use Rattle.parfind.specs.Sought.{HasFewTails};
ghost use Rattle.parwindow.specs.Index.{slice_set_of};

use crate::faults::RunFault;
use crate::states::contents::contents;
use crate::states::found::{found_slices, intact_ids, need_of};
use crate::states::state::{State, states};
use parfield::Sequence;
use parfind::Mode;
use parplan::Scanned;
use parset::RecoverySet;
use parshelf::Shelf;
use parwindow::Index;
use std::alloc::Global;

/// The findings on a recovery set in the scanned files.
#[derive(Debug, Drop)]
pub(crate) struct Findings {
    /// The state of each file of the set, by ID.
    pub states: Sequence<State>,
    /// Whether each slice is found, by number.
    pub found: Sequence<bool>,
}

impl Findings {
    ghost use Rattle.parreport.specs.Findings.{need_of};

    /// Returns how many slices are not found.
    pub fn need(&self) -> usize
        ensures { result ≡ need_of self.now.found }
    {
        need_of(self.found.as_slice())
    }
}

/// Returns the findings on a set in the files on the shelf, which have these names. Files with the
/// length of a file of the set are read whole. Then all are searched for the slices that are not
/// found yet, unless no such slice has known checksums.
pub(crate) fn findings_on<Q: Shelf>(
    alloc: Global,
    files: &[Scanned],
    set: &RecoverySet,
    index: &Index,
    mode: Mode,
    shelf: &mut Q,
) -> Result<Findings, RunFault>
    requires named { length (Q.state shelf.old).lengths ≡ length files.now }
    requires index { index.now ≡ slice_set_of set.now.size set.now.slices }
    requires few { HasFewTails (set_sought_of set.now mode) }

    // The findings are those in any files that are consistent with the reads.
    ensures findings { (contents : List (List ℕ)) → ReadsAs (Q.state shelf.new) contents
        → IfOk result (λ findings.
        findings ≡ findings_of set.now mode (named_files files.now contents)) }

    // If no slice needs a search, in files that are consistent with the reads, no search is made.
    ensures unsearched { (contents : List (List ℕ)) → ReadsAs (Q.state shelf.new) contents
        → NeedsNoSearch set.now (named_files files.now contents)
        → ReadsCandidates set.now.files (Q.state shelf.old) (Q.state shelf.new) }

    // Whatever the reads returned.
    ensures states { IfOk result (λ findings. length findings.states ≡ length set.now.files) }
    ensures slices { IfOk result (λ findings. length findings.found ≡ length set.now.slices) }
    ensures handed { HandsPerFile
        (λ file. verified_length_of set.now mode (slice_index (Q.state shelf.old).lengths file))
        (Q.state shelf.old) (Q.state shelf.new) }
    ensures ok { OnOk result (ReadsOnly (Q.state shelf.old) (Q.state shelf.new)) }
    ensures fault { IfErr result (FaultTells (Q.state shelf.old) (Q.state shelf.new)) }
{
    let set_files = set.files();
    let contents = contents(alloc, set_files, shelf)?;
    let states = states(alloc, files, &contents, set_files)?;
    let whole = intact_ids(alloc, set_files, states.as_slice())?;
    let found = found_slices(alloc, set, index, mode, &whole, shelf)?;
    Ok(Findings {
        states: Sequence::from_vec(states),
        found: Sequence::from_vec(found),
    })
}
