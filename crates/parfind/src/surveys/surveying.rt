ghost use Rattle.std.specs.Prelude.{◌≡◌, ◌+◌, ◌≤◌, ◌<◌, ℕ, List, length, IfErr, IfOk};
ghost use Rattle.parshelf.specs.Shelf.{ReadsAs};
ghost use Rattle.parfind.specs.Handover.{HandsEachOnce, HandsInMode, SkipsUnfit};
ghost use Rattle.parfind.specs.Marks.{missing_count};
ghost use Rattle.parfind.specs.Steps.{scan_of};
ghost use Rattle.parfind.specs.Surveys.{SurveyFinds, FindsUpToFault, KeepsFound, AreAllSettled, StopsOnceFound, ReadsNamed, SurveyLeaves, SurveyTellsTails, survey_point};
ghost use Rattle.parwindow.specs.Missing.{missing_set};
ghost use Rattle.parfind.specs.Smaller.{IsPart, part_of};
ghost use Rattle.parfind.specs.Sought.{HasFewTails, IsWindowFor, sought_of};
ghost use Rattle.parfind.specs.declared.surveys.surveying.SurveyFault.TheVariants.{Memory, Read};
ghost use Rattle.parfind.specs.declared.tracks.mode.Mode.TheVariants.{Plain};

use crate::surveys::rounds::survey_twice;
use crate::surveys::short::Short;
use crate::surveys::smaller::Smaller;
use crate::surveys::walk::{next_missing, survey_by};
use crate::tracks::{Mode, Sought, has_too_many_tails};
use parshelf::{ReadFault, Shelf};
use parwindow::{Index, Window};
use std::alloc::{AllocError, Global};

/// Why a survey didn't find all slices that have a sighting. Too many tails are reported before any
/// memory is taken, and refused memory before any read.
#[derive(Clone, Copy, Debug, PartialEq, Eq)]
pub enum SurveyFault {
    /// The file of this number could not be read.
    Read(u32, ReadFault),
    /// Memory was refused.
    Memory,
    /// More than 256 short-slice lengths would be compared, whichever slices are found.
    TooManyTails,
}

impl From<AllocError> for SurveyFault {
    ghost from_gives = { λ _ fault. fault ≡ Memory };

    fn from(_error: AllocError) -> SurveyFault {
        SurveyFault::Memory
    }
}

impl From<(u32, ReadFault)> for SurveyFault {
    ghost from_gives = { λ named fault. fault ≡ Read named.0 named.1 };

    fn from(named: (u32, ReadFault)) -> SurveyFault {
        SurveyFault::Read(named.0, named.1)
    }
}

/// Finds each slice of the set that has a sighting. `found` has a flag for each slice, by number;
/// the survey sets those of the slices that it sees, and clears none. It looks only for slices that
/// aren't found at the call and have checksums, and ends when it has found them all. It takes
/// memory for a window, and for a second index if some slices are found at the call and others
/// aren't, or in `Mode::Tails`. If content repeats, it makes another index on its way, without the
/// slices that it has found. If memory for that is refused, it goes on without it. It takes no
/// memory if there is nothing to look for.
pub fn survey<H: Shelf>(
    alloc: Global,
    index: &Index,
    shelf: &mut H,
    found: &mut [bool],
    mode: Mode,
) -> Result<(), SurveyFault>
    requires { length found.old ≡ length index.now.slices }

    // The slices that are found, in any files that are consistent with the reads.
    ensures found { (files : List (List ℕ)) → ReadsAs (H.state shelf.new) files →
        SurveyFinds (scan_of (sought_of index.now mode) files) found.old found.new result }
    ensures stops { mode ≡ Plain → (files : List (List ℕ)) → ReadsAs (H.state shelf.new) files →
        StopsOnceFound (scan_of (sought_of index.now mode) files)
        (H.state shelf.old) (H.state shelf.new) found.old }

    // Whatever the reads returned.
    ensures kept { KeepsFound found.old found.new }
    ensures leaves { SurveyLeaves (survey_point (H.state shelf.old) found.old)
        (survey_point (H.state shelf.new) found.new) result }
    ensures tails { SurveyTellsTails (sought_of index.now mode) result }
    ensures handed { HandsInMode mode (H.state shelf.old) (H.state shelf.new) }
    ensures unfit { SkipsUnfit (missing_set index.now found.old)
        (H.state shelf.old) (H.state shelf.new) }
    ensures none { AreAllSettled index.now found.old → H.state shelf.new ≡ H.state shelf.old }
{
    if has_too_many_tails(index, mode) {
        return Err(SurveyFault::TooManyTails);
    }
    let sought = Sought { index, mode };
    if next_missing(&sought, found, 0) == found.len() {
        return Ok(());
    }
    match mode {
        Mode::Plain => {
            let mut smaller = first_smaller(alloc, index, found)?;
            survey_once(alloc, index, &mut smaller, shelf, found)
        }
        Mode::Tails => survey_twice(alloc, index, shelf, found),
    }
}

// Makes an index without the slices that are found, if some are.
fn first_smaller(alloc: Global, index: &Index, found: &[bool]) -> Result<Smaller, AllocError>
    requires { length found.now ≡ length index.now.slices }
    ensures { IfOk result (λ smaller. IsPart index.now found.now (part_of index.now smaller.index)) }
{
    let none = Smaller::none_yet(alloc, found);
    if none.left_out == 0 {
        return Ok(none);
    }
    let index = Some(index.missing(alloc, found)?);
    Ok(Smaller { index, ..none })
}

// Finds each slice of the set that has a sighting in `Mode::Plain`.
fn survey_once<H: Shelf>(
    alloc: Global,
    index: &Index,
    smaller: &mut Smaller,
    shelf: &mut H,
    found: &mut [bool],
) -> Result<(), SurveyFault>
    requires each { length found.old ≡ length index.now.slices }
    requires part { IsPart index.now found.old (part_of index.now smaller.old.index) }
    ensures found { (files : List (List ℕ)) → ReadsAs (H.state shelf.new) files →
        SurveyFinds (scan_of (sought_of index.now Plain) files) found.old found.new result }
    ensures stops { (files : List (List ℕ)) → ReadsAs (H.state shelf.new) files →
        StopsOnceFound (scan_of (sought_of index.now Plain) files)
        (H.state shelf.old) (H.state shelf.new) found.old }
    ensures kept { KeepsFound found.old found.new }
    ensures leaves { SurveyLeaves (survey_point (H.state shelf.old) found.old)
        (survey_point (H.state shelf.new) found.new) result }
    ensures tails { SurveyTellsTails (sought_of index.now Plain) result }
    ensures handed { HandsEachOnce (H.state shelf.old) (H.state shelf.new) }
    ensures unfit { SkipsUnfit (missing_set index.now found.old)
        (H.state shelf.old) (H.state shelf.new) }
{
    let sought = Sought {
        index,
        mode: Mode::Plain,
    };
    let mut window = Window::new(alloc, index.size() as usize)?;
    let mut short = Short::nowhere(index);
    survey_by(&sought, smaller, shelf, &mut window, found, &mut short)?;
    Ok(())
}

/// Finds each slice of the set that has a sighting, as `survey` does, but with a window of the
/// caller and without taking memory. An error comes with the number of its file. No more MD5s are
/// taken than there are pairs of a place and a compared length at which a slice that fits and isn't
/// found at the call has the CRC-32. Nothing is read further than a window and 4,096 bytes after
/// the place by which each slice with checksums is found.
pub fn survey_in<H: Shelf>(
    index: &Index,
    shelf: &mut H,
    window: &mut Window,
    found: &mut [bool],
    mode: Mode,
) -> Result<(), (u32, ReadFault)>
    requires made { IsWindowFor (sought_of index.now mode) window.old }
    requires each { length found.old ≡ length index.now.slices }

    // The slices that are found, in any files that are consistent with the reads.
    ensures found { (files : List (List ℕ)) → ReadsAs (H.state shelf.new) files →
        SurveyFinds (scan_of (sought_of index.now mode) files) found.old found.new result }
    ensures so_far { IfErr result (λ fault. FindsUpToFault (sought_of index.now mode)
        (survey_point (H.state shelf.old) found.old) (survey_point (H.state shelf.new) found.new)
        fault.0) }

    // How much is read and hashed, in any such files.
    ensures stops { (files : List (List ℕ)) → ReadsAs (H.state shelf.new) files →
        StopsOnceFound (scan_of (sought_of index.now mode) files)
        (H.state shelf.old) (H.state shelf.new) found.old }
    ensures digests { (files : List (List ℕ)) → ReadsAs (H.state shelf.new) files →
        window.new.digests ≤ window.old.digests
        + missing_count (scan_of (sought_of index.now mode) files) found.old }

    // Whatever the reads returned.
    ensures kept { KeepsFound found.old found.new }
    ensures shelf { ReadsNamed (H.state shelf.old) (H.state shelf.new) result }
    ensures handed { HandsEachOnce (H.state shelf.old) (H.state shelf.new) }
    ensures unfit { SkipsUnfit (missing_set index.now found.old)
        (H.state shelf.old) (H.state shelf.new) }
    ensures none { AreAllSettled index.now found.old → H.state shelf.new ≡ H.state shelf.old }
    ensures window { window.new ≡ record window.old {
      content = window.new.content;
      digests = window.new.digests;
    } }
{
    survey_by(
        &Sought { index, mode },
        &mut Smaller::none(),
        shelf,
        window,
        found,
        &mut Short::nowhere(index),
    )
}
