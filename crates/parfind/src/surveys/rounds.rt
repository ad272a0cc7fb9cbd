ghost use Rattle.std.specs.Prelude.{◌≡◌, ◌||◌, ℕ, List, [], length, IfOk, IfSome, true, false};
ghost use Rattle.parshelf.specs.Shelf.{ReadsAs};
ghost use Rattle.parwindow.specs.Index.{tails_of};
ghost use Rattle.parwindow.specs.Missing.{found_at, missing_set};
ghost use Rattle.parset.specs.Limits.{slice_size_limit};
ghost use Rattle.parfind.specs.Handover.{HandsEachOnce, HandsInMode, SkipsUnfit};
ghost use Rattle.parfind.specs.Rounds.{FirstFinds, IsWithout, SecondFinds, WaitsFor, leaves_out};
ghost use Rattle.parfind.specs.Sought.{HasFewTails, sought_of};
ghost use Rattle.parfind.specs.Steps.{scan_of};
ghost use Rattle.parfind.specs.Surveys.{KeepsFound, SurveyFinds, SurveyLeaves, SurveyTellsTails, ReadsNamed, survey_point};
ghost use Rattle.parfind.specs.declared.tracks.mode.Mode.TheVariants.{Tails};

use crate::surveys::short::Short;
use crate::surveys::smaller::Smaller;
use crate::surveys::surveying::SurveyFault;
use crate::surveys::walk::{least_missing, survey_by};
use crate::tracks::{Mode, Sought};
use parshelf::{ReadFault, Shelf};
use parwindow::{Index, WaitingTails, Window};
use std::alloc::{AllocError, Global};

/// Finds each slice of the set that has a sighting in `Mode::Tails`, in two rounds: full-length
/// slices anywhere, and short ones right after the slice before them or at the beginning of a file;
/// then the short slices that are left.
pub(crate) fn survey_twice<H: Shelf>(
    alloc: Global,
    index: &Index,
    shelf: &mut H,
    found: &mut [bool],
) -> Result<(), SurveyFault>
    requires each { length found.old ≡ length index.now.slices }
    requires few { HasFewTails (sought_of index.now Tails) }
    ensures found { (files : List (List ℕ)) → ReadsAs (H.state shelf.new) files →
        SurveyFinds (scan_of (sought_of index.now Tails) files) found.old found.new result }
    ensures kept { KeepsFound found.old found.new }
    ensures leaves { SurveyLeaves (survey_point (H.state shelf.old) found.old)
        (survey_point (H.state shelf.new) found.new) result }
    ensures tails { SurveyTellsTails (sought_of index.now Tails) result }
    ensures handed { HandsInMode Tails (H.state shelf.old) (H.state shelf.new) }
    ensures unfit { SkipsUnfit (missing_set index.now found.old)
        (H.state shelf.old) (H.state shelf.new) }
{
    let size = index.size() as usize;
    let tails = WaitingTails::new(alloc, size, index.tail_lengths())?;
    let mut window = Window::new(alloc, size)?;
    look_for_full(alloc, index, shelf, &mut window, found)?;
    look_for_rest(alloc, index, tails, shelf, &mut window, found)?;
    Ok(())
}

// Makes the first round.
fn look_for_full<H: Shelf>(
    alloc: Global,
    index: &Index,
    shelf: &mut H,
    window: &mut Window,
    found: &mut [bool],
) -> Result<(), SurveyFault>
    requires each { length found.old ≡ length index.now.slices }
    requires few { HasFewTails (sought_of index.now Tails) }
    requires sized { window.old.capacity ≡ index.now.slice_size }
    ensures found { (files : List (List ℕ)) → ReadsAs (H.state shelf.new) files →
        FirstFinds (scan_of (sought_of index.now Tails) files) found.old found.new result }
    ensures kept { KeepsFound found.old found.new }
    ensures leaves { SurveyLeaves (survey_point (H.state shelf.old) found.old)
        (survey_point (H.state shelf.new) found.new) result }
    ensures tails { SurveyTellsTails (sought_of index.now Tails) result }
    ensures handed { HandsEachOnce (H.state shelf.old) (H.state shelf.new) }
    ensures unfit { SkipsUnfit (missing_set index.now found.old)
        (H.state shelf.old) (H.state shelf.new) }
    ensures window { window.new ≡ record window.old {
      content = window.new.content;
      digests = window.new.digests;
    } }
{
    let size = index.size();
    prove!(window.size() as u64 == size);
    let lost = left_out(alloc, index, found, true)?;
    let whole = index.missing(alloc, &lost)?;
    let mut short = Short::of(alloc, index)?;
    let sought = Sought {
        index: &whole,
        mode: Mode::Plain,
    };
    let mut smaller = Smaller::none_yet(alloc, found);
    let answer = survey_by(&sought, &mut smaller, shelf, window, found, &mut short);
    short.note(found);
    answer?;
    Ok(())
}

// Makes the second round, if a short slice is left, with those of these tails (lengths of short
// slices) that such slices have. If memory is refused, it looks for all slices.
fn look_for_rest<H: Shelf>(
    alloc: Global,
    index: &Index,
    tails: WaitingTails,
    shelf: &mut H,
    window: &mut Window,
    found: &mut [bool],
) -> Result<(), (u32, ReadFault)>
    requires each { length found.old ≡ length index.now.slices }
    requires few { HasFewTails (sought_of index.now Tails) }
    requires sized { window.old.capacity ≡ index.now.slice_size }
    requires waiting { tails ≡ record { size = index.now.slice_size; lengths = tails_of index.now } }
    ensures found { (files : List (List ℕ)) → ReadsAs (H.state shelf.new) files →
        SecondFinds (scan_of (sought_of index.now Tails) files) found.old found.new result }
    ensures kept { KeepsFound found.old found.new }
    ensures shelf { ReadsNamed (H.state shelf.old) (H.state shelf.new) result }
    ensures handed { HandsEachOnce (H.state shelf.old) (H.state shelf.new) }
    ensures unfit { SkipsUnfit (missing_set index.now found.old)
        (H.state shelf.old) (H.state shelf.new) }
{
    let sought = Sought {
        index,
        mode: Mode::Tails,
    };
    if least_missing(&sought, found) >= index.size() {
        return Ok(());
    }
    window.clear();
    match rest_of(alloc, index, found) {
        Ok(rest) => look_by(&rest, tails, shelf, window, found),
        Err(AllocError) => look_by(index, tails, shelf, window, found),
    }
}

// Makes an index of the short slices that are left.
fn rest_of(alloc: Global, index: &Index, found: &[bool]) -> Result<Index, AllocError>
    requires { length found.now ≡ length index.now.slices }
    ensures { IfOk result (λ rest. IsWithout index.now found.now (leaves_out index.now false) rest) }
{
    let lost = left_out(alloc, index, found, false)?;
    index.missing(alloc, &lost)
}

// Finds each slice of an index that has a sighting in `Mode::Tails`. The window is empty, and gets
// those of these tails that are lengths of slices of the index.
fn look_by<H: Shelf>(
    index: &Index,
    tails: WaitingTails,
    shelf: &mut H,
    window: &mut Window,
    found: &mut [bool],
) -> Result<(), (u32, ReadFault)>
    requires each { length found.old ≡ length index.now.slices }
    requires few { HasFewTails (sought_of index.now Tails) }
    requires sized { window.old.capacity ≡ index.now.slice_size }
    requires empty { window.old.content ≡ [] }
    requires waiting { WaitsFor index.now tails }
    ensures found { (files : List (List ℕ)) → ReadsAs (H.state shelf.new) files →
        SurveyFinds (scan_of (sought_of index.now Tails) files) found.old found.new result }
    ensures kept { KeepsFound found.old found.new }
    ensures shelf { ReadsNamed (H.state shelf.old) (H.state shelf.new) result }
    ensures handed { HandsEachOnce (H.state shelf.old) (H.state shelf.new) }
    ensures unfit { SkipsUnfit (missing_set index.now found.old)
        (H.state shelf.old) (H.state shelf.new) }
{
    let mut kept = tails;
    kept.keep_those_of(index);
    window.look_by(kept);
    let sought = Sought {
        index,
        mode: Mode::Tails,
    };
    survey_by(
        &sought,
        &mut Smaller::none(),
        shelf,
        window,
        found,
        &mut Short::nowhere(index),
    )
}

// Returns a flag for each slice: whether it is found, or is short if `short` is true, and
// full-length if it is false.
fn left_out(
    alloc: Global,
    index: &Index,
    found: &[bool],
    short: bool,
) -> Result<Vec<bool>, AllocError>
    requires { length found.now ≡ length index.now.slices }
    ensures each { IfOk result (λ lost. length lost.items ≡ length index.now.slices) }
    ensures lost { IfOk result (λ lost. (n : ℕ) → found_at lost.items n
        ≡ (found_at found.now n || leaves_out index.now short n)) }
{
    let mut lost = Vec::with_capacity(alloc, found.len())?;
    for n in 0..index.slices() {
        let is_short = index.own_length(n) < index.size();
        lost.push(found[n as usize] || is_short == short)?;
    }
    Ok(lost)
}
