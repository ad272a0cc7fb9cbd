ghost use Rattle.std.specs.Prelude.{◌≡◌, ◌≢◌, ◌-◌, ◌<◌, ◌≤◌, ℕ, List, None, Some, Ok, length, option_map, IsTrue, OnOk, IfOk, IfSome, IfNone};
ghost use Rattle.parshelf.specs.Shelf.{ReadsAs};
ghost use Rattle.parfind.specs.Finders.{BelongsTo, GoesAlong, search_of, sought_for, StandsAt};
ghost use Rattle.parfind.specs.declared.searches.finder.Step.TheVariants.{Spent};
ghost use Rattle.parfind.specs.NextPlace.{HasFit, IsAtPlace, IsNextPlace};
ghost use Rattle.parfind.specs.Marks.{marks};
ghost use Rattle.parfind.specs.Moves.{StepMoves, PassesAll, IsWithin, Advances, steps_left};
ghost use Rattle.parfind.specs.OnePass.{CallReads};
ghost use Rattle.parfind.specs.Places.{place_at};
ghost use Rattle.parfind.specs.PlaceVisit.{step_answer, count_of, step_of};
ghost use Rattle.parfind.specs.Points.{search_at};
ghost use Rattle.parfind.specs.Sought.{sought_of};
ghost use Rattle.parfind.specs.Starts.{TellsTails};
ghost use Rattle.parfind.specs.Steps.{StepGives, StepSees, scan_of};

use crate::cursors::{Cursor, Sighting};
use crate::searches::places::{next_place, rest_of};
use crate::searches::start_fault::StartFault;
use crate::tracks::{Digests, Mode, Sought, Track, has_too_many_tails};
use parshelf::{ReadFault, Shelf};
use parwindow::{Index, Window};
use std::alloc::Global;
use std::marker::Model;

/// The result of a step of a search.
#[derive(Clone, Copy, Debug, PartialEq, Eq)]
pub enum Step {
    /// The next sighting.
    Hit(Sighting),
    /// All places of the budget were passed, and no sighting from the cursor on is at any of them.
    Spent,
    /// There is no further sighting.
    Done,
}

// The result of a try of a place.
#[derive(Clone, Copy)]
pub(crate) enum Visit {
    // A sighting at the place.
    Hit(Sighting),
    // This number of places was passed; no sighting from the cursor on is at any of them.
    Passed(u64),
    // No place is left.
    End,
}

/// An open search with a cursor, which goes over each file in one pass.
#[derive(Drop)]
pub struct Finder {
    opening: Cursor,
    cursor: Cursor,
    window: Window,
    track: Track,
    mode: Mode,
    digests: Digests,
}

impl Model for Finder {
    ghost use Rattle.parfind.specs.Finders.{FinderState};
    ghost use Rattle.parfind.specs.Tracks.{fetched_of};

    ghost Value = { FinderState };

    ghost view = { λ f. record {
      cursor = f.cursor;
      opening = f.opening;
      fetched = fetched_of f.track;
      digests = f.window.digests;
      mode = f.mode;
      window = f.window;
      track = f.track;
      kept = f.digests.kept.items;
    } };
}

impl Finder {
    /// Opens a search at a cursor. It takes all memory that it needs, and reads nothing yet.
    pub fn open<H: Shelf>(
        alloc: Global,
        index: &Index,
        shelf: &H,
        at: Cursor,
        mode: Mode,
    ) -> Result<Finder, StartFault>
        ensures cursor { IfOk result (λ finder. finder.cursor ≡ at) }
        ensures opening { IfOk result (λ finder. finder.opening ≡ at) }
        ensures mode { IfOk result (λ finder. finder.mode ≡ mode) }
        ensures fetched { IfOk result (λ finder. finder.fetched ≡ place_at at) }
        ensures digests { IfOk result (λ finder. finder.digests ≡ 0) }
        ensures belongs { IfOk result (λ finder. BelongsTo finder index.now (H.state shelf.now)) }
        ensures tails { TellsTails (sought_of index.now mode) result }
    {
        // Only the contract uses the shelf.
        let _ = shelf;
        if has_too_many_tails(index, mode) {
            return Err(StartFault::TooManyTails);
        }
        let sought = Sought { index, mode };
        let tails = sought.shorter_lengths();
        let window = Window::with_tails(alloc, index.size() as usize, tails)?;
        Ok(Finder {
            opening: at,
            cursor: at,
            window,
            track: Track::new(at.file, at.offset),
            mode,
            digests: Digests::new(alloc, &sought)?,
        })
    }

    /// Returns the cursor of the search.
    pub fn cursor(&self) -> Cursor
        ensures { result ≡ self.now.cursor }
    {
        self.cursor
    }

    /// Returns the next sighting, or `Done` if there is none.
    #[tactic(auto, using(crate::proofs::search_laws::NextCallLaws::reads_near, crate::proofs::search_laws::NextCallLaws::few_digests))]
    pub fn next<H: Shelf>(&mut self, index: &Index, shelf: &mut H) -> Result<Step, ReadFault>
        requires { BelongsTo self.old index.now (H.state shelf.old) }
        ensures belongs { BelongsTo self.new index.now (H.state shelf.new) }

        // The result, the cursor and the shelf, in any files that are consistent with the reads.
        ensures answer { (files : List (List ℕ)) → ReadsAs (H.state shelf.new) files → StepGives
            (scan_of (sought_for index.now self.old) files) None
            (search_at (H.state shelf.old) self.old.cursor) result
            (search_at (H.state shelf.new) self.new.cursor) }

        // Whatever the reads returned: the move, that it comes nearer to the end, and the counts.
        ensures moves { StepMoves (H.state shelf.old).lengths None
            self.old.cursor result self.new.cursor }
        ensures advances { IfOk result (λ step. Advances index.now None
            (search_at (H.state shelf.old) self.old.cursor) step self.new.cursor) }
        ensures along { GoesAlong (H.state shelf.old) (H.state shelf.new)
            self.old self.new result }

        // How much is read, whatever the reads returned, and how many digests are taken.
        ensures reads { CallReads index.now.slice_size
            (search_of (H.state shelf.old) self.old) (search_of (H.state shelf.new) self.new) }
        ensures digests { (files : List (List ℕ)) → ReadsAs (H.state shelf.new) files
            → self.new.digests ≤ marks (scan_of (sought_for index.now self.new) files)
            self.new.opening self.new.cursor }
    {
        self.advance(index, shelf, None)
    }

    /// Returns the next sighting if it is at one of the first `budget` places; `Done` if there is
    /// none and fewer places are ahead; else `Spent`.
    #[tactic(auto, using(crate::proofs::search_laws::NextCallLaws::reads_near, crate::proofs::search_laws::NextCallLaws::few_digests))]
    pub fn step<H: Shelf>(
        &mut self,
        index: &Index,
        shelf: &mut H,
        budget: u64,
    ) -> Result<Step, ReadFault>
        requires budget { 0 < budget }
        requires belongs { BelongsTo self.old index.now (H.state shelf.old) }
        ensures belongs { BelongsTo self.new index.now (H.state shelf.new) }

        // The result, the cursor and the shelf, in any files that are consistent with the reads.
        ensures answer { (files : List (List ℕ)) → ReadsAs (H.state shelf.new) files → StepGives
            (scan_of (sought_for index.now self.old) files) (Some budget)
            (search_at (H.state shelf.old) self.old.cursor) result
            (search_at (H.state shelf.new) self.new.cursor) }

        // Whatever the reads returned: the move, that it comes nearer to the end, and the counts.
        ensures moves { StepMoves (H.state shelf.old).lengths (Some budget)
            self.old.cursor result self.new.cursor }
        ensures advances { IfOk result (λ step. Advances index.now (Some budget)
            (search_at (H.state shelf.old) self.old.cursor) step self.new.cursor) }
        ensures along { GoesAlong (H.state shelf.old) (H.state shelf.new)
            self.old self.new result }

        // How much is read, whatever the reads returned, and how many digests are taken.
        ensures reads { CallReads index.now.slice_size
            (search_of (H.state shelf.old) self.old) (search_of (H.state shelf.new) self.new) }
        ensures digests { (files : List (List ℕ)) → ReadsAs (H.state shelf.new) files
            → self.new.digests ≤ marks (scan_of (sought_for index.now self.new) files)
            self.new.opening self.new.cursor }
    {
        self.advance(index, shelf, Some(budget))
    }

    // Makes a step with a budget of places, or without one.
    fn advance<H: Shelf>(
        &mut self,
        index: &Index,
        shelf: &mut H,
        budget: Option<u64>,
    ) -> Result<Step, ReadFault>
        requires budget { budget ≢ Some 0 }
        requires belongs { BelongsTo self.old index.now (H.state shelf.old) }
        ensures belongs { BelongsTo self.new index.now (H.state shelf.new) }

        ensures answer { (files : List (List ℕ)) → ReadsAs (H.state shelf.new) files → StepGives
            (scan_of (sought_for index.now self.old) files) budget
            (search_at (H.state shelf.old) self.old.cursor) result
            (search_at (H.state shelf.new) self.new.cursor) }

        ensures moves { StepMoves (H.state shelf.old).lengths budget
            self.old.cursor result self.new.cursor }
        ensures advances { IfOk result (λ step. Advances index.now budget
            (search_at (H.state shelf.old) self.old.cursor) step self.new.cursor) }
        ensures along { GoesAlong (H.state shelf.old) (H.state shelf.new)
            self.old self.new result }
    {
        let mut left = budget;
        loop {
            match self.try_place(index, shelf, left)? {
                Visit::Hit(sighting) => return Ok(Step::Hit(sighting)),
                Visit::Passed(count) => {
                    left = budget_left(left, count);
                    if left == Some(0) {
                        return Ok(Step::Spent);
                    }
                }
                Visit::End => return Ok(Step::Done),
            }
        }
    }

    // Tries the first place from the cursor on. Without a hit, passes it and those after it, up to
    // one whose window has a slice's CRC-32; or, if no slice fits into what is left of the file,
    // all that are left of it. Passes at most `left` places.
    fn try_place<H: Shelf>(
        &mut self,
        index: &Index,
        shelf: &mut H,
        left: Option<u64>,
    ) -> Result<Visit, ReadFault>
        requires left { left ≢ Some 0 }
        requires belongs { BelongsTo self.old index.now (H.state shelf.old) }
        ensures belongs { BelongsTo self.new index.now (H.state shelf.new) }

        ensures sees { (files : List (List ℕ)) → ReadsAs (H.state shelf.new) files →
            StepSees (scan_of (sought_for index.now self.old) files)
            self.old.cursor (step_answer result) self.new.cursor }
        ensures moves { StepMoves (H.state shelf.old).lengths (Some (count_of result))
            self.old.cursor (step_answer result) self.new.cursor }
        ensures advances { IfOk result (λ visit. Advances index.now (Some 1)
            (search_at (H.state shelf.old) self.old.cursor) (step_of visit) self.new.cursor) }
        ensures within { IsWithin (count_of result) left }
        ensures along { GoesAlong (H.state shelf.old) (H.state shelf.new)
            self.old self.new result }
    {
        let Some(at) = next_place(shelf, self.cursor) else {
            if self.cursor.file < shelf.count() {
                self.cursor = Cursor {
                    file: shelf.count(),
                    offset: 0,
                    slice: 0,
                };
            }
            return Ok(Visit::End);
        };
        if let Some(count) = self.pass_unfit(index, shelf, at, left) {
            return Ok(Visit::Passed(count));
        }
        self.move_window(index, shelf, at)?;
        self.at_place(index, shelf, left)
    }

    // If no slice fits into what is left of the file, passes its places, at most as many as the
    // budget has, and returns their number; else returns `None`.
    fn pass_unfit<H: Shelf>(
        &mut self,
        index: &Index,
        shelf: &H,
        at: Cursor,
        left: Option<u64>,
    ) -> Option<u64>
        requires left { left ≢ Some 0 }
        requires next { IsNextPlace (H.state shelf.now).lengths self.old.cursor at }
        requires belongs { BelongsTo self.old index.now (H.state shelf.now) }
        ensures belongs { BelongsTo self.new index.now (H.state shelf.now) }

        ensures fits { IfNone result (HasFit index.now (H.state shelf.now).lengths at
            × (self.new ≡ self.old)) }
        ensures sees { (files : List (List ℕ)) → ReadsAs (H.state shelf.now) files →
            IfSome result (λ _. StepSees (scan_of (sought_for index.now self.old) files)
            self.old.cursor (Ok Spent) self.new.cursor) }
        ensures passes { IfSome result (λ count. PassesAll (H.state shelf.now).lengths count
            self.old.cursor self.new.cursor) }
        ensures advances { IfSome result (λ _.
            steps_left index.now (H.state shelf.now).lengths self.new.cursor
            < steps_left index.now (H.state shelf.now).lengths self.old.cursor) }
        ensures within { IfSome result (λ count. IsWithin count left) }
        ensures stays { self.new ≡ record self.old { cursor = self.new.cursor } }
    {
        let rest = rest_of(shelf, at);
        if index.fits(rest) {
            return None;
        }
        let count = rest.min(left.unwrap_or(u64::MAX));
        self.cursor = Cursor {
            file: at.file,
            offset: at.offset + count,
            slice: 0,
        };
        Some(count)
    }

    // Goes to the next place, and brings the window there. If it is there, its digests are kept.
    fn move_window<H: Shelf>(
        &mut self,
        index: &Index,
        shelf: &mut H,
        at: Cursor,
    ) -> Result<(), ReadFault>
        requires next { IsNextPlace (H.state shelf.old).lengths self.old.cursor at }
        requires fits { HasFit index.now (H.state shelf.old).lengths at }
        requires belongs { BelongsTo self.old index.now (H.state shelf.old) }
        ensures belongs { BelongsTo self.new index.now (H.state shelf.new) }
        ensures cursor { self.new.cursor ≡ at }
        ensures stands { StandsAt self.new.track at }
        ensures full { OnOk result (length self.new.window.content ≡ self.new.window.capacity) }
        ensures along { GoesAlong (H.state shelf.old) (H.state shelf.new)
            self.old self.new result }
    {
        // Only the contract uses the index.
        let _ = index;
        self.cursor = at;
        if at.file == self.track.file() && self.window.is_full() {
            return Ok(());
        }
        self.digests.forget();
        self.track.enter_file(&mut self.window, at.file, at.offset);
        self.track.fill(&mut self.window, shelf)
    }

    // Does the work of `try_place` at the cursor's place, with the full window there.
    fn at_place<H: Shelf>(
        &mut self,
        index: &Index,
        shelf: &mut H,
        left: Option<u64>,
    ) -> Result<Visit, ReadFault>
        requires left { left ≢ Some 0 }
        requires file { self.old.cursor.file < length (H.state shelf.old).lengths }
        requires there { IsAtPlace (H.state shelf.old).lengths self.old.cursor }
        requires stands { StandsAt self.old.track self.old.cursor }
        requires full { length self.old.window.content ≡ self.old.window.capacity }
        requires belongs { BelongsTo self.old index.now (H.state shelf.old) }
        ensures belongs { BelongsTo self.new index.now (H.state shelf.new) }

        ensures sees { (files : List (List ℕ)) → ReadsAs (H.state shelf.new) files →
            StepSees (scan_of (sought_for index.now self.old) files)
            self.old.cursor (step_answer result) self.new.cursor }
        ensures moves { StepMoves (H.state shelf.old).lengths (Some (count_of result))
            self.old.cursor (step_answer result) self.new.cursor }
        ensures advances { IfOk result (λ visit. Advances index.now (Some 1)
            (search_at (H.state shelf.old) self.old.cursor) (step_of visit) self.new.cursor) }
        ensures within { IsWithin (count_of result) left }
        ensures along { GoesAlong (H.state shelf.old) (H.state shelf.new)
            self.old self.new result }
    {
        let at = self.cursor;
        let rest = rest_of(shelf, at);
        let sought = Sought {
            index,
            mode: self.mode,
        };
        if let Some(slice) = self
            .digests
            .first_seen(&mut self.window, &sought, rest, at.slice)
        {
            self.cursor.slice = slice + 1;
            let sighting = Sighting {
                file: at.file,
                offset: at.offset,
                slice,
            };
            return Ok(Visit::Hit(sighting));
        }
        let most = left.unwrap_or(u64::MAX);
        let count = self
            .track
            .slide_until_crc(&mut self.window, index, shelf, most)?;
        self.digests.forget();
        self.cursor = Cursor {
            file: at.file,
            offset: at.offset + count,
            slice: 0,
        };
        Ok(Visit::Passed(count))
    }
}

// Returns the rest of a budget after `count` more places.
fn budget_left(budget: Option<u64>, count: u64) -> Option<u64>
    requires { IsWithin count budget }
    ensures { result ≡ option_map (λ places. places - count) budget }
{
    match budget {
        None => None,
        Some(places) => Some(places - count),
    }
}
