ghost use Rattle.std.specs.Prelude.{◌≡◌, length, count_by, false, None, Some};
ghost use Rattle.parfind.specs.Smaller.{IsPart, part_of};
ghost use Rattle.parfind.specs.declared.tracks.mode.Mode.TheVariants.{Tails};

use crate::tracks::{Mode, Sought};
use parwindow::Index;
use std::alloc::Global;

/// The smaller index with which a survey goes on, if it has one: slices that are found have no
/// checksums in it. There is at most one at a time.
#[derive(Drop)]
pub struct Smaller {
    pub index: Option<Index>,
    /// How many slices were found when the index was made.
    pub left_out: usize,
    /// The allocator for another index, if one may be made.
    pub alloc: Option<Global>,
}

impl Smaller {
    /// Makes a state without a smaller index, which never gets one.
    pub fn none() -> Smaller
        ensures { result.index ≡ None }
    {
        Smaller {
            index: None,
            left_out: 0,
            alloc: None,
        }
    }

    /// Makes a state without a smaller index, which may get one once more slices are found than now.
    pub fn none_yet(alloc: Global, found: &[bool]) -> Smaller
        ensures index { result.index ≡ None }
        ensures left_out { result.left_out ≡ count_by (λ flag. flag) found.now }
        ensures alloc { result.alloc ≡ Some alloc }
    {
        Smaller {
            index: None,
            left_out: found.iter().filter(|found| **found).count(),
            alloc: Some(alloc),
        }
    }

    /// Returns the smaller index, or the index of all slices if there is none.
    pub fn or<'a>(&'a self, all: &'a Index) -> &'a Index
        ensures { result.now ≡ part_of all.now self.now.index }
    {
        self.index.as_ref().unwrap_or(all)
    }

    /// Makes an index without the slices that are found, in place of the one before, if more are
    /// found than then. If memory is refused, the survey goes on with the index of all slices.
    /// Returns whether the survey has to look up windows again. Nothing changes if no index may be
    /// made, or in `Mode::Tails`: the window was made for the lengths of the index that is there.
    pub fn shrink(&mut self, all: &Sought, found: &[bool]) -> bool
        requires each { length found.now ≡ length all.now.set.slices }
        requires part { IsPart all.now.set found.now (part_of all.now.set self.old.index) }
        ensures part { IsPart all.now.set found.now (part_of all.now.set self.new.index) }
        ensures tails { all.now.mode ≡ Tails → self.new.index ≡ self.old.index }
        ensures same { result ≡ false → self.new.index ≡ self.old.index }
    {
        let count = found.iter().filter(|found| **found).count();
        if count == self.left_out {
            return false;
        }
        if let (Some(alloc), Mode::Plain) = (self.alloc, all.mode) {
            self.left_out = count;
            // The old index goes first, so that there are never two of them.
            self.index = None;
            self.index = all.index.missing(alloc, found).ok();
            return true;
        }
        false
    }
}
