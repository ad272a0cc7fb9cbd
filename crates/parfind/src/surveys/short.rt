ghost use Rattle.std.specs.Prelude.{◌≡◌, ℕ, ◌<◌, ◌≤◌, ◌+◌, ◌^◌, ◌||◌, ◌⊎◌, length, nat_lt, replicate, true, false, IfOk, IsTrue, None, Some};
ghost use Rattle.parwindow.specs.Index.{has_known_sums, has_own, has_sums, set_has_fit, slice_passes, sums_of};
ghost use Rattle.parwindow.specs.Missing.{found_at, missing_set};
ghost use Rattle.parwindow.specs.Window.{zero_filled};
ghost use Rattle.parfind.specs.Fitting.{is_fitting_compared};
ghost use Rattle.parfind.specs.declared.tracks.mode.Mode.TheVariants.{Tails};

use crate::surveys::expected::Expected;
use crate::surveys::file_starts::{FileStarts, is_filled_up};
use crate::surveys::noted::Noted;
use parwindow::{Index, Window};
use std::alloc::{AllocError, Global};
use std::marker::Model;

/// The short slices that a survey looks for only at few places: right after the slice before each
/// of them, and, if a slice is a whole file, at the places at which files may begin.
#[derive(Drop)]
pub struct Short<'a> {
    /// The index of all slices.
    all: &'a Index,
    /// A flag for each slice, by number: whether it was seen at such a place. Without flags, no
    /// slice is expected.
    seen: Option<Vec<bool>>,
    /// The places at which files that are shorter than a slice may begin.
    starts: FileStarts,
    /// The slices before this number are no missing files that are shorter than a slice.
    first: u32,
    /// Whether such a file is missing.
    waits: bool,
}

impl<'a> Model for Short<'a> {
    ghost use Rattle.parfind.specs.Expecting.{ShortState};
    ghost use Rattle.parfind.specs.ShortFields.{short_view};

    ghost Value = { ShortState };

    ghost view = { short_view };
}

impl<'a> Short<'a> {
    ghost use Rattle.parfind.specs.Expecting.{SeesMore, flags_of, is_strict};

    /// Makes a state in which no slice is expected anywhere.
    pub fn nowhere(all: &'a Index) -> Short<'a>
        ensures { result ≡ record { set = all.now; seen = None } }
    {
        Short {
            all,
            seen: None,
            starts: FileStarts::of(0),
            first: 0,
            waits: false,
        }
    }

    /// Makes a state in which each short slice is expected after the slice before it, and none is
    /// seen yet.
    pub fn of(alloc: Global, all: &'a Index) -> Result<Short<'a>, AllocError>
        ensures { IfOk result (λ short. short ≡ record {
          set = all.now;
          seen = Some (replicate (length all.now.slices) false);
        }) }
    {
        let seen = vec![in alloc; false; all.slices() as usize]?;
        Ok(Short {
            all,
            seen: Some(seen),
            starts: FileStarts::of(all.size()),
            first: 0,
            waits: false,
        })
    }

    /// Notes as found each slice that was seen.
    pub fn note(&self, found: &mut [bool])
        ensures { (n : ℕ) → n < length found.old → found_at found.new n
            ≡ (found_at found.old n || found_at (flags_of self.now.seen) n) }
    {
        if let Some(seen) = &self.seen {
            let most = found.len().min(seen.len());
            for n in 0..most {
                found[n] = found[n] || seen[n];
            }
        }
    }

    /// Looks in the full window at an offset for the slices that are expected there, and for files
    /// that may begin there: the window has to begin with the slice, by both checksums, and the
    /// slice has to fit into the `left` bytes of the scanned file.
    pub fn look(&mut self, expected: &mut Expected, window: &mut Window, offset: u64, left: u64)
        requires sized { window.old.capacity ≡ self.old.set.slice_size }
        requires full { length window.old.content ≡ window.old.capacity }
        ensures strict { IsTrue (is_strict self.old) → window.new ≡ window.old }
        ensures window { window.new ≡ record window.old { digests = window.new.digests } }
        ensures seen { SeesMore window.old.content left self.old self.new }
        ensures fewer { expected.new.count ≤ expected.old.count }
    {
        while let Some((place, slice)) = expected.next_until(offset) {
            if place == offset {
                self.look_for(window, slice, offset, left);
            }
        }
        if self.waits && self.starts.is_at(offset) && self.starts.pays(self.all.size()) {
            self.look_for_files(window, offset, left);
        }
    }

    /// Returns the slice size.
    pub fn size(&self) -> u64
        ensures size { result ≡ self.now.set.slice_size }
        ensures some { 0 < result }
    {
        self.all.size()
    }

    /// Goes to the beginning of another scanned file.
    pub fn enter_file(&mut self)
        ensures { self.new ≡ self.old }
    {
        self.starts.enter();
    }

    /// Returns the number of bytes from an offset to the next place at which a missing file may
    /// begin; the greatest number, if there is none.
    pub fn distance(&mut self, window: &Window, offset: u64) -> u64
        ensures same { self.new ≡ self.old }
        ensures some { 0 < result }
    {
        if !self.waits {
            return u64::MAX;
        }
        self.starts.look_ahead(window, offset);
        self.starts.distance(offset)
    }

    /// Whether a file is missing that is shorter than a slice and whose checksums are known.
    pub fn misses_files(&mut self, found: &[bool]) -> bool
        requires each { length found.now ≡ length self.old.set.slices }
        ensures same { self.new ≡ self.old }
        ensures strict { IsTrue (is_strict self.old) → result ≡ false }
        ensures fits { IsTrue result → IsTrue (set_has_fit (missing_set self.old.set found.now)
            self.old.set.slice_size) }
    {
        self.waits = false;
        if let Some(seen) = &self.seen {
            self.first = next_file(self.all, found, seen, self.first);
            self.waits = self.first < self.all.slices();
        }
        self.waits
    }

    // Notes as seen the short slices with which the window begins.
    fn look_for_files(&mut self, window: &mut Window, offset: u64, left: u64)
        requires sized { window.old.capacity ≡ self.old.set.slice_size }
        requires full { length window.old.content ≡ window.old.capacity }
        ensures strict { IsTrue (is_strict self.old) → window.new ≡ window.old }
        ensures window { window.new ≡ record window.old { digests = window.new.digests } }
        ensures seen { SeesMore window.old.content left self.old self.new }
    {
        let size = self.all.size();
        if let Some(seen) = &mut self.seen {
            let mut from = 0;
            while let Some(own) = window.next_tail(self.all, from) {
                from = own + 1;
                if own as u64 > left || !self.starts.pays(size) {
                    return;
                }
                let (some, more) = note_all(self.all, seen, window, own);
                if more {
                    self.starts.earn(size);
                }
                if some {
                    let end = offset.saturating_add(own as u64);
                    self.starts.pass(end, is_filled_up(window, own));
                }
            }
        }
    }

    /// Expects, after each of the slices in `noted`, the next one, if it is a short slice that
    /// wasn't seen and fits into what is left of the file. Then empties `noted`.
    pub fn expect_after(
        &mut self,
        noted: &mut Noted,
        expected: &mut Expected,
        offset: u64,
        left: u64,
    )
        ensures same { self.new ≡ self.old }
        ensures strict { IsTrue (is_strict self.old) → expected.new ≡ expected.old }
    {
        if let Some(seen) = &self.seen {
            let size = self.all.size();
            if !noted.slices().is_empty() {
                self.starts.pass(offset.saturating_add(size), true);
            }
            for &slice in noted.slices() {
                if size < left && is_short_after(self.all, seen, slice, left - size) {
                    expected.expect(offset.saturating_add(size), slice + 1);
                }
            }
        }
        noted.clear();
    }

    // Notes a slice as seen, if the window begins with it.
    fn look_for(&mut self, window: &mut Window, slice: u32, offset: u64, left: u64)
        requires sized { window.old.capacity ≡ self.old.set.slice_size }
        requires full { length window.old.content ≡ window.old.capacity }
        ensures strict { IsTrue (is_strict self.old) → window.new ≡ window.old }
        ensures window { window.new ≡ record window.old { digests = window.new.digests } }
        ensures seen { SeesMore window.old.content left self.old self.new }
    {
        if let Some(seen) = &mut self.seen {
            if (slice as usize) < seen.len() && has_both_sums(self.all, window, slice, left) {
                seen[slice as usize] = true;
                let own = self.all.own_length(slice);
                let end = offset.saturating_add(own);
                self.starts.pass(end, is_filled_up(window, own as usize));
            }
        }
    }
}

// Whether a slice is a whole file that is shorter than a slice and has known checksums: either no
// slice is before it, or that one is short, and so is the last of another file.
fn is_file(all: &Index, slice: u32) -> bool
    requires { slice < length all.now.slices }
    ensures sums { IsTrue result → slice_passes all.now.slices has_known_sums slice ≡ true }
    ensures own { IsTrue result → slice_passes all.now.slices (λ s. nat_lt s.length all.now.slice_size) slice ≡ true }
{
    let size = all.size();
    all.own_length(slice) < size
        && all.has_sums(slice)
        && (slice == 0 || all.own_length(slice - 1) < size)
}

// Returns the first slice from a number on that is such a file, and neither found nor seen; the
// number of all slices, if there is none.
fn next_file(all: &Index, found: &[bool], seen: &[bool], from: u32) -> u32
    requires { length found.now ≡ length all.now.slices }
    ensures { result < length all.now.slices
        → IsTrue (set_has_fit (missing_set all.now found.now) all.now.slice_size) }
{
    let count = all.slices();
    for n in from..count {
        let place = n as usize;
        if place < seen.len() && !seen[place] && !found[place] && is_file(all, n) {
            return n;
        }
    }
    count
}

// Notes as seen each slice of this unpadded length with which the window begins, by both checksums.
// Returns whether there is one, and whether it was noted for the first time. If it was noted
// before, so were all that are equal to it.
fn note_all(all: &Index, seen: &mut [bool], window: &mut Window, own: usize) -> (bool, bool)
    requires sized { window.old.capacity ≡ all.now.slice_size }
    requires own { own ≤ all.now.slice_size }
    ensures window { window.new ≡ record window.old { digests = window.old.digests + 1 } }
    ensures seen { (n : ℕ) → found_at seen.new n ≡ true → (found_at seen.old n ≡ true)
        ⊎ (slice_passes all.now.slices (has_own own
        (has_sums (sums_of (zero_filled all.now.slice_size own window.old.content)))) n ≡ true) }
{
    let crc = window.front_crc(own);
    let digest = window.front_digest(own);
    let mut from = 0;
    let mut more = false;
    while let Some(slice) = all.next_match_of(crc, digest, own as u64, from) {
        let n = slice as usize;
        if n >= seen.len() || seen[n] {
            return (true, more);
        }
        seen[n] = true;
        more = true;
        from = slice + 1;
    }
    (more, more)
}

// Whether the slice after this one is short, wasn't seen, fits into the `left` bytes of the file,
// and has known checksums.
fn is_short_after(all: &Index, seen: &[bool], slice: u32, left: u64) -> bool
    ensures { IsTrue result → slice + 1 < 2 ^ 32 }
{
    let next = slice as usize + 1;
    if next >= all.slices() as usize || next >= seen.len() || seen[next] {
        return false;
    }
    let own = all.own_length(next as u32);
    own < all.size() && own <= left && all.has_sums(next as u32)
}

// Whether the window begins with a slice, by both checksums of the slice's bytes and the zeros that
// fill it up, and the slice fits into the `left` bytes of the file.
fn has_both_sums(all: &Index, window: &mut Window, slice: u32, left: u64) -> bool
    requires sized { window.old.capacity ≡ all.now.slice_size }
    requires full { length window.old.content ≡ window.old.capacity }
    ensures window { window.new ≡ record window.old { digests = window.new.digests } }
    ensures seen { IsTrue result → slice_passes all.now.slices
        (is_fitting_compared Tails window.old.content left) slice ≡ true }
{
    if slice >= all.slices() || all.own_length(slice) > left {
        return false;
    }
    let own = all.own_length(slice) as usize;
    let crc = window.front_crc(own);
    if all.next_crc(crc, slice) != Some(slice) {
        return false;
    }
    let digest = window.front_digest(own);
    all.next_match(crc, digest, slice) == Some(slice)
}
