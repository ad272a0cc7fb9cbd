ghost use Rattle.std.specs.Prelude.{◌≡◌, ◌+◌, ◌<◌, ◌≤◌, length, true, false, IfSome};
ghost use Rattle.std.specs.List.{list_any};
ghost use Rattle.parfield.specs.Md5.{md5};
ghost use Rattle.parset.specs.Limits.{slice_limit};
ghost use Rattle.parwindow.specs.Crc32.{crc_of};
ghost use Rattle.parwindow.specs.Index.{slice_passes};
ghost use Rattle.parwindow.specs.Least.{IsLeastFrom};
ghost use Rattle.parwindow.specs.Missing.{has_fit_crc_of, has_unfound};
ghost use Rattle.parwindow.specs.Window.{AreTails};
ghost use Rattle.parfind.specs.Fitting.{is_fitting_match};
ghost use Rattle.parfind.specs.KeptDigests.{IsFullFor};
ghost use Rattle.parfind.specs.Sought.{HasFewTails, is_compared, compared_bytes, compared_lengths, nth_compared, shorter_lengths, sought_of};

use crate::tracks::mode::Mode;
use parfield::Hash16;
use parwindow::{Index, Window};
use std::marker::Model;

/// How many compared lengths may be shorter than the window.
pub(crate) const MOST_TAILS: usize = 256;

/// The slices that are looked for, and the mode in which they are compared.
#[derive(Drop)]
pub(crate) struct Sought<'a> {
    pub index: &'a Index,
    pub mode: Mode,
}

impl<'a> Model for Sought<'a> {
    ghost use Rattle.parfind.specs.Sought.{Sought, sought_of};

    ghost Value = { Sought };

    ghost view = { λ s. sought_of s.index.now s.mode };
}

impl<'a> Sought<'a> {
    /// Returns the compared lengths that are shorter than the window, in rising order.
    pub fn shorter_lengths(&self) -> &'a [usize]
        ensures all { result.now ≡ shorter_lengths self.now.mode self.now.set }
        ensures tails { AreTails self.now.set.slice_size result.now }
    {
        match self.mode {
            Mode::Plain => &[],
            Mode::Tails => self.index.tail_lengths(),
        }
    }

    /// Returns how many lengths of a window are compared: the shorter ones, and its whole length.
    pub fn count_lengths(&self) -> usize
        ensures { result ≡ length (compared_lengths self.now) }
    {
        self.shorter_lengths().len() + 1
    }

    /// Returns compared length number `k`, counted from 0.
    pub fn length_at(&self, k: usize) -> u64
        requires { k < length (compared_lengths self.now) }
        ensures { result ≡ nth_compared self.now k }
    {
        let tails = self.shorter_lengths();
        if k < tails.len() {
            tails[k] as u64
        } else {
            self.index.size()
        }
    }

    /// Returns the CRC-32 of a full window at compared length `k`.
    pub fn crc_at(&self, window: &Window, k: usize) -> u32
        requires there { k < length (compared_lengths self.now) }
        requires full { IsFullFor self.now window.now }
        ensures { result ≡ crc_of (compared_bytes window.now.content (nth_compared self.now k)) }
    {
        if k < self.shorter_lengths().len() {
            window.tail_crc(k)
        } else {
            window.crc()
        }
    }

    /// Takes and returns the MD5 of a full window at compared length `k`.
    pub fn digest_at(&self, window: &mut Window, k: usize) -> Hash16
        requires there { k < length (compared_lengths self.now) }
        requires full { IsFullFor self.now window.old }
        ensures digest { result.0 ≡ md5 (compared_bytes window.old.content (nth_compared self.now k)) }
        ensures counted { window.new ≡ record window.old { digests = window.old.digests + 1 } }
    {
        if k < self.shorter_lengths().len() {
            window.tail_digest(k)
        } else {
            window.digest()
        }
    }

    /// Whether some slice of compared length `k` has this CRC-32 and fits into the `left` bytes of
    /// the file.
    pub fn has_fitting_crc(&self, k: usize, crc: u32, left: u64) -> bool
        requires { k < length (compared_lengths self.now) }
        ensures { result ≡ list_any (is_compared self.now (nth_compared self.now k)
            (has_fit_crc_of crc left)) self.now.set.slices }
    {
        match self.mode {
            Mode::Plain => self.index.has_fit_crc(crc, left),
            Mode::Tails => {
                let own = self.length_at(k);
                own <= left && self.index.has_crc_of(crc, own)
            }
        }
    }

    /// Whether some such slice isn't found yet.
    pub fn is_missing_at(&self, k: usize, crc: u32, left: u64, found: &[bool]) -> bool
        requires there { k < length (compared_lengths self.now) }
        requires each { length found.now ≡ length self.now.set.slices }
        ensures { result ≡ has_unfound self.now.set.slices found.now
            (is_compared self.now (nth_compared self.now k) (has_fit_crc_of crc left)) }
    {
        match self.mode {
            Mode::Plain => self.index.is_missing(crc, left, found),
            Mode::Tails => self
                .index
                .is_missing_of(crc, self.length_at(k), left, found),
        }
    }

    /// Returns the first slice from a number on that has compared length `k` and both checksums,
    /// and fits into the `left` bytes of the file.
    pub fn first_match_at(
        &self,
        k: usize,
        sums: (Hash16, u32),
        left: u64,
        first: u32,
    ) -> Option<u32>
        requires { k < length (compared_lengths self.now) }
        ensures first { IsLeastFrom (slice_passes self.now.set.slices
            (is_compared self.now (nth_compared self.now k) (is_fitting_match sums left)))
            first result }
        ensures there { IfSome result (λ n. n < length self.now.set.slices) }
        ensures few { length self.now.set.slices ≤ slice_limit }
    {
        match self.mode {
            Mode::Plain => first_fitting_match(self.index, sums, left, first),
            Mode::Tails => {
                let own = self.length_at(k);
                let found = self.index.next_match_of(sums.1, sums.0, own, first);
                if own <= left { found } else { None }
            }
        }
    }
}

/// Whether a mode compares more than 256 lengths that are shorter than the window. A window has room
/// for no more.
pub fn has_too_many_tails(index: &Index, mode: Mode) -> bool
    ensures many { result ≡ true → ¬ HasFewTails (sought_of index.now mode) }
    ensures few { result ≡ false → HasFewTails (sought_of index.now mode) }
{
    let sought = Sought { index, mode };
    sought.shorter_lengths().len() > MOST_TAILS
}

// Returns the first slice from a number on that has both checksums and fits into the `left` bytes
// of the file.
fn first_fitting_match(index: &Index, sums: (Hash16, u32), left: u64, first: u32) -> Option<u32>
    ensures first { IsLeastFrom (slice_passes index.now.slices (is_fitting_match sums left))
        first result }
    ensures there { IfSome result (λ n. n < length index.now.slices) }
    ensures few { length index.now.slices ≤ slice_limit }
{
    let mut from = first;
    loop {
        match index.next_match(sums.1, sums.0, from) {
            None => return None,
            Some(slice) => {
                if index.own_length(slice) <= left {
                    return Some(slice);
                }
                from = slice + 1;
            }
        }
    }
}
