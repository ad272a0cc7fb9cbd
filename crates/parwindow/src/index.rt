ghost use Rattle.std.specs.Prelude.{◌≡◌, ◌==◌, ℕ, ◌^◌, ◌-◌, ◌<◌, ◌≤◌, ◌%◌, ◌↔◌, filter, length, map, zip, slice_get, slice_index, IfOk, IfSome, IsTrue};
ghost use Rattle.std.specs.List.{list_any};
ghost use Rattle.std.specs.Option.{IsSomeAnd};
ghost use Rattle.parwindow.specs.Index.{IsSliceSet, slice_set_of, slice_passes, has_own, has_sums, has_known_crc, has_known_sums, set_has_crc, set_has_fit, set_has_own_crc, tails_of};
ghost use Rattle.parwindow.specs.Entries.{IsIndexOf};
ghost use Rattle.parwindow.specs.FilterBits.{zeros_crc};
ghost use Rattle.parwindow.specs.Indexed.{IsShortest};
ghost use Rattle.parwindow.specs.Least.{IsLeastFrom};
ghost use Rattle.parwindow.specs.LowSets.{HasLow};
ghost use Rattle.parset.specs.Limits.{slice_size_limit, slice_limit};
ghost use Rattle.parwindow.specs.Missing.{missing_set, set_has_fit_crc, set_has_missing, set_has_own_missing, unless_found};
ghost use Rattle.parwindow.specs.Window.{AreTails};

use crate::crcs::{ZeroRun, ZeroRuns};
use crate::rolling::RegisterSet;
use crate::slices::{BloomFilter, Entries, LowSet, LowSets, OwnLengths, tail_lengths};
use parfield::{Hash16, Sequence};
use parset::{RecoverySet, SetSlice};
use std::alloc::{AllocError, Global};
use std::marker::Model;

/// The slices of a recovery set, which are looked up by number and by their checksums.
#[derive(Drop)]
pub struct Index {
    size: u64,
    slices: Sequence<SetSlice>,
    filter: BloomFilter,
    tail_filter: BloomFilter,
    lows: LowSets,
    entries: Entries,
    lengths: OwnLengths,
    shortest: Option<u64>,
    tails: Sequence<usize>,
}

impl Model for Index {
    ghost use Rattle.parwindow.specs.Index.{SliceSet, slice_set_of};

    ghost Value = { SliceSet };

    ghost use Rattle.parwindow.specs.Indexed.{IsIndexed};

    ghost view = { λ i. slice_set_of i.size i.slices };

    ghost invariant = { IsIndexed };
}

impl RegisterSet for Index {
    ghost use Rattle.std.specs.Prelude.{bit_xor};
    ghost use Rattle.parwindow.specs.Index.{set_has_crc};

    ghost has = { λ set register. set_has_crc set (bit_xor register 0xFFFFFFFF) };

    fn has(&self, register: u32) -> bool {
        self.has_crc(register ^ 0xFFFF_FFFF)
    }
}

impl Index {
    /// Makes the index of a recovery set. No other call except `missing` takes memory.
    pub fn new(alloc: Global, set: &RecoverySet) -> Result<Index, AllocError>
        ensures { IfOk result (λ index. index ≡ slice_set_of set.now.size set.now.slices) }
    {
        let slices = Vec::from_slice(alloc, set.slices())?;
        let entries = Entries::of(alloc, &slices)?;
        Index::of(alloc, set.size(), slices, entries)
    }

    /// Makes an index of the same slices, in which those that are found have no checksums, so that
    /// nothing looks for them. `found` has a flag for each slice, by number.
    pub fn missing(&self, alloc: Global, found: &[bool]) -> Result<Index, AllocError>
        requires { length found.now ≡ length self.now.slices }
        ensures { IfOk result (λ index. index ≡ missing_set self.now found.now) }
    {
        let slices = each_unless_found(alloc, self.slices.as_slice(), found)?;
        let entries = self.entries.missing(alloc, found)?;
        Index::of(alloc, self.size(), slices, entries)
    }

    // Makes the index of these slices, with this slice size and these entries.
    fn of(
        alloc: Global,
        size: u64,
        slices: Vec<SetSlice>,
        entries: Entries,
    ) -> Result<Index, AllocError>
        requires set { IsSliceSet (slice_set_of size slices.items) }
        requires entries { IsIndexOf slices.items entries.list.items }
        ensures { IfOk result (λ index. index ≡ slice_set_of size slices.items) }
    {
        let tails = tail_lengths(alloc, size, &slices)?;
        let runs = ZeroRuns::new(alloc)?;
        Ok(Index {
            size,
            filter: BloomFilter::of(alloc, &slices)?,
            tail_filter: BloomFilter::of_tails(alloc, &runs, size, &slices)?,
            lows: LowSets::of(alloc, &runs, size, &slices)?,
            entries,
            lengths: OwnLengths::of(alloc, &slices)?,
            shortest: shortest_of(&slices),
            tails: Sequence::from_vec(tails),
            slices: Sequence::from_vec(slices),
        })
    }

    /// Returns the slice size in bytes.
    pub fn size(&self) -> u64
        ensures size { result ≡ self.now.slice_size }
        ensures least { 4 ≤ result }
        ensures greatest { result ≤ slice_size_limit }
        ensures multiple { result % 4 ≡ 0 }
        ensures set { IsSliceSet self.now }
    {
        self.size
    }

    /// Returns the number of slices.
    pub fn slices(&self) -> u32
        ensures slices { result ≡ length self.now.slices }
        ensures few { result ≤ slice_limit }
    {
        self.slices.len() as u32
    }

    /// Returns the unpadded length of a slice in bytes.
    pub fn own_length(&self, slice: u32) -> u64
        requires { slice < length self.now.slices }
        ensures own { IsSomeAnd (slice_get self.now.slices slice) (λ own. result ≡ own.length) }
        ensures some { 0 < result }
        ensures within { result ≤ self.now.slice_size }
    {
        self.slices.as_slice()[slice as usize].length
    }

    /// Whether the checksums of a slice are known.
    pub fn has_sums(&self, slice: u32) -> bool
        requires { slice < length self.now.slices }
        ensures { result ≡ slice_passes self.now.slices has_known_sums slice }
    {
        self.slices.as_slice()[slice as usize].sums.is_some()
    }

    /// Whether some slice with known checksums has an unpadded length of at most `left` bytes.
    pub fn fits(&self, left: u64) -> bool
        ensures { result ≡ set_has_fit self.now left }
    {
        self.shortest.is_some_and(|least| least <= left)
    }

    /// Returns the number of short-slice lengths.
    pub fn tails(&self) -> u32
        ensures { result ≡ length (tails_of self.now) }
    {
        self.tails.len() as u32
    }

    /// Returns short-slice length number `k`; number 0 is the least.
    pub fn tail(&self, k: u32) -> u64
        requires { k < length (tails_of self.now) }
        ensures { result ≡ slice_index (tails_of self.now) k }
    {
        self.tail_lengths()[k as usize] as u64
    }

    /// Lends all short-slice lengths, the least one first.
    pub fn tail_lengths(&self) -> &[usize]
        ensures all { result.now ≡ tails_of self.now }
        ensures tails { AreTails self.now.slice_size result.now }
    {
        self.tails.as_slice()
    }

    /// Whether `own` is a short-slice length.
    pub(crate) fn has_tail(&self, own: usize) -> bool
        ensures { result ≡ list_any (λ tail. tail == own) (tails_of self.now) }
    {
        self.tail_lengths().iter().any(|tail| *tail == own)
    }

    /// Whether some slice has this CRC-32.
    pub fn has_crc(&self, crc: u32) -> bool
        ensures { result ≡ set_has_crc self.now crc }
    {
        self.filter.may_have(crc ^ 0xFFFF_FFFF) && self.entries.has_crc(crc)
    }

    /// Whether some slice has this CRC-32 and an unpadded length of at most `left` bytes.
    pub fn has_fit_crc(&self, crc: u32, left: u64) -> bool
        ensures { result ≡ set_has_fit_crc self.now crc left }
    {
        self.has_crc(crc) && self.lengths.has(crc, left)
    }

    /// Whether some slice has this CRC-32 and this unpadded length.
    pub fn has_crc_of(&self, crc: u32, own: u64) -> bool
        ensures { result ≡ set_has_own_crc self.now crc own }
    {
        self.has_crc(crc) && self.lengths.has_exactly(crc, own)
    }

    /// Whether some slice that isn't found has this CRC-32 and an unpadded length of at
    /// most `left` bytes. `found` has a flag for each slice, by number. Goes over the
    /// slices with this CRC-32 once.
    pub fn is_missing(&self, crc: u32, left: u64, found: &[bool]) -> bool
        requires { length found.now ≡ length self.now.slices }
        ensures { result ≡ set_has_missing self.now found.now crc left }
    {
        self.entries
            .is_missing(self.slices.as_slice(), crc, left, found)
    }

    /// Whether the same holds for some slice whose unpadded length is `own`.
    pub fn is_missing_of(&self, crc: u32, own: u64, left: u64, found: &[bool]) -> bool
        requires { length found.now ≡ length self.now.slices }
        ensures { result ≡ set_has_own_missing self.now found.now crc own left }
    {
        self.entries
            .is_missing_of(self.slices.as_slice(), crc, own, left, found)
    }

    /// Returns the first slice, from number `from` on, that has this CRC-32.
    pub fn next_crc(&self, crc: u32, from: u32) -> Option<u32>
        ensures found { IsLeastFrom (slice_passes self.now.slices (has_known_crc crc)) from result }
        ensures there { IfSome result (λ n. n < length self.now.slices) }
    {
        self.entries.next_crc(crc, from)
    }

    /// Returns the number of slices that have this CRC-32.
    pub fn count_crc(&self, crc: u32) -> u32
        ensures count { result ≡ length (filter (has_known_crc crc) self.now.slices) }
        ensures few { result ≤ slice_limit }
    {
        self.entries.count_crc(crc) as u32
    }

    /// Whether zeros up to the slice size may turn this register into the CRC-32 of a short slice.
    /// If it returns false, they don't.
    pub(crate) fn may_have_tail(&self, register: u32) -> bool
        ensures { (own : ℕ) → own < self.now.slice_size
            → IsTrue (set_has_own_crc self.now
            (zeros_crc (self.now.slice_size - own) register) own) → IsTrue result }
    {
        self.tail_filter.may_have(register)
    }

    /// Whether these zeros turn this register into the CRC-32 of a slice of this unpadded
    /// length. It is asked only if `may_have_tail` returned true, which is rare, so it isn't
    /// inlined into the loops.
    #[inline(never)]
    pub(crate) fn has_tail_register(&self, register: u32, zeros: &ZeroRun, own: usize) -> bool
        ensures { result ≡ set_has_own_crc self.now (zeros_crc zeros.now.len register) own }
    {
        self.has_crc_of(zeros.apply(register) ^ 0xFFFF_FFFF, own as u64)
    }

    /// Lends the set of the low bytes of registers that zeros up to the slice size turn into the
    /// CRC-32 of a slice of this unpadded length.
    pub(crate) fn low_set(&self, own: usize) -> &LowSet
        requires { own < self.now.slice_size }
        ensures { (register : ℕ) → register < 2 ^ 32 → IsTrue (set_has_own_crc self.now
            (zeros_crc (self.now.slice_size - own) register) own) → HasLow result.now register }
    {
        self.lows.of_length(own as u32)
    }

    /// Returns the first slice, from number `from` on, that has both checksums.
    pub fn next_match(&self, crc: u32, digest: Hash16, from: u32) -> Option<u32>
        ensures found { IsLeastFrom (slice_passes self.now.slices (has_sums (digest, crc)))
            from result }

        // It is the number of a slice, and there are few slices.
        ensures there { IfSome result (λ n. n < length self.now.slices) }
        ensures few { length self.now.slices ≤ slice_limit }
    {
        self.entries.next_match(crc, digest, from)
    }

    /// Returns the first slice, from number `from` on, that has both checksums and
    /// this unpadded length.
    pub fn next_match_of(&self, crc: u32, digest: Hash16, own: u64, from: u32) -> Option<u32>
        ensures found { IsLeastFrom
            (slice_passes self.now.slices (has_own own (has_sums (digest, crc)))) from result }

        // It is the number of a slice, and there are few slices.
        ensures there { IfSome result (λ n. n < length self.now.slices) }
        ensures few { length self.now.slices ≤ slice_limit }
    {
        let mut next = from;
        while let Some(slice) = self.next_match(crc, digest, next) {
            if self.own_length(slice) == own {
                return Some(slice);
            }
            next = slice + 1;
        }
        None
    }
}

// Copies the slices; those that are found lose their checksums.
fn each_unless_found(
    alloc: Global,
    slices: &[SetSlice],
    found: &[bool],
) -> Result<Vec<SetSlice>, AllocError>
    requires { length found.now ≡ length slices.now }
    ensures { IfOk result (λ list. list.items ≡ map unless_found (zip slices.now found.now)) }
{
    let mut list = Vec::with_capacity(alloc, slices.len())?;
    for (number, slice) in slices.iter().enumerate() {
        list.push(unless_found(slice, found[number]))?;
    }
    Ok(list)
}

// Copies a slice, without its checksums if it is found.
fn unless_found(slice: &SetSlice, found: bool) -> SetSlice
    ensures { result ≡ unless_found (slice.now, found) }
{
    if found {
        SetSlice {
            sums: None,
            ..*slice
        }
    } else {
        *slice
    }
}

// Returns the least unpadded length of the slices with known checksums.
fn shortest_of(slices: &[SetSlice]) -> Option<u64>
    ensures { IsShortest slices.now result }
{
    let mut shortest = None;
    for slice in slices {
        if slice.sums.is_some() {
            shortest = Some(shortest.unwrap_or(slice.length).min(slice.length));
        }
    }
    shortest
}
