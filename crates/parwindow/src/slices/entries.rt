ghost use Rattle.std.specs.Prelude.{◌≡◌, ℕ, ◌<◌, ◌≤◌, All, List, filter, length, IfOk, IsSorted};
ghost use Rattle.std.specs.List.{list_any};
ghost use Rattle.parset.specs.declared.recovery_set.SetSlice.{SetSlice};
ghost use Rattle.parwindow.specs.Index.{has_known_crc, has_sums, slice_passes, slice_set_of};
ghost use Rattle.parwindow.specs.Least.{IsLeastFrom};
ghost use Rattle.parset.specs.Limits.{slice_limit};
ghost use Rattle.parwindow.specs.Directory.{AreStarts};
ghost use Rattle.parwindow.specs.Entries.{entry_cmp, entry_has_crc, HasAllOf, IsFloor, IsIndexOf, IsLeastOf, is_between, is_open, is_unfound, lesser};
ghost use Rattle.parwindow.specs.Missing.{set_has_missing, set_has_own_missing};

use crate::slices::directory::{part_of, starts_of};
use parfield::Hash16;
use parset::SetSlice;
use std::alloc::{AllocError, Global};

/// Both checksums of a slice, and its number last. Entries are compared in this order.
#[derive(Clone, Copy, PartialEq, Eq, PartialOrd, Ord)]
pub struct Entry {
    pub crc: u32,
    pub digest: [u8; 16],
    pub slice: u32,
}

/// The entries of the slices with known checksums, in their order.
#[derive(Drop)]
pub struct Entries {
    pub list: Vec<Entry>,
    /// The index of the first entry of each key.
    pub starts: Vec<u16>,
    ghost rises: { IsSorted entry_cmp list.items },
    ghost parts: { AreStarts list.items starts.items },
    ghost few: { length list.items ≤ slice_limit },
}

impl Entries {
    /// Makes the entries of these slices.
    pub fn of(alloc: Global, slices: &[SetSlice]) -> Result<Entries, AllocError>
        requires { length slices.now ≤ slice_limit }
        ensures { IfOk result (λ entries. IsIndexOf slices.now entries.list.items) }
    {
        let mut list = listed(alloc, slices)?;
        list.sort_unstable();
        let starts = starts_of(alloc, &list)?;
        Ok(Entries { list, starts })
    }

    /// Returns the entries of the slices that aren't found. `found` has a flag for
    /// each slice, by number.
    pub fn missing(&self, alloc: Global, found: &[bool]) -> Result<Entries, AllocError>
        requires { All (λ e. e.slice < length found.now) self.now.list.items }
        ensures { IfOk result (λ entries.
            entries.list.items ≡ filter (is_unfound found.now) self.now.list.items) }
    {
        let list = unfound(alloc, &self.list, found)?;
        let starts = starts_of(alloc, &list)?;
        Ok(Entries { list, starts })
    }

    // Finds the entries that have this CRC-32, which are side by side.
    fn with_crc(&self, crc: u32) -> &[Entry]
        ensures all { result.now ≡ filter (entry_has_crc crc) self.now.list.items }
        ensures sorted { IsSorted entry_cmp result.now }
    {
        with_crc_in(part_of(&self.list, &self.starts, crc), crc)
    }

    /// Whether some slice has this CRC-32. The filter lets nearly no register come here, so this
    /// isn't inlined into the loop that rolls.
    #[inline(never)]
    pub fn has_crc(&self, crc: u32) -> bool
        ensures { (slices : List SetSlice) → IsIndexOf slices self.now.list.items
            → result ≡ list_any (has_known_crc crc) slices }
    {
        self.count_crc(crc) > 0
    }

    /// Returns the first slice, from number `from` on, that has this CRC-32.
    pub fn next_crc(&self, crc: u32, from: u32) -> Option<u32>
        ensures { (slices : List SetSlice) → IsIndexOf slices self.now.list.items
            → IsLeastFrom (slice_passes slices (has_known_crc crc)) from result }
    {
        least_from(self.with_crc(crc), from)
    }

    /// Returns the number of slices that have this CRC-32.
    pub fn count_crc(&self, crc: u32) -> usize
        ensures { (slices : List SetSlice) → IsIndexOf slices self.now.list.items
            → result ≡ length (filter (has_known_crc crc) slices) }
    {
        self.with_crc(crc).len()
    }

    /// Returns the first slice, from number `from` on, that has both checksums.
    pub fn next_match(&self, crc: u32, digest: Hash16, from: u32) -> Option<u32>
        ensures { (slices : List SetSlice) → IsIndexOf slices self.now.list.items
            → IsLeastFrom (slice_passes slices (has_sums (digest, crc))) from result }
    {
        next_match_in(self.with_crc(crc), crc, digest, from)
    }

    /// Whether some slice that isn't found has this CRC-32 and an unpadded length of
    /// at most `left` bytes.
    pub fn is_missing(&self, slices: &[SetSlice], crc: u32, left: u64, found: &[bool]) -> bool
        requires indexed { IsIndexOf slices.now self.now.list.items }
        requires each { length found.now ≡ length slices.now }
        ensures { (size : ℕ)
            → result ≡ set_has_missing (slice_set_of size slices.now) found.now crc left }
    {
        has_open(self.with_crc(crc), slices, 0, left, found)
    }

    /// Whether the same holds for some slice whose unpadded length is `own`.
    pub fn is_missing_of(
        &self,
        slices: &[SetSlice],
        crc: u32,
        own: u64,
        left: u64,
        found: &[bool],
    ) -> bool
        requires indexed { IsIndexOf slices.now self.now.list.items }
        requires each { length found.now ≡ length slices.now }
        ensures { (size : ℕ)
            → result ≡ set_has_own_missing (slice_set_of size slices.now) found.now crc own left }
    {
        own <= left && has_open(self.with_crc(crc), slices, own, own, found)
    }
}

// Lists the entries of these slices, in the order of the slices.
fn listed(alloc: Global, slices: &[SetSlice]) -> Result<Vec<Entry>, AllocError>
    requires { length slices.now ≤ slice_limit }
    ensures index { IfOk result (λ list. IsIndexOf slices.now list.items) }
    ensures few { IfOk result (λ list. length list.items ≤ length slices.now) }
{
    let mut list = Vec::with_capacity(alloc, slices.len())?;
    for (number, slice) in slices.iter().enumerate() {
        if let Some((hash, crc)) = slice.sums {
            let digest = hash.0;
            list.push(Entry {
                crc,
                digest,
                slice: number as u32,
            })?;
        }
    }
    Ok(list)
}

// Returns the entries of the slices that aren't found, in their order.
fn unfound(alloc: Global, entries: &[Entry], found: &[bool]) -> Result<Vec<Entry>, AllocError>
    requires { All (λ e. e.slice < length found.now) entries.now }
    ensures { IfOk result (λ list. list.items ≡ filter (is_unfound found.now) entries.now) }
{
    let mut list = Vec::with_capacity(alloc, entries.len())?;
    for entry in entries {
        if !found[entry.slice as usize] {
            list.push(*entry)?;
        }
    }
    Ok(list)
}

// Finds the index of the first entry that is not below the wanted one.
fn first_not_below(entries: &[Entry], wanted: &Entry) -> usize
    requires { IsSorted entry_cmp entries.now }
    ensures { IsFloor entries.now wanted.now result }
{
    match entries.binary_search(wanted) {
        Ok(at) => at,
        Err(at) => at,
    }
}

// Finds the first slice of these entries, from number `from` on, that has both checksums.
fn next_match_in(entries: &[Entry], crc: u32, digest: Hash16, from: u32) -> Option<u32>
    requires { IsSorted entry_cmp entries.now }
    ensures { (slices : List SetSlice) → HasAllOf slices crc digest.0 entries.now
        → IsLeastFrom (slice_passes slices (has_sums (digest, crc))) from result }
{
    let wanted = Entry {
        crc,
        digest: digest.0,
        slice: from,
    };
    match entries.get(first_not_below(entries, &wanted)) {
        Some(entry) if entry.crc == crc && entry.digest == digest.0 => Some(entry.slice),
        _ => None,
    }
}

// Finds the entries that have this CRC-32, among some that are sorted.
fn with_crc_in(entries: &[Entry], crc: u32) -> &[Entry]
    requires { IsSorted entry_cmp entries.now }
    ensures all { result.now ≡ filter (entry_has_crc crc) entries.now }
    ensures sorted { IsSorted entry_cmp result.now }
{
    let rest = &entries[entries.partition_point(|entry| entry.crc < crc)..];
    &rest[..rest.partition_point(|entry| entry.crc == crc)]
}

// Returns the least slice number of these entries, from `from` on.
fn least_from(entries: &[Entry], from: u32) -> Option<u32>
    ensures { IsLeastOf entries.now from result }
{
    let mut least = None;
    for entry in entries {
        least = lesser(from, least, entry.slice);
    }
    least
}

// Returns the smaller one of a number and the least so far, if the number is `from` or greater;
// else the least so far.
fn lesser(from: u32, least: Option<u32>, number: u32) -> Option<u32>
    ensures { result ≡ lesser from least number }
{
    match least {
        _ if number < from => least,
        Some(other) => Some(other.min(number)),
        None => Some(number),
    }
}

// Whether the slice of one of these entries isn't found, and its unpadded length is from
// `least` to `most` bytes.
fn has_open(entries: &[Entry], slices: &[SetSlice], least: u64, most: u64, found: &[bool]) -> bool
    requires there { All (λ e. e.slice < length slices.now) entries.now }
    requires each { length found.now ≡ length slices.now }
    ensures { result
        ≡ list_any (is_open slices.now found.now (is_between least most)) entries.now }
{
    for entry in entries {
        let slice = entry.slice as usize;
        let length = slices[slice].length;
        if !found[slice] && least <= length && length <= most {
            return true;
        }
    }
    false
}
