ghost use Rattle.std.specs.Prelude.{◌≡◌, ◌+◌, ◌<◌, ◌≤◌, filter, length, IfOk, IsSorted};
ghost use Rattle.parset.specs.Limits.{slice_limit};
ghost use Rattle.parwindow.specs.Directory.{key_count, key_of, entry_has_key, AreStarts, BeginsKey};
ghost use Rattle.parwindow.specs.Entries.{entry_cmp};

use crate::slices::entries::Entry;
use std::alloc::{AllocError, Global};

// The number of keys: a key is the top bits of a CRC-32.
const KEYS: u32 = 8_192;

/// Lists the index of the first entry of each key, and at the end the number of entries.
pub fn starts_of(alloc: Global, entries: &[Entry]) -> Result<Vec<u16>, AllocError>
    requires sorted { IsSorted entry_cmp entries.now }
    requires few { length entries.now ≤ slice_limit }
    ensures { IfOk result (λ starts. AreStarts entries.now starts.items) }
{
    let mut starts = Vec::with_capacity(alloc, KEYS as usize + 1)?;
    let mut at = 0;
    starts.push(0u16)?;
    for key in 0..KEYS {
        at = end_of(entries, at, key);
        starts.push(at as u16)?;
    }
    Ok(starts)
}

/// Returns the entries whose CRC-32s have the same key as this one.
pub fn part_of<'a>(entries: &'a [Entry], starts: &[u16], crc: u32) -> &'a [Entry]
    requires sorted { IsSorted entry_cmp entries.now }
    requires starts { AreStarts entries.now starts.now }
    ensures all { result.now ≡ filter (entry_has_key (key_of crc)) entries.now }
    ensures sorted { IsSorted entry_cmp result.now }
{
    let key = key_of(crc) as usize;
    &entries[starts[key] as usize..starts[key + 1] as usize]
}

// Finds the end of the entries of a key, which begin at `from`.
fn end_of(entries: &[Entry], from: usize, key: u32) -> usize
    requires sorted { IsSorted entry_cmp entries.now }
    requires begins { BeginsKey entries.now key from }
    ensures next { BeginsKey entries.now (key + 1) result }
    ensures rises { from ≤ result }
{
    for at in from..entries.len() {
        if key_of(entries[at].crc) != key {
            return at;
        }
    }
    entries.len()
}

// Returns the key of a CRC-32: its top 13 bits.
fn key_of(crc: u32) -> u32
    ensures key { result ≡ key_of crc }
    ensures few { result < key_count }
{
    crc >> 19
}
