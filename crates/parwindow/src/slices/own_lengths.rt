ghost use Rattle.std.specs.Prelude.{◌≡◌, List, IfOk, IsSorted};
ghost use Rattle.std.specs.List.{list_any};
ghost use Rattle.parset.specs.declared.recovery_set.SetSlice.{SetSlice};
ghost use Rattle.parwindow.specs.OwnLengths.{length_cmp, AreExactlyOf, AreLengthsOf, is_exactly, is_within};
ghost use Rattle.parwindow.specs.Index.{has_known_crc, has_own};
ghost use Rattle.parwindow.specs.Missing.{has_fit_crc_of};

use parset::SetSlice;
use std::alloc::{AllocError, Global};

/// The CRC-32 of a slice, and its unpadded length in bytes.
#[derive(Clone, Copy, PartialEq, Eq, PartialOrd, Ord)]
pub struct OwnLength {
    pub crc: u32,
    pub length: u64,
}

/// The CRC-32s of the slices with known checksums in order, and for each the shortest slice first.
#[derive(Drop)]
pub struct OwnLengths {
    pub list: Vec<OwnLength>,
    ghost rises: { IsSorted length_cmp list.items },
}

impl OwnLengths {
    /// Makes the list of these slices.
    pub fn of(alloc: Global, slices: &[SetSlice]) -> Result<OwnLengths, AllocError>
        ensures within { IfOk result (λ lengths. AreLengthsOf slices.now lengths.list.items) }
        ensures exactly { IfOk result (λ lengths. AreExactlyOf slices.now lengths.list.items) }
    {
        let mut list = listed(alloc, slices)?;
        list.sort_unstable();
        Ok(OwnLengths { list })
    }

    /// Whether some slice has this CRC-32 and an unpadded length of at most `left` bytes.
    pub fn has(&self, crc: u32, left: u64) -> bool
        ensures { (slices : List SetSlice) → AreLengthsOf slices self.now.list.items
            → result ≡ list_any (has_fit_crc_of crc left) slices }
    {
        has_within(&self.list, crc, left)
    }

    /// Whether some slice has this CRC-32 and this unpadded length.
    pub fn has_exactly(&self, crc: u32, length: u64) -> bool
        ensures { (slices : List SetSlice) → AreExactlyOf slices self.now.list.items
            → result ≡ list_any (has_own length (has_known_crc crc)) slices }
    {
        has_exact(&self.list, crc, length)
    }
}

// Lists the CRC-32s and lengths of these slices, in the order of the slices.
fn listed(alloc: Global, slices: &[SetSlice]) -> Result<Vec<OwnLength>, AllocError>
    ensures within { IfOk result (λ list. AreLengthsOf slices.now list.items) }
    ensures exactly { IfOk result (λ list. AreExactlyOf slices.now list.items) }
{
    let mut list = Vec::with_capacity(alloc, slices.len())?;
    for slice in slices {
        if let Some((_, crc)) = slice.sums {
            list.push(OwnLength {
                crc,
                length: slice.length,
            })?;
        }
    }
    Ok(list)
}

// Whether one of these has this CRC-32 and a length of at most `left`.
fn has_within(lengths: &[OwnLength], crc: u32, left: u64) -> bool
    requires { IsSorted length_cmp lengths.now }
    ensures { result ≡ list_any (is_within crc left) lengths.now }
{
    match lengths.get(lengths.partition_point(|own| own.crc < crc)) {
        Some(shortest) => shortest.crc == crc && shortest.length <= left,
        None => false,
    }
}

// Whether one of these has this CRC-32 and this length.
fn has_exact(lengths: &[OwnLength], crc: u32, length: u64) -> bool
    requires { IsSorted length_cmp lengths.now }
    ensures { result ≡ list_any (is_exactly crc length) lengths.now }
{
    let wanted = OwnLength { crc, length };
    lengths.binary_search(&wanted).is_ok()
}
