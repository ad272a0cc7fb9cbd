// What indexes say about the slices of one file, each of four bytes.
use crate::tests::fixtures::{index_with, is, must};
use parfield::Hash16;
use parwindow::Index;
use std::process::Abort;

// The MD5 and the CRC-32 of `abcd`, and those of `ab` and two zeros.
const ABCD: u128 = 0xe2fc714c4727ee9395f324cd2e7f331f;

const AB: u128 = 0x66271d2e70372c1b4dc5b46e79a6f001;

const ABCD_CRC: u32 = 0xed82_cd11;

const AB_CRC: u32 = 0xe98d_5034;

/// Both checksums of each slice of `abcdabcdab`, as a packet has them.
pub static TEN_BYTES: [u8; 60] =
    *b"\xe2\xfc\x71\x4c\x47\x27\xee\x93\x95\xf3\x24\xcd\x2e\x7f\x33\x1f\x11\xcd\x82\xed\
      \xe2\xfc\x71\x4c\x47\x27\xee\x93\x95\xf3\x24\xcd\x2e\x7f\x33\x1f\x11\xcd\x82\xed\
      \x66\x27\x1d\x2e\x70\x37\x2c\x1b\x4d\xc5\xb4\x6e\x79\xa6\xf0\x01\x34\x50\x8d\xe9";

// Those of two slices that are equal with padding: `ab` with two zeros, and `ab`.
static SIX_BYTES: [u8; 40] =
    *b"\x66\x27\x1d\x2e\x70\x37\x2c\x1b\x4d\xc5\xb4\x6e\x79\xa6\xf0\x01\x34\x50\x8d\xe9\
      \x66\x27\x1d\x2e\x70\x37\x2c\x1b\x4d\xc5\xb4\x6e\x79\xa6\xf0\x01\x34\x50\x8d\xe9";

// Something that an index says. The last value is the result of the call.
#[derive(Clone, Copy)]
enum Told {
    // The slice size, and the number of slices.
    Slices(u64, u32),
    // The unpadded length of a slice.
    OwnLength(u32, u64),
    // Whether some slice has this CRC-32.
    HasCrc(u32, bool),
    // The first slice from a number on with this CRC-32, or with both checksums.
    NextCrc(u32, u32, Option<u32>),
    NextMatch(u32, u128, u32, Option<u32>),
    // The number of unpadded lengths below the slice size, and one of them by its number.
    Tails(u32),
    Tail(u32, u64),
    // Whether some slice of this unpadded length has this CRC-32, and the first slice with both
    // checksums.
    HasCrcOf(u32, u64, bool),
    NextMatchOf(u32, u128, u64, Option<u32>),
    // Whether some slice has an unpadded length of at most this number of bytes, and whether one
    // with this CRC-32 has.
    Fits(u64, bool),
    FitsCrc(u32, u64, bool),
    // Whether some slice has this CRC-32, isn't marked as found in this list, and has an unpadded
    // length of at most this number of bytes.
    Misses(u32, &'static [bool], u64, bool),
}

// Whether the index says this.
fn says(index: &Index, row: Told) -> bool {
    match row {
        Told::Slices(size, slices) => index.size() == size && index.slices() == slices,
        Told::OwnLength(slice, length) => {
            slice < index.slices() && index.own_length(slice) == length
        }
        Told::HasCrc(crc, seen) => index.has_crc(crc) == seen,
        Told::NextCrc(crc, from, found) => index.next_crc(crc, from) == found,
        Told::NextMatch(crc, digest, from, found) => {
            index.next_match(crc, Hash16(digest.to_be_bytes()), from) == found
        }
        Told::Tails(count) => index.tails() == count,
        Told::Tail(k, own) => k < index.tails() && index.tail(k) == own,
        Told::HasCrcOf(crc, own, seen) => index.has_crc_of(crc, own) == seen,
        Told::NextMatchOf(crc, digest, own, found) => {
            index.next_match_of(crc, Hash16(digest.to_be_bytes()), own, 0) == found
        }
        Told::Fits(left, fits) => index.fits(left) == fits,
        Told::FitsCrc(crc, left, fits) => index.has_fit_crc(crc, left) == fits,
        Told::Misses(crc, found, left, missing) => {
            index.slices() as usize == found.len() && index.is_missing(crc, left, found) == missing
        }
    }
}

// Returns the number of rows before the first one that the index doesn't say.
fn says_first(index: &Index, rows: &[Told]) -> usize {
    let mut count: usize = 0;
    for row in rows {
        if !says(index, *row) {
            return count;
        }
        count = count.saturating_add(1);
    }
    count
}

// Slices 0 and 1 are equal, and the third one is shorter.
static TEN: [Told; 25] = [
    Told::Slices(4, 3),
    Told::OwnLength(1, 4),
    Told::OwnLength(2, 2),
    Told::HasCrc(AB_CRC, true),
    Told::HasCrc(0, false),
    Told::NextMatch(ABCD_CRC, ABCD, 0, Some(0)),
    Told::NextMatch(ABCD_CRC, ABCD, 1, Some(1)),
    Told::NextMatch(ABCD_CRC, ABCD, 2, None),
    Told::NextMatch(AB_CRC, AB, 0, Some(2)),
    Told::NextMatch(AB_CRC, ABCD, 0, None),
    Told::NextCrc(ABCD_CRC, 1, Some(1)),
    Told::NextCrc(ABCD_CRC, 2, None),
    Told::Tails(1),
    Told::Tail(0, 2),
    Told::HasCrcOf(AB_CRC, 2, true),
    Told::HasCrcOf(AB_CRC, 4, false),
    Told::NextMatchOf(AB_CRC, AB, 2, Some(2)),
    Told::NextMatchOf(AB_CRC, AB, 4, None),
    Told::Fits(1, false),
    Told::Fits(2, true),
    Told::FitsCrc(ABCD_CRC, 3, false),
    Told::FitsCrc(ABCD_CRC, 4, true),
    Told::Misses(ABCD_CRC, &[false, true, true], 3, false),
    Told::Misses(ABCD_CRC, &[false, true, true], 4, true),
    Told::Misses(ABCD_CRC, &[true, true, false], u64::MAX, false),
];

// Only the lengths of these slices differ.
static SIX: [Told; 6] = [
    Told::NextMatch(AB_CRC, AB, 0, Some(0)),
    Told::NextMatchOf(AB_CRC, AB, 2, Some(1)),
    Told::FitsCrc(AB_CRC, 1, false),
    Told::FitsCrc(AB_CRC, 2, true),
    Told::Misses(AB_CRC, &[false, true], 3, false),
    Told::Misses(AB_CRC, &[false, true], 4, true),
];

// Too few bytes are given for the checksums, so they aren't known.
static UNKNOWN: [Told; 4] = [
    Told::Slices(4, 3),
    Told::HasCrc(ABCD_CRC, false),
    Told::NextMatch(ABCD_CRC, ABCD, 0, None),
    Told::Fits(u64::MAX, false),
];

// Checks what an index of the slices of a file of this length with these checksums says.
fn index_says(rt: &(impl Abort + AllocGlobal), length: u64, sums: &[u8], rows: &[Told]) {
    let index = must(rt, index_with(rt.alloc(), length, sums));
    is(rt, &says_first(&index, rows), &rows.len());
    drop(index);
}

#[test]
fn equal_slices_are_found_by_number(rt: HostRuntime) {
    index_says(&rt, 10, &TEN_BYTES, &TEN);
    index_says(&rt, 6, &SIX_BYTES, &SIX);
    index_says(&rt, 10, &[0; 16], &UNKNOWN);
}

static FIRST_FOUND: [Told; 4] = [
    Told::Slices(4, 3),
    Told::NextCrc(ABCD_CRC, 0, Some(1)),
    Told::NextMatch(ABCD_CRC, ABCD, 0, Some(1)),
    Told::Tails(1),
];

static LAST_FOUND: [Told; 5] = [
    Told::OwnLength(2, 2),
    Told::HasCrc(AB_CRC, false),
    Told::Tails(0),
    Told::Fits(3, false),
    Told::Fits(4, true),
];

static ALL_FOUND: [Told; 3] = [
    Told::Slices(4, 3),
    Told::HasCrc(ABCD_CRC, false),
    Told::Fits(u64::MAX, false),
];

static WHOLE_LEFT: [Told; 2] = [
    Told::NextMatch(AB_CRC, AB, 0, Some(0)),
    Told::NextMatchOf(AB_CRC, AB, 2, None),
];

static SHORT_LEFT: [Told; 2] = [
    Told::NextMatch(AB_CRC, AB, 0, Some(1)),
    Told::NextMatchOf(AB_CRC, AB, 4, None),
];

// Checks what the smaller index of the missing slices says.
fn leaves(rt: &(impl Abort + AllocGlobal), index: &Index, found: &[bool], rows: &[Told]) {
    assert!(rt; found.len() == index.slices() as usize);
    let missing = must(rt, index.missing(rt.alloc(), found));
    is(rt, &says_first(&missing, rows), &rows.len());
    drop(missing);
}

#[test]
fn slices_that_are_found_are_looked_for_no_more(rt: HostRuntime) {
    let index = must(&rt, index_with(rt.alloc(), 10, &TEN_BYTES));
    leaves(&rt, &index, &[true, false, false], &FIRST_FOUND);
    leaves(&rt, &index, &[false, false, true], &LAST_FOUND);
    leaves(&rt, &index, &[true, true, true], &ALL_FOUND);
    drop(index);
}

#[test]
fn a_slice_whose_equal_is_found_is_looked_for(rt: HostRuntime) {
    let index = must(&rt, index_with(rt.alloc(), 6, &SIX_BYTES));
    leaves(&rt, &index, &[false, true], &WHOLE_LEFT);
    leaves(&rt, &index, &[true, false], &SHORT_LEFT);
    drop(index);
}
