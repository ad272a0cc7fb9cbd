// Surveys in the plain mode, how far they read, and what a failed read leaves.
use crate::tests::fixtures::{index_of, long_file, must};
use crate::tests::surveys::{In, survey_finds, surveys, surveys_each};
use parfind::Mode;
use parfixtures::shelf_of;
use std::alloc::AllocError;
use std::process::Abort;

static SEEN: &str = "\
# Each slice that is seen is found.
abcdefghijkl|ab,XXabcdefgh|---|++-||10
abcdefgh|abcXabcdef|--|+-||10
abcdefgh|,ab,abcd|--|+-||4
abcdefgh|-|--|--||0
# A short slice is found where the file ends or goes on with zeros.
ij|ij|-|+||2
ij|XXij\0|-|+||5
ij|ijk|-|-||3
i\0|i|-|-||0
# Files into which no slice fits are not read.
abcdefgh|,a,ab,abc|--|--||0
# Only whole windows are compared.
ab,abcd,a|abcd|---|-+-||4
";

#[test]
fn each_slice_that_is_seen_is_found(rt: HostRuntime) {
    surveys_each(&rt, SEEN, In::UsedWindow, Mode::Plain);
}

static EQUAL: &str = "\
\0\0\0\0\0\0\0\0|\0\0\0\0\0\0|--|++||6
\0\0\0\0\0\0\0\0\0\0\0\0|XX\0\0\0\0|---|+++||6
\0\0\0\0\0\0\0\0abcdefgh|\0\0\0\0\0\0\0\0abcd\0\0\0\0|----|+++-||16
\0\0\0\0\0\0\0\0ab|\0\0\0,\0\0\0\0\0|---|++-||8
";

#[test]
fn equal_slices_are_found_together(rt: HostRuntime) {
    surveys_each(&rt, EQUAL, In::UsedWindow, Mode::Plain);
}

static LEFT: &str = "\
# Of a file into which no slice fits but those that are found nothing is read.
abcdefgh,ij|ij,abX|--+|--+||0
ij,ij\0|ij|+-|+-||0
# A slice whose equal is found is looked for.
abcdabcd|Xabcd|+-|++||5
ij,ij|abX,Xij|+-|++||6
# Slices that are not seen stay found.
abcdefghijkl|efgh,XXX|+--|++-||7
# If each slice is found, nothing is read.
abcdefgh|abcdefgh|++|++||0
";

#[test]
fn a_survey_looks_for_missing_slices(rt: HostRuntime) {
    surveys_each(&rt, LEFT, In::OwnWindow, Mode::Plain);
    surveys_each(&rt, LEFT, In::OwnWindow, Mode::Tails);
}

// Surveys these files for the slices of another one.
fn surveys_in(
    rt: &(impl Abort + AllocGlobal),
    slices: &str,
    files: &[&[u8]],
    row: &str,
    way: In,
    mode: Mode,
) {
    let index = must(rt, index_of(rt.alloc(), slices));
    let mut shelf = must(rt, shelf_of(rt.alloc(), files, 64, &[]));
    must(rt, survey_finds(rt, &index, &mut shelf, row, way, mode));
    drop(index);
}

// The survey reads at most 4,096 bytes after those before the last slice and its own four.
#[test]
fn reading_stops_once_each_missing_slice_is_found(rt: HostRuntime) {
    let long = long_file(&rt, b"xxabcdefgh", 20_010);
    for row in ["||--|++||4106", "||-+|++||4102"] {
        let files: [&[u8]; 2] = [&long, b"abcdefgh"];
        surveys_in(&rt, "abcdefgh", &files, row, In::UsedWindow, Mode::Plain);
    }
}

// After each of two long runs of one letter comes another file, which has a slice. At each position
// of a run, the window is a slice that was found at the first position. So in the middle of it a
// smaller index is made.
#[test]
fn slices_after_a_long_run_are_found(rt: HostRuntime) {
    let run = long_file(&rt, b"", 10_000);
    for mode in [Mode::Plain, Mode::Tails] {
        for way in [In::OwnWindow, In::UsedWindow] {
            let files: [&[u8]; 4] = [&run, b"XXabcd", &run, b"efgh"];
            let row = "||----|++++||20010";
            surveys_in(&rt, "xxxxabcdefghxxxx", &files, row, way, mode);
        }
    }
}

// The greatest number of bytes of a read, the numbers of the first and the last read of which each
// fails in turn, and the row.
static FAILURES: [(usize, u64, u64, &str); 8] = [
    (1, 1, 4, "abcdefghijkl|abcd,XXefghijkl|---|---|0"),
    (1, 5, 10, "abcdefghijkl|abcd,XXefghijkl|---|+--|1"),
    (1, 11, 14, "abcdefghijkl|abcd,XXefghijkl|---|++-|1"),
    (1, 15, 15, "abcdefghijkl|abcd,XXefghijkl|---|+++|"),
    (64, 1, 1, "abcdefghijkl|abcd,XXefghijkl|---|---|0"),
    (64, 2, 2, "abcdefghijkl|abcd,XXefghijkl|---|+--|1"),
    (64, 3, 3, "abcdefghijkl|abcd,XXefghijkl|---|+++|"),
    // Once each slice is found, the byte after the last one isn't read.
    (1, 9, 9, "abcdefgh|abcdefghX|--|++|"),
];

#[test]
fn after_a_failed_read_the_slices_before_it_stay_found(rt: HostRuntime) {
    for (piece, first, last, row) in &FAILURES {
        for failing in *first..=*last {
            for way in [In::OwnWindow, In::UsedWindow] {
                must(&rt, surveys(&rt, row, *piece, failing, way, Mode::Plain));
            }
        }
    }
}

// Surveys in windows that the survey makes: with a read that fails, and without one.
#[test]
fn a_survey_finds_what_a_search_finds(rt: HostRuntime) -> Result<(), AllocError> {
    let row = "abcdefghijkl|ab,XXabcdefgh|--+|--+|1";
    surveys(&rt, row, 64, 1, In::OwnWindow, Mode::Plain)?;
    let row = "ab,abcd,a|XabcdX|--+|+++|";
    surveys(&rt, row, 64, 0, In::OwnWindow, Mode::Tails)
}
