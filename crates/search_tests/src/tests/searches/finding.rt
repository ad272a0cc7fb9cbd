// Matches that a search finds by whole windows, and how much it reads.
use crate::tests::fixtures::{index_of, long_file, must};
use crate::tests::searches::searching::{walks, walks_each, walks_in};
use parfind::{Mode, StartFault};
use parfixtures::file_of;

static SEEN: &str = "\
# Two slices one after the other are both seen, and each byte is read once.
abcdefgh|XXabcdefgh|0:0:0|next 0:2:0,next 0:6:1,next done 1:0:0|10
abcdefgh|XXabcdefgh|0:3:0|next 0:6:1,next done 1:0:0|7
# A slice that is cut off is not seen.
abcdefgh|abcXabcdef|0:0:0|next 0:4:0,next done 1:0:0
# A short slice is seen where the file ends or goes on with zeros.
ij|ij|0:0:0|next 0:0:0,next done 1:0:0
ij|ij\0|0:0:0|next 0:0:0,next done 1:0:0
ij|ijk|0:0:0|next done 1:0:0
ij|XijY|0:0:0|next done 1:0:0
# Own bytes must lie in the file.
i\0|i|0:0:0|next done 1:0:0
# A search goes on from a cursor.
\0\0\0\0\0\0\0\0|\0\0\0\0\0\0|0:1:1|next 0:1:1,next 0:2:0,next 0:2:1,next done 1:0:0
# Nothing is left behind the last sighting.
\0\0\0\0\0\0\0\0|\0\0\0\0\0\0|0:5:0|next done 1:0:0
\0\0\0\0\0\0\0\0|\0\0\0\0\0\0|7:0:0|next done 7:0:0
\0\0\0\0\0\0\0\0|\0\0\0\0\0\0|4294967295:18446744073709551615:4294967295|\
    next done 4294967295:18446744073709551615:4294967295
# Files without a sighting are passed. Those into which only the short slice fits are read.
abcdefgh|,ab,abcd|0:0:0|next 2:0:0,next done 3:0:0
abcdef|e,ef|0:0:0|next 1:0:1,next done 2:0:0|2
# Only whole windows are compared.
abcdef|Xefabcd|0:0:0|next 0:3:0,next done 1:0:0|7
ab,abcd,a|abcd|0:0:0|next 0:0:1,next done 1:0:0|4
";

#[test]
fn a_search_finds_each_sighting_in_order(rt: HostRuntime) {
    for piece in [1, 3, 64] {
        walks_each(&rt, SEEN, piece, 0, Mode::Plain);
    }
}

static EQUAL: &str = "\0\0\0\0\0\0\0\0|\0\0\0\0\0\0|0:0:0|\
    next 0:0:0,next 0:0:1,next 0:1:0,next 0:1:1,next 0:2:0,next 0:2:1,next done 1:0:0";

#[test]
fn equal_slices_are_seen_at_every_offset(rt: HostRuntime) -> Result<(), StartFault> {
    walks(&rt, EQUAL, 64, 0, Mode::Plain)
}

static STEPS: &str = "\
# A budget is spent place by place.
\0\0\0\0\0\0\0\0|\0\0\0\0\0\0|0:3:0|1 spent 0:4:0,1 spent 0:5:0,1 spent 0:6:0,1 done 1:0:0
\0\0\0\0\0\0\0\0|\0\0\0\0\0\0|0:3:0|3 spent 0:6:0
\0\0\0\0\0\0\0\0|\0\0\0\0\0\0|0:3:0|4 done 1:0:0
# Steps of two places find what calls without a budget find.
abcdefgh|XXabcdefgh|0:0:0|2 spent 0:2:0,2 0:2:0 0:2:1,2 spent 0:4:0,2 spent 0:6:0,\
    2 0:6:1 0:6:2,2 spent 0:8:0,2 spent 0:10:0,2 done 1:0:0
# A budget goes on over the end of a file.
abcdefgh|,ab,abcd|0:0:0|2 spent 1:2:0,1 2:0:0 2:0:1,4 spent 2:4:0,1 done 3:0:0
";

#[test]
fn steps_give_their_answers_and_cursors(rt: HostRuntime) {
    walks_each(&rt, STEPS, 64, 0, Mode::Plain);
}

// The first read fails. No slice fits into these files, or into the rest of them.
static NO_FIT: &str = "\
abcdefgh|abc,,ef|0:0:0|2 spent 0:2:0,2 spent 2:1:0,1 spent 2:2:0,1 done 3:0:0|0
abcdefgh|abc,,ef|0:0:0|18446744073709551615 done 3:0:0|0
abcdef|XXXXXXXXab|0:9:1|1 spent 0:10:0,1 done 1:0:0|0
";

// The third read fails, before the first match is found. The cursor is then not after that match,
// and later calls find both matches.
static FAILING: &str =
    "abcdefgh|XXabcdefgh|0:0:0|next failed ..=0:2:0,next 0:2:0,next 0:6:1,next done";

#[test]
fn a_search_goes_on_after_a_failed_read(rt: HostRuntime) {
    walks_each(&rt, FAILING, 1, 3, Mode::Plain);
    walks_each(&rt, NO_FIT, 64, 1, Mode::Plain);
}

// A step of one position in a file that one read gives whole.
#[test]
fn a_step_reads_little_further_than_its_window(rt: HostRuntime) {
    let index = must(&rt, index_of(rt.alloc(), "abcdefgh"));
    let file = long_file(&rt, b"", 20_000);
    let mut shelf = must(&rt, file_of(rt.alloc(), &file, 20_000, &[0]));
    let walk = "||0:0:0|1 spent 0:1:0|4101";
    must(&rt, walks_in(&rt, &index, &mut shelf, walk, Mode::Plain));
    drop(index);
}
