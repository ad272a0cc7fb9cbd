// Searches for short slices by their own bytes.
use crate::tests::searches::searching::walks_each;
use parfind::Mode;

static TAILS: &str = "\
# Other bytes follow.
ij|ijk|0:0:0|next 0:0:0,next done 1:0:0|3
ij|XijY|0:0:0|next 0:1:0,next done 1:0:0|4
# Own bytes must lie in the file, zeros among them.
i\0|i|0:0:0|next done 1:0:0|0
i\0|i\0k|0:0:0|next 0:0:0,next done 1:0:0|3
abcdef|Xefabcd|0:0:0|next 0:1:1,next 0:3:0,next done 1:0:0|7
# Slices of three files at one place, by number and not by length.
ab,abcd,a|abcd|0:0:0|next 0:0:0,next 0:0:1,next 0:0:2,next done 1:0:0|4
ab,abcd,a|abcd|0:0:1|next 0:0:1,next 0:0:2,next done 1:0:0|4
# Own lengths from one byte up to all but one.
a,bc,def|XdefbcaXa|0:0:0|next 0:1:2,next 0:4:1,next 0:6:0,next 0:8:0,next done 1:0:0|9
# The same bytes, and more or fewer of them of a file.
ab,ab\0|abX|0:0:0|next 0:0:0,next done 1:0:0|3
ab,ab\0|ab\0X|0:0:0|next 0:0:0,next 0:0:1,next done 1:0:0|4
# In files one after another.
abcdef|Xe,f,efX|0:0:0|next 2:0:1,next done 3:0:0|5
# A budget counts places, and not lengths.
ab,abcd,a|Xabcd|0:0:0|1 spent 0:1:0,1 0:1:0 0:1:1,1 0:1:1 0:1:2,1 0:1:2 0:1:3,1 spent 0:2:0
abcdef|Xefabcd|0:0:0|2 0:1:1 0:1:2,2 spent 0:3:0,1 0:3:0 0:3:1,4 spent 0:7:0,1 done 1:0:0
";

// Each byte is read once, for any number of lengths.
#[test]
fn short_slices_are_seen_by_their_own_bytes(rt: HostRuntime) {
    walks_each(&rt, TAILS, 1, 0, Mode::Tails);
    walks_each(&rt, TAILS, 64, 0, Mode::Tails);
}

static FAILING: &str = "\
abcdef|Xefabcd|0:0:0|next failed ..=0:1:1,next 0:1:1,next 0:3:0,next done 1:0:0
ab,abcd,a|abcd|0:0:0|next failed ..=0:0:0,next 0:0:0,next 0:0:1,next 0:0:2,next done 1:0:0
";

#[test]
fn a_search_for_short_slices_goes_on_after_a_failed_read(rt: HostRuntime) {
    walks_each(&rt, FAILING, 1, 2, Mode::Tails);
    walks_each(&rt, FAILING, 1, 4, Mode::Tails);
}
