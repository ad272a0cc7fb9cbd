// Surveys for short slices by their own bytes.
use crate::tests::fixtures::must;
use crate::tests::surveys::{In, surveys, surveys_each};
use parfind::Mode;

static TAILS: &str = "\
# Other bytes follow.
ij|ijk|-|+||3
ij|XijY|-|+||4
# Own bytes must lie in the file, zeros among them.
i\0|i|-|-||0
i\0|i\0k|-|+||3
abcdef|Xefabcd|--|++||7
# Slices of three files at one place.
ab,abcd,a|abcd|---|+++||4
ab,abcd,a|abcd|+--|+++||4
# The same bytes, and more or fewer of them of a file.
ab,ab\0|abX|--|+-||3
# In the second file alone.
abcdef|Xabcd,XefX|--|++||9
";

#[test]
fn short_slices_are_found_by_their_own_bytes(rt: HostRuntime) {
    surveys_each(&rt, TAILS, In::UsedWindow, Mode::Tails);
}

// The number of the read that fails. The window of the first position ends with the fourth byte,
// and the window of the last own bytes ends after all of them.
static FAILURES: [(u64, &str); 3] = [
    (4, "abcdef|Xefabcd|--|--|0|3"),
    (7, "abcdef|Xefabcd|--|-+|0|6"),
    (8, "abcdef|Xefabcd,ef|--|++||7"),
];

#[test]
fn after_a_failed_read_the_short_slices_before_it_are_found(rt: HostRuntime) {
    for (failing, row) in &FAILURES {
        must(
            &rt,
            surveys(&rt, row, 1, *failing, In::UsedWindow, Mode::Tails),
        );
    }
}
