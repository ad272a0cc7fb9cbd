// Checks of values and of the ends of runs.
use crate::runs::faults::fails_in_turn;
use crate::runs::rows::{Row, rows_of};
use crate::runs::running::{Outcome, READS, ROOMY, ran};
use std::fmt::Debug;
use std::panic::Expect;
use std::process::Abort;

/// Returns the value of a result, or ends the test if it is an error.
pub fn must<T, E: Debug>(rt: &impl Abort, got: Result<T, E>) -> T {
    got.expect(rt, "error")
}

/// Returns the value, or ends the test if there is none and says what is missing.
pub fn there<T>(rt: &impl Abort, lacking: &str, got: Option<T>) -> T {
    got.expect(rt, lacking)
}

/// Ends the test, and names what was checked, unless the values are equal.
pub fn is_same<T: PartialEq + Debug>(rt: &impl Abort, of: &impl Debug, found: &T, wanted: &T) {
    if *found != *wanted {
        rt.panic(format_args!("{of:?}: {found:?} in place of {wanted:?}"));
    }
}

/// Ends the test, and names what was checked, unless the bytes are this text.
pub fn is_text(rt: &impl Abort, of: &impl Debug, bytes: &[u8], text: &str) {
    is_same(rt, of, &std::str::from_utf8(bytes), &Ok(text));
}

/// Checks that a run ended as its row says.
pub fn has_ended(rt: &impl Abort, ran: &Outcome, row: &Row<'_>) {
    is_text(rt, &row.words, ran.out.text(), row.text);
    is_text(rt, &row.words, &ran.line, row.line);
    is_same(rt, &row.words, &ran.status, &row.status);
}

/// Runs the command lines of a table, and checks their ends, also those by each error of a read or
/// a write if the row is to fail in turn.
pub fn all_end_so(rt: &(impl Abort + AllocGlobal), table: &str) {
    for row in rows_of(rt, table).as_slice() {
        has_ended(rt, &ran(rt, row, READS, ROOMY), row);
        if !row.failing.is_empty() {
            fails_in_turn(rt, row);
        }
    }
}
