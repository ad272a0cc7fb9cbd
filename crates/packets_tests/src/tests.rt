mod readme;
mod salvage;
mod set;
mod texts;

use std::fmt::Debug;
use std::panic::Expect;
use std::process::Abort;

// Returns the value of a result, or ends the test if it is an error.
fn must<T, E: Debug>(rt: &impl Abort, got: Result<T, E>) -> T {
    got.expect(rt, "error")
}

// Ends the test, and names the row, unless this holds.
fn holds(rt: &impl Abort, row: &impl Debug, is_so: bool) {
    assert!(rt; is_so, "{row:?}");
}

// Ends the test, and names the row, unless the values are equal.
fn is<R: Debug, T: Debug + PartialEq>(rt: &impl Abort, row: &R, got: &T, wanted: &T) {
    holds(rt, &(row, got, wanted), got == wanted);
}
