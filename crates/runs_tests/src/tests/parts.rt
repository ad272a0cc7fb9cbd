// Fields and shelves.
mod fields;
mod shelves;

use crate::runs::is_same;
use std::fmt::Debug;
use std::process::Abort;

// Checks that a value is this one.
fn is<T: Debug + PartialEq>(rt: &impl Abort, got: &T, wanted: &T) {
    is_same(rt, &"a value", got, wanted);
}
