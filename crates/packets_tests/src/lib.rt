//! Tests of `parsalvage` and `parset`. They are in a crate of their own, because a check of tests
//! proves each function of their crate again.
#![tactic(auto)]

#[cfg(test)]
mod tests;
