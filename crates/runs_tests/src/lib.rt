//! Tests of the plans of arguments; of `packets`, `set`, `find` and `verify` over files in memory
//! and on disk, with reads and writes that fail in turn; of the ends of runs; and of `parfield` and
//! `parshelf`.
#![tactic(auto)]

#[cfg(test)]
mod runs;
#[cfg(test)]
mod tests;
