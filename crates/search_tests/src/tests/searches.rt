mod counting;
mod finding;
pub mod searching;
mod tails;
