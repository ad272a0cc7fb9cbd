//! The short-slice lengths of a window, its *tails*: each has a register of that many first bytes
//! of the window, and looks for the slices of this length.
//!
//! `tail` is one of them. `tail_list` has functions for all tails of a window, such as pushing a
//! byte. `stream` is a full window with the bytes that come next. `tail_slices` rolls a tail's
//! register along a stream, up to a slice of the tail's length. `running` is one running register
//! that serves several tails, and `places` has its values along a stream. `ahead` looks along a
//! stream for all tails, and moves them only if none of them is at a slice. `waiting_tails` are
//! made before a window looks for short slices.

mod ahead;
mod places;
mod running;
mod stream;
mod tail;
mod tail_list;
mod tail_slices;
mod waiting_tails;

pub use crate::tails::ahead::pass_tails;
pub use crate::tails::running::{Running, clear_running, push_running, running_for};
pub use crate::tails::stream::Stream;
pub use crate::tails::tail::Tail;
pub use crate::tails::tail_list::{clear_tails, push_tails, roll_tails, tails_for};
pub use crate::tails::waiting_tails::WaitingTails;
