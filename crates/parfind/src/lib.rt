//! The search for a set's slices at every place of the scanned files. A place is a file and an
//! offset in it.
//!
//! From below: `cursors` has cursors, the sightings of a search, and the texts of cursors; `tracks`
//! moves a window along a file. `searches` returns sighting after sighting from a cursor on, and
//! `surveys` finds the slices that have one; both use a track. `drives` makes a script of calls of
//! a search.
//!
//! A search may be closed and opened again at its cursor; it then reads its window again. A survey
//! begins at the first file, and ends when each slice with known checksums is found. Neither reads
//! more bytes of a file than the file has, except that `survey` reads a file at most twice in
//! `Mode::Tails`. A search takes no memory after it has its window. A survey with a window of its
//! own may take more for a smaller index, and if that is refused, it goes on with the given one.
#![tactic(auto)]

mod cursors;
mod drives;
mod searches;
mod surveys;
mod tracks;

pub use crate::cursors::{
    Cursor, CursorFault, CursorText, Foreign, Sighting, cursor_order_law, cursor_text_law,
    read_cursor, sighting_laws, split_cursor,
};
pub use crate::drives::{Answer, Call, Drive, calls_law, drive};
pub use crate::searches::{Finder, StartFault, Step, finder_law, mode_law, reach_law, step_law};
pub use crate::surveys::{SurveyFault, survey, survey_in};
pub use crate::tracks::{Mode, has_too_many_tails};
