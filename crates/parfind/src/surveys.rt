//! The survey of all files: `walk` goes over their places; `exhausted` notes the slices that are
//! seen at a place and the CRC-32s whose slices are all found; `smaller` has an index without the
//! slices that were found. `surveying` has the surveys with a window of their own and with a given
//! one. With tails a survey has two `rounds`. In the first, `short` looks for short slices at the
//! places at which they are `expected`, after the slices that were `noted`, and for files that are
//! shorter than a slice at the `file_starts`, the places at which such a file may begin.

mod exhausted;
mod expected;
mod file_starts;
mod noted;
mod rounds;
mod short;
mod smaller;
mod surveying;
mod walk;

pub use crate::surveys::surveying::{SurveyFault, survey, survey_in};
