//! The search, sighting by sighting: `places` gives the next place, `start_fault` says why a search
//! can't be started, and `finder` is the search. `laws` say which sightings its steps return, how
//! much all of them read since an opening, that others may read in between, and how its two modes
//! differ.

mod finder;
mod laws;
mod places;
mod start_fault;

pub use crate::searches::finder::{Finder, Step};
pub use crate::searches::laws::{finder_law, mode_law, reach_law, step_law};
pub use crate::searches::start_fault::StartFault;
