//! A script of calls of a search, made in order through pauses, errors and reopenings: `calls` are
//! the calls and their answers, `driver` makes them, and `laws` say which sightings and failed
//! reads they report.

mod calls;
mod driver;
mod laws;

pub use crate::drives::calls::{Answer, Call, Drive};
pub use crate::drives::driver::drive;
pub use crate::drives::laws::calls_law;
