ghost use Rattle.std.specs.Prelude.{◌≡◌, map, IfOk};
ghost use Rattle.parreport.specs.Lookups.{looked_up_state_of};
ghost use Rattle.parreport.specs.States.{is_intact, is_complete, checked_state_of};

use crate::states::contents::LengthAndMd5;
use crate::states::lookups::Lookups;
use parplan::Scanned;
use parset::SetFile;
use std::alloc::{AllocError, Global};

/// The state of a file of the recovery set in the scanned files.
#[derive(Clone, Copy, Debug, PartialEq, Eq)]
pub(crate) enum State {
    /// A scanned file has the file's name and its content, by length and MD5.
    Complete,
    /// No scanned file has both, but some have its content; this is the number of the first of
    /// them.
    Renamed(usize),
    /// No scanned file has its content, but one has its name.
    Damaged,
    /// No scanned file has its content or its name.
    Missing,
}

impl State {
    /// Whether a scanned file has the whole content.
    pub fn is_intact(self) -> bool
        ensures { result ≡ is_intact self }
    {
        match self {
            State::Complete | State::Renamed(_) => true,
            State::Damaged | State::Missing => false,
        }
    }

    /// Whether a scanned file has the whole content under the file's name.
    pub fn is_complete(self) -> bool
        ensures { result ≡ is_complete self }
    {
        match self {
            State::Complete => true,
            State::Renamed(_) | State::Damaged | State::Missing => false,
        }
    }
}

/// Returns the state of each file of the set.
pub fn states<'a>(
    alloc: Global,
    files: &'a [Scanned],
    contents: &[Option<LengthAndMd5>],
    set_files: &'a [SetFile],
) -> Result<Vec<State>, AllocError>
    ensures { IfOk result (λ states.
        states.items ≡ map (checked_state_of files.now contents.now) set_files.now) }
{
    let lookups = Lookups::new(alloc, files, contents)?;
    states_from(alloc, &lookups, set_files)
}

// Returns the state of each file of the set, given the lookups.
fn states_from<'a>(
    alloc: Global,
    lookups: &Lookups<'a>,
    set_files: &'a [SetFile],
) -> Result<Vec<State>, AllocError>
    ensures { IfOk result (λ states.
        states.items ≡ map (looked_up_state_of lookups.now) set_files.now) }
{
    let mut states = Vec::new(alloc);
    for file in set_files {
        states.push(state_from(lookups, file))?;
    }
    Ok(states)
}

// Returns the state of a file of the set.
fn state_from<'a>(lookups: &Lookups<'a>, file: &'a SetFile) -> State
    ensures { result ≡ looked_up_state_of lookups.now file.now }
{
    if lookups.has_both(file) {
        return State::Complete;
    }
    match lookups.first(file) {
        Some(first) => State::Renamed(first),
        None if lookups.has_name(file) => State::Damaged,
        None => State::Missing,
    }
}
