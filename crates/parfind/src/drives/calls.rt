use crate::{Cursor, Step};
use parfield::Sequence;
use parshelf::ReadFault;

/// A call of a search.
#[derive(Clone, Copy, Debug, PartialEq, Eq)]
pub enum Call {
    /// A step with a budget of places, which is above 0.
    Step(u64),
    /// A step without a budget.
    Next,
    /// The finder is closed, and another one is opened at its cursor.
    Reopen,
}

/// The result of a call.
#[derive(Clone, Copy, Debug, PartialEq, Eq)]
pub enum Answer {
    /// The result of the step.
    Step(Result<Step, ReadFault>),
    /// Another finder was opened.
    Reopened,
    /// Memory for another finder was refused.
    NoMemory,
}

/// The result of a script of calls.
#[derive(Drop)]
pub struct Drive {
    /// The answers, in order.
    pub answers: Sequence<Answer>,
    /// The cursor of the search after the last answer.
    pub cursor: Cursor,
}
