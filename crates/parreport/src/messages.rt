ghost use Rattle.std.specs.Prelude.{◌≡◌, ◌++◌, IfOk, IfErr, IsSome, string_bytes, codes};
ghost use Rattle.parfield.specs.Shown.{shown};
ghost use Rattle.parreport.specs.Ends.{exit_status_of, message_of, error_line_of, cause_text};

use crate::ends::End;
use crate::faults::{Cause, RunFault};
use crate::status::Status;
use parfield::Shown;
use parplan::PlanFault;
use std::alloc::{AllocError, Global};

/// Returns the exit status of an end, and its line for standard error, which is empty if nothing
/// went wrong. Only a line that isn't empty takes memory. `argument` is the file that could not be
/// opened or read.
pub fn ending(alloc: Global, end: &End, argument: &str) -> Result<(u8, Vec<u8>), AllocError>
    ensures status { IfOk result (λ answer. answer.0 ≡ exit_status_of end.now) }
    ensures line { IfOk result (λ answer. answer.1.items
        ≡ error_line_of (message_of end.now argument.now)) }
    ensures refused { IfErr result (λ _. IsSome (message_of end.now argument.now)) }
{
    let line = line(alloc, end, argument)?;
    Ok((exit_status(end), line.into_bytes()))
}

fn exit_status(end: &End) -> u8
    ensures { result ≡ exit_status_of end.now }
{
    match end {
        End::Status(Status::Listed | Status::Complete) => 0,
        End::Status(Status::Possible) => 1,
        End::Status(Status::Impossible) => 2,
        End::Plan(PlanFault::Memory) | End::Memory | End::Run(RunFault::Memory) => 8,
        End::Plan(_) | End::Run(RunFault::OtherSet | RunFault::OtherList) => 3,
        End::Run(RunFault::Set(_) | RunFault::TooManyTails) => 4,
        End::CannotOpen | End::Run(RunFault::Read { .. }) | End::Run(RunFault::Write) => 6,
    }
}

// Returns the line of an end, which takes no memory if it is empty.
fn line(alloc: Global, end: &End, argument: &str) -> Result<String, AllocError>
    ensures line { IfOk result (λ line. string_bytes line
        ≡ error_line_of (message_of end.now argument.now)) }
    ensures refused { IfErr result (λ _. IsSome (message_of end.now argument.now)) }
{
    let name = Shown(argument.as_bytes());
    match end {
        End::Status(_) => Ok(String::new(alloc)),
        End::Plan(PlanFault::Usage) => {
            plain(alloc, "usage: parv packets|set|find|verify [options] FILES")
        }
        End::Plan(PlanFault::Value) => plain(alloc, "bad value"),
        End::Plan(PlanFault::NoPacketFile) => plain(alloc, "no packet file"),
        End::Run(RunFault::Set(cause)) => no_set(alloc, *cause),
        End::Run(RunFault::Write) => plain(alloc, "write fault"),
        End::Run(RunFault::OtherSet) => plain(alloc, "cursor of another set"),
        End::Run(RunFault::OtherList) => plain(alloc, "cursor of other files"),
        End::Run(RunFault::TooManyTails) => plain(alloc, "no usable set: too many tails"),
        End::CannotOpen => of_file(alloc, "cannot open ", name),
        End::Run(RunFault::Read { .. }) => of_file(alloc, "read fault in ", name),
        End::Plan(PlanFault::Memory) | End::Memory | End::Run(RunFault::Memory) => {
            plain(alloc, "out of memory")
        }
    }
}

// Returns the line of a message.
fn plain(alloc: Global, message: &str) -> Result<String, AllocError>
    ensures { IfOk result (λ line. string_bytes line ≡ error_line_of (Some message.now)) }
{
    format!(in alloc; "parv: {message}\n")
}

// Returns the line of a message that ends with the name of a file.
fn of_file(alloc: Global, what: &str, name: Shown<'_>) -> Result<String, AllocError>
    ensures { IfOk result (λ line. string_bytes line
        ≡ error_line_of (Some (what.now ++ shown name.entry.0.now))) }
{
    let message = format!(in alloc; "{what}{name}")?;
    Ok(plain(alloc, message.as_str())?)
}

// Returns the line of a reason why there is no set.
fn no_set(alloc: Global, cause: Cause) -> Result<String, AllocError>
    ensures { IfOk result (λ line. string_bytes line
        ≡ error_line_of (Some (codes "no usable set: " ++ cause_text cause))) }
{
    let why = why(alloc, cause)?;
    let message = format!(in alloc; "no usable set: {why}")?;
    Ok(plain(alloc, message.as_str())?)
}

// Returns the text of a reason.
fn why(alloc: Global, cause: Cause) -> Result<String, AllocError>
    ensures { IfOk result (λ text. string_bytes text ≡ cause_text cause) }
{
    match cause {
        Cause::NoMain => format!(in alloc; "no main"),
        Cause::NoDesc(id) => format!(in alloc; "no description of {id}"),
        Cause::NameTwice(id) => format!(in alloc; "name twice {id}"),
        Cause::TooManySlices => format!(in alloc; "too many slices"),
    }
}
