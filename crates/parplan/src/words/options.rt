ghost use Rattle.std.specs.Prelude.{◌≡◌, ◌≢◌, ◌<◌, ◌≤◌, Some, IfOk, IfErr, IfSome, Ok, Err, option_map};
ghost use Rattle.clap.specs.Words.{found_of, rows_of};
ghost use Rattle.parplan.specs.Options.{set_option_of, base_option_of, limit_option_of, cursor_option_of, quiet_of, has_tails, command_of};
ghost use Rattle.parplan.specs.Commands.{LimitIsNotZero};

use crate::words::grammar::Verb;
use crate::words::limit::read_limit;
use crate::words::matches::{uses_of, value_of};
use crate::{Command, PlanFault};
use clap::ArgMatches;
use parfield::Hash16;
use parfind::{CursorText, split_cursor};

/// Reads the command of a verb, with the options that only this command has.
pub fn command_given(verb: Verb, matches: &ArgMatches<'_>) -> Result<Command, PlanFault>
    ensures command { result ≡ command_of verb (rows_of (found_of matches.now)) }
    ensures limit { IfOk result LimitIsNotZero }
{
    match verb {
        Verb::Packets => Ok(Command::Packets),
        Verb::Set => Ok(Command::Set),
        Verb::Find => {
            let limit = limit_given(matches)?;
            let cursor = cursor_given(matches)?;
            let tails = tails_given(matches);
            Ok(Command::Find {
                limit,
                cursor,
                tails,
            })
        }
        Verb::Verify => Ok(Command::Verify {
            quiet: quiet_given(matches),
            tails: tails_given(matches),
        }),
    }
}

/// Reads the set ID of `--set HEX`, if it is given.
pub fn set_given(matches: &ArgMatches<'_>) -> Result<Option<Hash16>, PlanFault>
    ensures { result ≡ set_option_of (rows_of (found_of matches.now)) }
{
    match value_of(matches, "set") {
        None => Ok(None),
        Some(text) => Ok(Some(Hash16::read(text.as_bytes()).ok_or(PlanFault::Value)?)),
    }
}

/// Reads the folder of `-B DIR`, if it is given; it must not be empty.
pub fn base_given<'a>(matches: &ArgMatches<'a>) -> Result<Option<&'a str>, PlanFault>
    ensures base { IfOk result (λ base. base_option_of (rows_of (found_of matches.now))
        ≡ Ok (option_map (λ text. text.now) base)) }
    ensures fault { IfErr result (λ fault. base_option_of (rows_of (found_of matches.now))
        ≡ Err fault) }
{
    match value_of(matches, "base") {
        None => Ok(None),
        Some("") => Err(PlanFault::Value),
        Some(text) => Ok(Some(text)),
    }
}

// Reads the limit of `--limit N`, if it is given.
fn limit_given(matches: &ArgMatches<'_>) -> Result<Option<u64>, PlanFault>
    ensures limit { result ≡ limit_option_of (rows_of (found_of matches.now)) }
    ensures some { IfOk result (λ limit. limit ≢ Some 0) }
{
    match value_of(matches, "limit") {
        None => Ok(None),
        Some(text) => Ok(Some(read_limit(text).ok_or(PlanFault::Value)?)),
    }
}

// Reads the parts of the cursor's text in `--cursor TEXT`, if it is given.
fn cursor_given(matches: &ArgMatches<'_>) -> Result<Option<CursorText>, PlanFault>
    ensures { result ≡ cursor_option_of (rows_of (found_of matches.now)) }
{
    match value_of(matches, "cursor") {
        None => Ok(None),
        Some(text) => Ok(Some(split_cursor(text.as_bytes()).ok_or(PlanFault::Value)?)),
    }
}

// Returns how often `-q` is given; more than 2 counts as 2.
fn quiet_given(matches: &ArgMatches<'_>) -> u8
    ensures quiet { result ≡ quiet_of (rows_of (found_of matches.now)) }
    ensures few { result ≤ 2 }
{
    uses_of(matches, "quiet").min(2)
}

// Whether `--tails` is given: `clap` gives a flag the value `true` if it is
// there, and else `false`.
fn tails_given(matches: &ArgMatches<'_>) -> bool
    ensures { result ≡ has_tails (rows_of (found_of matches.now)) }
{
    value_of(matches, "tails") == Some("true")
}
