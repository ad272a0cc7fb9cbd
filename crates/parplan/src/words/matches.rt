ghost use Rattle.std.specs.Prelude.{◌≡◌, ◌⊎◌, IfOk, IfErr, Ok, Err, map, option_map, string_bytes};
ghost use Rattle.clap.specs.Words.{found_of, kind_of, rows_of, first_of, all_of, count_of};
ghost use Rattle.parplan.specs.Matches.{verb_rows_of, plan_fault_of};

use crate::PlanFault;
use crate::words::grammar::{Verb, command_line};
use clap::error::ErrorKind;
use clap::{ArgMatches, Error};
use std::alloc::Global;

/// Returns the matches that `clap` finds in the arguments of a verb. The first argument isn't
/// looked at: it names the verb.
pub fn matches_for<'a>(
    alloc: Global,
    verb: Verb,
    words: &'a [String],
) -> Result<ArgMatches<'a>, PlanFault>
    ensures rows { IfOk result (λ matches. verb_rows_of verb (map string_bytes words.entry.now)
        ≡ Ok (rows_of (found_of matches))) }
    ensures fault { IfErr result (λ fault. (fault ≡ PlanFault.Memory)
        ⊎ (verb_rows_of verb (map string_bytes words.entry.now) ≡ Err fault)) }
{
    match command_line(alloc, verb)?.try_get_matches_from(words) {
        Ok(matches) => Ok(matches),
        Err(error) => Err(fault(&error)),
    }
}

// Returns the plan's error for an error of clap; a request for help is an error too.
fn fault(error: &Error) -> PlanFault
    ensures { result ≡ plan_fault_of (kind_of error.now) }
{
    match error.kind() {
        ErrorKind::OutOfMemory => PlanFault::Memory,
        _ => PlanFault::Usage,
    }
}

/// Returns the value of an option, if it is given.
pub fn value_of<'a>(matches: &ArgMatches<'a>, id: &str) -> Option<&'a str>
    ensures { option_map (λ text. text.now) result
        ≡ first_of id.now (rows_of (found_of matches.now)) }
{
    matches.get_str(id)
}

/// Returns the values of an argument, if it is given.
pub fn values_of<'m, 'a>(matches: &'m ArgMatches<'a>, id: &str) -> Option<&'m [&'a str]>
    ensures { option_map (λ texts. map (λ text. text.now) texts.now) result
        ≡ all_of id.now (rows_of (found_of matches.now)) }
{
    matches.get_strs(id)
}

/// Returns how often a flag is given; more than 255 times counts as 255.
pub fn uses_of(matches: &ArgMatches<'_>, id: &str) -> u8
    ensures { result ≡ count_of id.now (rows_of (found_of matches.now)) }
{
    matches.get_count(id)
}
