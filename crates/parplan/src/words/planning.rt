ghost use Rattle.std.specs.Prelude.{◌≡◌, ◌≢◌, ◌≤◌, ◌<◌, map, length, string_bytes, IfOk, IfErr, Ok, Err};
ghost use Rattle.clap.specs.Words.{found_of, rows_of};
ghost use Rattle.parshelf.specs.Disk.{open_file_limit};
ghost use Rattle.parplan.specs.Commands.{LimitIsNotZero};
ghost use Rattle.parplan.specs.Plans.{plan_of, plan_of_rows, verb_of, first_verb_of, file_names_of, AnswersPlan, TellsTaken};

use crate::arguments::is_within_file_limit;
use crate::words::files::{packet_files, scanned_files};
use crate::words::grammar::Verb;
use crate::words::matches::{matches_for, values_of};
use crate::words::options::{base_given, command_given, set_given};
use crate::{Plan, PlanFault};
use clap::ArgMatches;
use std::alloc::Global;

/// Makes the plan of the words after the program's name, or returns the first error in them.
pub fn plan(alloc: Global, words: &[String]) -> Result<Plan, PlanFault>
    ensures plan { AnswersPlan (plan_of (map string_bytes words.now)) result }

    // The result is `Usage` exactly if clap's definition refuses the words,
    // unless memory is refused.
    ensures usage { TellsTaken (map string_bytes words.now) result }

    // The limits that every plan satisfies.
    ensures few { IfOk result (λ plan.
        (length plan.packets ≤ open_file_limit) × (length plan.scanned ≤ open_file_limit)) }
    ensures some_packets { IfOk result (λ plan. 0 < length plan.packets) }
    ensures limit { IfOk result (λ plan. LimitIsNotZero plan.command) }
{
    let verb = first_verb(words)?;
    let matches = matches_for(alloc, verb, words)?;
    plan_of_matches(alloc, verb, &matches)
}

// Makes the plan of a verb and of the matches in its arguments, which `clap` has taken.
fn plan_of_matches(alloc: Global, verb: Verb, matches: &ArgMatches<'_>) -> Result<Plan, PlanFault>
    ensures plan { AnswersPlan (plan_of_rows verb (rows_of (found_of matches.now))) result }
    ensures taken { IfErr result (λ fault. fault ≢ PlanFault.Usage) }
    ensures few { IfOk result (λ plan.
        (length plan.packets ≤ open_file_limit) × (length plan.scanned ≤ open_file_limit)) }
    ensures some_packets { IfOk result (λ plan. 0 < length plan.packets) }
    ensures limit { IfOk result (λ plan. LimitIsNotZero plan.command) }
{
    let command = command_given(verb, matches)?;
    let set = set_given(matches)?;
    let base = base_given(matches)?;
    let files = files_given(matches)?;
    let packets = packet_files(alloc, files)?;
    if packets.is_empty() {
        return Err(PlanFault::NoPacketFile);
    }
    let scanned = scanned_files(alloc, base, files)?;
    Ok(Plan {
        command,
        set,
        packets,
        scanned,
    })
}

// Finds the verb that the first argument names.
fn first_verb(words: &[String]) -> Result<Verb, PlanFault>
    ensures { result ≡ first_verb_of (map string_bytes words.now) }
{
    match words.first() {
        None => Err(PlanFault::Usage),
        Some(word) => verb_named(word.as_str()),
    }
}

// Finds the verb that a word names.
fn verb_named(word: &str) -> Result<Verb, PlanFault>
    ensures { result ≡ verb_of word.now }
{
    match word {
        "packets" => Ok(Verb::Packets),
        "set" => Ok(Verb::Set),
        "find" => Ok(Verb::Find),
        "verify" => Ok(Verb::Verify),
        _ => Err(PlanFault::Usage),
    }
}

// Returns the files that the argument FILES names, of which there are not too many.
fn files_given<'m, 'a>(matches: &'m ArgMatches<'a>) -> Result<&'m [&'a str], PlanFault>
    ensures files { IfOk result (λ files. file_names_of (rows_of (found_of matches.now))
        ≡ Ok (map (λ file. file.now) files.now)) }
    ensures few { IfOk result (λ files. length files.now ≤ open_file_limit) }
    ensures fault { IfErr result (λ fault. file_names_of (rows_of (found_of matches.now)) ≡ Err fault) }
{
    match values_of(matches, "files") {
        None => Err(PlanFault::NoPacketFile),
        Some(files) if is_within_file_limit(files.len()) => Ok(files),
        Some(_) => Err(PlanFault::Value),
    }
}
