ghost use Rattle.std.specs.Prelude.{◌≡◌, IfOk, false};
ghost use Rattle.clap.specs.Words.{app_of, rule_of, with_rule};
ghost use Rattle.parplan.specs.Grammar.{empty_grammar, shared_grammar, grammar_of, option_rule, base_rule, files_rule, quiet_rule, tails_rule};

use clap::{Arg, ArgAction, Command};
use std::alloc::{AllocError, Global};

/// The first argument, which names the command.
#[derive(Clone, Copy)]
pub enum Verb {
    /// `packets`.
    Packets,
    /// `set`.
    Set,
    /// `find`.
    Find,
    /// `verify`.
    Verify,
}

/// Makes the command line of a verb.
pub fn command_line<'a>(alloc: Global, verb: Verb) -> Result<Command<'a>, AllocError>
    ensures { IfOk result (λ command. app_of command ≡ grammar_of verb) }
{
    let shared = shared(alloc)?;
    match verb {
        Verb::Packets | Verb::Set => Ok(shared),
        Verb::Find => {
            let limited = with(shared, option(alloc, "limit"))?;
            let begun = with(limited, option(alloc, "cursor"))?;
            with(begun, tails(alloc))
        }
        Verb::Verify => {
            let quieted = with(shared, quiet(alloc))?;
            with(quieted, tails(alloc))
        }
    }
}

// Makes the command line that has what all verbs share.
fn shared<'a>(alloc: Global) -> Result<Command<'a>, AllocError>
    ensures { IfOk result (λ command. app_of command ≡ shared_grammar) }
{
    let chosen = with(empty(alloc), option(alloc, "set"))?;
    let based = with(chosen, base(alloc))?;
    with(based, files(alloc))
}

// Makes a command line without arguments; `--help` isn't one of its options.
fn empty<'a>(alloc: Global) -> Command<'a>
    ensures { app_of result ≡ empty_grammar }
{
    Command::new(alloc, "parv").disable_help_flag(true)
}

// Adds an argument to a command line.
fn with<'a>(command: Command<'a>, arg: Arg<'a>) -> Result<Command<'a>, AllocError>
    requires { arg.global ≡ false }
    ensures { IfOk result (λ longer. app_of longer
        ≡ with_rule (app_of command.entry) (rule_of arg.entry)) }
{
    command.arg(arg)
}

// Makes the option `--NAME VALUE`.
fn option<'a>(alloc: Global, name: &'a str) -> Arg<'a>
    ensures rule { rule_of result ≡ option_rule name.entry.now }
    ensures own { result.global ≡ false }
{
    Arg::new(alloc, name).long(name).action(ArgAction::Set)
}

// Makes the option `-B DIR`, or `--base DIR`.
fn base<'a>(alloc: Global) -> Arg<'a>
    ensures rule { rule_of result ≡ base_rule }
    ensures own { result.global ≡ false }
{
    option(alloc, "base").short('B')
}

// Makes the argument FILES: one file or more.
fn files<'a>(alloc: Global) -> Arg<'a>
    ensures rule { rule_of result ≡ files_rule }
    ensures own { result.global ≡ false }
{
    Arg::new(alloc, "files")
        .required(true)
        .action(ArgAction::Append)
}

// Makes the flag `-q`, which may be repeated.
fn quiet<'a>(alloc: Global) -> Arg<'a>
    ensures rule { rule_of result ≡ quiet_rule }
    ensures own { result.global ≡ false }
{
    Arg::new(alloc, "quiet").short('q').action(ArgAction::Count)
}

// Makes the flag `--tails`, which may be given once.
fn tails<'a>(alloc: Global) -> Arg<'a>
    ensures rule { rule_of result ≡ tails_rule }
    ensures own { result.global ≡ false }
{
    Arg::new(alloc, "tails")
        .long("tails")
        .action(ArgAction::SetTrue)
}
