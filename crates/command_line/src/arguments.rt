//! The command that reads the words, with its arguments.

ghost use Rattle.std.specs.Prelude.{◌≡◌, IfOk};
ghost use Rattle.clap.specs.Words.{app_of};
ghost use Rattle.clap.specs.Walk.{texts};
ghost use Rattle.call_words.specs.Matches.{IsMatched};
ghost use Rattle.command_line.specs.Command.{evroute, with_bounds, with_digits, with_near};

use call_words::{matches_of, with_option, with_positionals, without_arguments};
use clap::{ArgMatches, Command};
use std::alloc::{AllocError, Global};

/// The name of the program.
pub(crate) const PROGRAM: &str = "evroute";

/// The command and the options that bound a plan or its search.
fn with_bounds<'a>(alloc: Global, command: Command<'a>) -> Result<Command<'a>, AllocError>
    ensures { IfOk result (λ c. app_of c ≡ with_bounds (app_of command.entry)) }
{
    let command = with_option(alloc, command, "limit")?;
    let command = with_option(alloc, command, "charge")?;
    with_option(alloc, command, "nodes")
}

/// The command and the options for decimals.
fn with_digits<'a>(alloc: Global, command: Command<'a>) -> Result<Command<'a>, AllocError>
    ensures { IfOk result (λ c. app_of c ≡ with_digits (app_of command.entry)) }
{
    let command = with_option(alloc, command, "time-digits")?;
    with_option(alloc, command, "energy-digits")
}

/// The command and the option for the size of near sets.
fn with_near<'a>(alloc: Global, command: Command<'a>) -> Result<Command<'a>, AllocError>
    ensures { IfOk result (λ c. app_of c ≡ with_near (app_of command.entry)) }
{
    with_option(alloc, command, "near")
}

/// The command.
#[tactic(auto, unfolding(crate::specs::Command::evroute))]
fn evroute<'a>(alloc: Global) -> Result<Command<'a>, AllocError>
    ensures { IfOk result (λ c. app_of c ≡ evroute) }
{
    let command = with_positionals(alloc, without_arguments(alloc, PROGRAM))?;
    let command = with_bounds(alloc, command)?;
    let command = with_digits(alloc, command)?;
    with_near(alloc, command)
}

/// What the command finds in the words, of which the first is the program's name; `None` where it
/// takes no such words.
pub(crate) fn found_in<'a>(
    alloc: Global,
    words: &'a [&'a str],
) -> Result<Option<ArgMatches<'a>>, AllocError>
    ensures { IfOk result (IsMatched evroute (texts words.now)) }
{
    let command: Command<'a> = evroute(alloc)?;
    matches_of(command, words)
}
