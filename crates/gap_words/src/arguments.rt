//! The command that reads the words, with its arguments.

ghost use Rattle.std.specs.Prelude.{◌≡◌, IfOk};
ghost use Rattle.clap.specs.Words.{app_of};
ghost use Rattle.clap.specs.Walk.{texts};
ghost use Rattle.call_words.specs.Matches.{IsMatched};
ghost use Rattle.gap_words.specs.Command.{evgap, with_first, with_nodes, with_options};

use call_words::{matches_of, with_option, with_positionals, without_arguments};
use clap::{ArgMatches, Command};
use std::alloc::{AllocError, Global};

/// The name of the program.
pub const PROGRAM: &str = "evgap";

/// The command and its options.
fn with_options<'a>(alloc: Global, command: Command<'a>) -> Result<Command<'a>, AllocError>
    ensures { IfOk result (λ c. app_of c ≡ with_options (app_of command.entry)) }
{
    let command = with_option(alloc, command, "limit")?;
    let command = with_option(alloc, command, "seconds")?;
    with_option(alloc, command, "start")
}

/// The command and the options for the first plan.
fn with_first<'a>(alloc: Global, command: Command<'a>) -> Result<Command<'a>, AllocError>
    ensures { IfOk result (λ c. app_of c ≡ with_first (app_of command.entry)) }
{
    let command = with_option(alloc, command, "seed")?;
    with_option(alloc, command, "effort")
}

/// The command and the option for the nodes of a tree.
fn with_nodes<'a>(alloc: Global, command: Command<'a>) -> Result<Command<'a>, AllocError>
    ensures { IfOk result (λ c. app_of c ≡ with_nodes (app_of command.entry)) }
{
    with_option(alloc, command, "nodes")
}

/// The command.
#[tactic(auto, unfolding(crate::specs::Command::evgap))]
fn evgap<'a>(alloc: Global) -> Result<Command<'a>, AllocError>
    ensures { IfOk result (λ c. app_of c ≡ evgap) }
{
    let command = with_positionals(alloc, without_arguments(alloc, PROGRAM))?;
    let command = with_options(alloc, command)?;
    let command = with_first(alloc, command)?;
    with_nodes(alloc, command)
}

/// What the command finds in the words, of which the first is the program's name; `None` where it
/// takes no such words.
pub(crate) fn found_in<'a>(
    alloc: Global,
    words: &'a [&'a str],
) -> Result<Option<ArgMatches<'a>>, AllocError>
    ensures { IfOk result (IsMatched evgap (texts words.now)) }
{
    let command: Command<'a> = evgap(alloc)?;
    matches_of(command, words)
}
