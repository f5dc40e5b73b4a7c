//! The command that reads the words, with its arguments.

ghost use Rattle.std.specs.Prelude.{◌≡◌, IfOk};
ghost use Rattle.clap.specs.Words.{app_of, with_rule};
ghost use Rattle.clap.specs.Walk.{texts};
ghost use Rattle.call_words.specs.Matches.{IsMatched};
ghost use Rattle.view_words.specs.Command.{evview, flag_rule, with_choice, with_clock, with_form, with_names, with_outputs, with_places, word_rule};

use call_words::{matches_of, with_option, without_arguments};
use clap::{Arg, ArgAction, ArgMatches, Command};
use std::alloc::{AllocError, Global};

/// The name of the program.
pub const PROGRAM: &str = "evview";

/// The command and one more positional, which has to stand.
fn with_word<'a>(
    alloc: Global,
    command: Command<'a>,
    name: &'a str,
) -> Result<Command<'a>, AllocError>
    ensures { IfOk result (λ c.
        app_of c ≡ with_rule (app_of command.entry) (word_rule name.entry.now)) }
{
    let word = Arg::new(alloc, name).required(true);
    command.arg(word)
}

/// The command and one more option, without a value.
fn with_flag<'a>(
    alloc: Global,
    command: Command<'a>,
    name: &'a str,
) -> Result<Command<'a>, AllocError>
    ensures { IfOk result (λ c.
        app_of c ≡ with_rule (app_of command.entry) (flag_rule name.entry.now)) }
{
    let flag = Arg::new(alloc, name).long(name).action(ArgAction::SetTrue);
    command.arg(flag)
}

/// The command and the names of the instance and of the plan.
fn with_names<'a>(alloc: Global, command: Command<'a>) -> Result<Command<'a>, AllocError>
    ensures { IfOk result (λ c. app_of c ≡ with_names (app_of command.entry)) }
{
    let command = with_word(alloc, command, "file")?;
    with_word(alloc, command, "plan")
}

/// The command and what is shown.
fn with_choice<'a>(alloc: Global, command: Command<'a>) -> Result<Command<'a>, AllocError>
    ensures { IfOk result (λ c. app_of c ≡ with_choice (app_of command.entry)) }
{
    let command = with_option(alloc, command, "limit")?;
    let command = with_option(alloc, command, "route")?;
    with_flag(alloc, command, "exact")
}

/// The command and which form the plan has.
fn with_form<'a>(alloc: Global, command: Command<'a>) -> Result<Command<'a>, AllocError>
    ensures { IfOk result (λ c. app_of c ≡ with_form (app_of command.entry)) }
{
    let command = with_flag(alloc, command, "partial")?;
    let command = with_flag(alloc, command, "fixed")?;
    with_option(alloc, command, "charge")
}

/// The command and the clock by which is told when something happens.
fn with_clock<'a>(alloc: Global, command: Command<'a>) -> Result<Command<'a>, AllocError>
    ensures { IfOk result (λ c. app_of c ≡ with_clock (app_of command.entry)) }
{
    let command = with_option(alloc, command, "begin")?;
    with_option(alloc, command, "unit")
}

/// The command and the file with the names of places.
fn with_places<'a>(alloc: Global, command: Command<'a>) -> Result<Command<'a>, AllocError>
    ensures { IfOk result (λ c. app_of c ≡ with_places (app_of command.entry)) }
{
    with_option(alloc, command, "places")
}

/// The command and the names of the files that are written.
fn with_outputs<'a>(alloc: Global, command: Command<'a>) -> Result<Command<'a>, AllocError>
    ensures { IfOk result (λ c. app_of c ≡ with_outputs (app_of command.entry)) }
{
    let command = with_option(alloc, command, "svg")?;
    let command = with_option(alloc, command, "json")?;
    let command = with_option(alloc, command, "csv")?;
    with_option(alloc, command, "map")
}

/// The command.
#[tactic(auto, unfolding(crate::specs::Command::evview))]
fn evview<'a>(alloc: Global) -> Result<Command<'a>, AllocError>
    ensures { IfOk result (λ c. app_of c ≡ evview) }
{
    let command = with_names(alloc, without_arguments(alloc, PROGRAM))?;
    let command = with_choice(alloc, command)?;
    let command = with_form(alloc, command)?;
    let command = with_clock(alloc, command)?;
    let command = with_places(alloc, command)?;
    with_outputs(alloc, command)
}

/// What the command finds in the words, of which the first is the program's name; `None` where it
/// takes no such words.
pub(crate) fn found_in<'a>(
    alloc: Global,
    words: &'a [&'a str],
) -> Result<Option<ArgMatches<'a>>, AllocError>
    ensures { IfOk result (IsMatched evview (texts words.now)) }
{
    let command: Command<'a> = evview(alloc)?;
    matches_of(command, words)
}
