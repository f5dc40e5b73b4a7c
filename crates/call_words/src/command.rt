//! The parts of a command that reads words.

ghost use Rattle.std.specs.Prelude.{◌≡◌, false, IfOk};
ghost use Rattle.clap.specs.Words.{app_of, rule_of, with_rule};
ghost use Rattle.call_words.specs.Command.{command_rule, option_rule, rest_rule, with_positionals, without_arguments};

use clap::{Arg, Command};
use std::alloc::{AllocError, Global};

/// The command of a program, without its arguments. It has no flag for help and none for a version.
pub fn without_arguments<'a>(alloc: Global, program: &'a str) -> Command<'a>
    ensures { app_of result ≡ without_arguments program.entry.now }
{
    Command::new(alloc, program)
        .disable_help_flag(true)
        .disable_version_flag(true)
}

/// The command and one more option, with one value.
pub fn with_option<'a>(
    alloc: Global,
    command: Command<'a>,
    name: &'a str,
) -> Result<Command<'a>, AllocError>
    ensures { IfOk result (λ c.
        app_of c ≡ with_rule (app_of command.entry) (option_rule name.entry.now)) }
{
    let option = Arg::new(alloc, name).long(name);
    command.arg(option)
}

/// The command and its first positional, which has to stand.
fn with_command_word<'a>(alloc: Global, command: Command<'a>) -> Result<Command<'a>, AllocError>
    ensures { IfOk result (λ c. app_of c ≡ with_rule (app_of command.entry) command_rule) }
{
    let word = Arg::new(alloc, "command").required(true);
    command.arg(word)
}

/// The last positional, which takes any number of values.
fn rest<'a>(alloc: Global) -> Arg<'a>
    ensures rule { rule_of result ≡ rest_rule }
    ensures own { result.global ≡ false }
{
    Arg::new(alloc, "rest").num_args(0..)
}

/// The command and its positionals: the word that names what is to be done, and the words behind
/// it.
pub fn with_positionals<'a>(alloc: Global, command: Command<'a>) -> Result<Command<'a>, AllocError>
    ensures { IfOk result (λ c. app_of c ≡ with_positionals (app_of command.entry)) }
{
    with_command_word(alloc, command)?.arg(rest(alloc))
}
