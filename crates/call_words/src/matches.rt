//! What a command finds in words.

ghost use Rattle.std.specs.Prelude.{◌≡◌, ◌∷◌, IfOk, map, option_map, string_bytes, true};
ghost use Rattle.clap.specs.Walk.{texts};
ghost use Rattle.clap.specs.Words.{app_of, first_of, is_simple, is_simple_and_free};
ghost use Rattle.call_words.specs.Matches.{IsMatched, gives_own, limit_in, rows_in};

use crate::words::{GREATEST_VALUE, is_listed, optional_number};
use clap::error::ErrorKind;
use clap::{ArgMatches, Command};
use std::alloc::{AllocError, Global};

/// The program's name, and then the words.
pub fn named<'a>(
    alloc: Global,
    program: &'a str,
    words: &'a [String],
) -> Result<Vec<&'a str>, AllocError>
    ensures { IfOk result (λ all.
        texts all.items ≡ program.entry.now ∷ map string_bytes words.now) }
{
    let mut all: Vec<&'a str> = Vec::new(alloc);
    all.push(program)?;
    for word in words {
        all.push(word.as_str())?;
    }
    Ok(all)
}

/// What a command finds in the words, of which the first is the program's name; `None` where it
/// takes no such words. Its arguments have no rules but those of [`crate::with_option`] and
/// [`crate::with_positionals`].
pub fn matches_of<'a>(
    command: Command<'a>,
    words: &'a [&'a str],
) -> Result<Option<ArgMatches<'a>>, AllocError>
    requires simple { is_simple (app_of command) ≡ true }
    requires free { is_simple_and_free (app_of command) ≡ true }
    ensures { IfOk result (IsMatched (app_of command.entry) (texts words.now)) }
{
    match command.try_get_matches_from(words) {
        Ok(matches) => Ok(Some(matches)),
        Err(error) => match error.kind() {
            ErrorKind::OutOfMemory => Err(AllocError),
            _ => Ok(None),
        },
    }
}

/// The first value of an argument.
pub fn first_of<'a>(matches: &ArgMatches<'a>, name: &str) -> Option<&'a str>
    ensures { option_map (λ text. text.now) result ≡ first_of name.now (rows_in matches.now) }
{
    matches.get_str(name)
}

/// Whether none of the options `names` is given that is not one of a command's own.
pub fn gives_own(matches: &ArgMatches<'_>, own: &[&str], names: &[&str]) -> bool
    ensures { result ≡ gives_own (texts own.now) (rows_in matches.now) (texts names.now) }
{
    for name in names {
        if !is_listed(name, own) && first_of(matches, name).is_some() {
            return false;
        }
    }
    true
}

/// The limit, where it is given; `None` where its value is no number of one.
pub fn limit_in(matches: &ArgMatches<'_>) -> Option<Option<u64>>
    ensures { result ≡ limit_in (rows_in matches.now) }
{
    optional_number(first_of(matches, "limit"), GREATEST_VALUE)
}
