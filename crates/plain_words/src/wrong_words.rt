//! Words that name no job: which of them is wrong.

use crate::commands::{Command, CommandOption, OptionValue, greatest, is_bare};
use std::alloc::{AllocError, Global};

/// Which word of a call of a program with these commands is wrong, and why. `None` where the
/// program was asked for its usage, or where no wrong word is found. The words stand behind its
/// name.
pub fn wrong_word(
    alloc: Global,
    program: &str,
    commands: &[Command],
    words: &[String],
) -> Result<Option<String>, AllocError> {
    if asks_for_usage(words) {
        return Ok(None);
    }
    let parted = parted_of(alloc, commands, words)?;
    let names = parted.names.as_slice();
    match commands {
        [command] if command.word.is_empty() => {
            wrong_call(alloc, program, command, names, parted.options.as_slice())
        }
        _ => {
            let [first, names @ ..] = names else {
                return Ok(Some(format!(in alloc; "no command is named")?));
            };
            match commands.iter().find(|command| command.word == *first) {
                Some(command) => wrong_call(
                    alloc,
                    first,
                    command,
                    names,
                    parted.options.as_slice(),
                ),
                None => Ok(Some(format!(in alloc; "{first} is no command")?)),
            }
        }
    }
}

/// What is wrong with the options and the names of a command, or of a program, of this name.
fn wrong_call(
    alloc: Global,
    name: &str,
    command: &Command,
    names: &[&str],
    options: &[GivenOption<'_>],
) -> Result<Option<String>, AllocError> {
    if let Some(wrong) = wrong_options(alloc, name, command, options)? {
        return Ok(Some(wrong));
    }
    wrong_names(alloc, name, command, names, options)
}

/// Whether there are no words, or one of them asks how the program is called.
fn asks_for_usage(words: &[String]) -> bool {
    words.is_empty()
        || words
            .iter()
            .any(|word| matches!(word.as_str(), "-h" | "--help" | "help"))
}

/// An option among the words, and its value, where any word follows it.
#[derive(Clone, Copy)]
struct GivenOption<'a> {
    word: &'a str,
    value: Option<&'a str>,
}

/// The words of a call: names and options, each in order.
#[derive(Drop)]
struct Parted<'a> {
    names: Vec<&'a str>,
    options: Vec<GivenOption<'a>>,
}

/// The names and the options among the words. Behind a word `--` each word is a name; the value of
/// an option that has one is the next word, or follows a `=`.
fn parted_of<'a>(
    alloc: Global,
    commands: &[Command],
    words: &'a [String],
) -> Result<Parted<'a>, AllocError> {
    let mut names = Vec::new(alloc);
    let mut options = Vec::new(alloc);
    let mut is_value = false;
    let mut is_behind = false;
    for (at, word) in words.iter().enumerate() {
        let word = word.as_str();
        if is_value {
            is_value = false;
        } else if is_behind || !is_option(word) {
            names.push(word)?;
        } else if word == "--" {
            is_behind = true;
        } else {
            is_value = !word.contains('=') && !is_bare(commands, word);
            options.push(option_at(words, at, word))?;
        }
    }
    Ok(Parted { names, options })
}

/// Whether a word is an option, or the end of options.
fn is_option(word: &str) -> bool {
    word.starts_with('-') && word != "-"
}

/// What is wrong with the options, from the left; last, which one is missing.
fn wrong_options(
    alloc: Global,
    name: &str,
    command: &Command,
    given: &[GivenOption<'_>],
) -> Result<Option<String>, AllocError> {
    for (at, option) in given.iter().enumerate() {
        if let Some(wrong) = wrong_option(alloc, name, command, *option)? {
            return Ok(Some(wrong));
        }
        if is_given(&given[..at], option.word) {
            return Ok(Some(format!(in alloc; "{} is given twice", option.word)?));
        }
    }
    missing_option(alloc, name, command, given)
}

/// The option of the word at a place, and its value, which follows a `=` or is the next word.
fn option_at<'a>(words: &'a [String], at: usize, word: &'a str) -> GivenOption<'a> {
    match word.split_once('=') {
        Some((word, value)) => GivenOption {
            word,
            value: Some(value),
        },
        None => GivenOption {
            word,
            value: words.get(at.saturating_add(1)).map(|next| next.as_str()),
        },
    }
}

/// Whether an option is among those given.
fn is_given(given: &[GivenOption<'_>], word: &str) -> bool {
    given.iter().any(|option| option.word == word)
}

/// What is wrong with one option and its value.
fn wrong_option(
    alloc: Global,
    name: &str,
    command: &Command,
    given: GivenOption<'_>,
) -> Result<Option<String>, AllocError> {
    match command.option(given.word) {
        Some(known) => wrong_value(alloc, given, known),
        None => Ok(Some(format!(in alloc; "{} is no option of {name}", given.word)?)),
    }
}

/// What is wrong with the value of a known option.
fn wrong_value(
    alloc: Global,
    given: GivenOption<'_>,
    known: CommandOption,
) -> Result<Option<String>, AllocError> {
    let word = known.word;
    match (known.value, given.value) {
        (OptionValue::Number { least, most }, Some(value)) => {
            wrong_number_of(alloc, word, value, least, most)
        }
        (OptionValue::Number { .. }, None) => {
            Ok(Some(format!(in alloc; "{word} needs a number behind it")?))
        }
        (OptionValue::Name, None) => {
            Ok(Some(format!(in alloc; "{word} needs a name behind it")?))
        }
        (OptionValue::Word { form }, None) => {
            Ok(Some(format!(in alloc; "{word} needs {form} behind it")?))
        }
        (OptionValue::Name, Some(_)) | (OptionValue::Word { .. }, Some(_)) => Ok(None),
        (OptionValue::Nothing, _) => Ok(None),
    }
}

/// What is wrong with the number of an option.
fn wrong_number_of(
    alloc: Global,
    word: &str,
    value: &str,
    least: u64,
    most: u64,
) -> Result<Option<String>, AllocError> {
    if value == "0" && least > 0 {
        return Ok(Some(format!(in alloc; "{word} 0: the number is at least {least}")?));
    }
    if is_number(value, most) {
        return Ok(None);
    }
    Ok(Some(format!(in alloc; "{word} {value}: no whole number of at most {most}")?))
}

/// Which option has to be given and isn't.
fn missing_option(
    alloc: Global,
    name: &str,
    command: &Command,
    given: &[GivenOption<'_>],
) -> Result<Option<String>, AllocError> {
    for option in command.options {
        if option.is_required && !is_given(given, option.word) {
            return Ok(Some(format!(in alloc; "{name} needs {} N", option.word)?));
        }
    }
    Ok(None)
}

/// What is wrong with the names behind a command.
fn wrong_names(
    alloc: Global,
    name: &str,
    command: &Command,
    names: &[&str],
    options: &[GivenOption<'_>],
) -> Result<Option<String>, AllocError> {
    let given = names.len();
    if let Some(wanted) = wrong_count(alloc, command, given)? {
        return Ok(Some(format!(in alloc;
            "{name} takes {wanted} names behind it, and {given} are given"
        )?));
    }
    if let Some(wrong) = wrong_number(alloc, command, names)? {
        return Ok(Some(wrong));
    }
    twice(alloc, command, names, options)
}

/// Which name is to be a number and is none.
fn wrong_number(
    alloc: Global,
    command: &Command,
    names: &[&str],
) -> Result<Option<String>, AllocError> {
    for (name, what) in names.iter().zip(command.names) {
        if let Some(most) = greatest(what) {
            if !is_number(name, most) {
                return Ok(Some(format!(in alloc;
                    "{what} {name}: no whole number of at most {most}"
                )?));
            }
        }
    }
    Ok(None)
}

/// How many names a command takes, where so many are too few or too many.
fn wrong_count(
    alloc: Global,
    command: &Command,
    given: usize,
) -> Result<Option<String>, AllocError> {
    let least = command.names.len();
    let most = least.saturating_add(command.more);
    if least <= given && given <= most {
        Ok(None)
    } else if least == most {
        Ok(Some(format!(in alloc; "{least}")?))
    } else {
        Ok(Some(format!(in alloc; "{least} to {most}")?))
    }
}

/// Which file is named twice, behind the command or by an option.
fn twice(
    alloc: Global,
    command: &Command,
    names: &[&str],
    options: &[GivenOption<'_>],
) -> Result<Option<String>, AllocError> {
    let mut files = Vec::new(alloc);
    for name in names {
        files.push(*name)?;
    }
    for option in options {
        if let (Some(known), Some(value)) = (command.option(option.word), option.value) {
            if let OptionValue::Name = known.value {
                files.push(value)?;
            }
        }
    }
    named_twice(alloc, files.as_slice())
}

/// Which of these names stands twice among them.
fn named_twice(alloc: Global, files: &[&str]) -> Result<Option<String>, AllocError> {
    for (at, name) in files.iter().enumerate() {
        if files[at + 1..].contains(name) {
            return Ok(Some(format!(in alloc; "{name} is named twice")?));
        }
    }
    Ok(None)
}

/// Whether a word is a whole number of at most `most`, without zeros in front.
fn is_number(word: &str, most: u64) -> bool {
    let digits = word.as_bytes();
    if digits.is_empty() || !digits.iter().all(|digit| digit.is_ascii_digit()) {
        return false;
    }
    if digits.len() > 1 && digits.first() == Some(&b'0') {
        return false;
    }
    match word.parse::<u64>() {
        Ok(number) => number <= most,
        Err(_) => false,
    }
}
