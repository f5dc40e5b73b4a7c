//! The words that ask of a program alone.

ghost use Rattle.std.specs.Prelude.{◌≡◌, map, string_bytes};
ghost use Rattle.job_telling.specs.Words.{told_by, told_by_word};

/// What is told of a program.
#[derive(Clone, Copy, Debug, Drop, PartialEq, Eq)]
pub enum Told {
    /// How it is called: its usage text.
    Help,
    /// Its name and its version.
    Version,
}

/// What the words, which stand behind the program's name, ask of the program: they are `--help` or
/// `--version` alone. `None` comes of all others.
pub fn told_by(words: &[String]) -> Option<Told>
    ensures { result ≡ told_by (map string_bytes words.now) }
{
    match words {
        [word] => told_by_word(word.as_str()),
        _ => None,
    }
}

/// The same of a word that stands alone.
fn told_by_word(word: &str) -> Option<Told>
    ensures { result ≡ told_by_word word.now }
{
    match word {
        "--help" => Some(Told::Help),
        "--version" => Some(Told::Version),
        _ => None,
    }
}
