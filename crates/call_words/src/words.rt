//! Single words: the numbers of options, and names.

ghost use Rattle.std.specs.Prelude.{◌≡◌, ◌≤◌, IfSome, option_map};
ghost use Rattle.clap.specs.Walk.{texts};
ghost use Rattle.call_words.specs.Names.{are_different, is_listed};
ghost use Rattle.call_words.specs.Numbers.{number_of, optional_number, required_number};

use ev_text::Scan;

/// The greatest value of an option, as of a limit, a charge, a number of nodes or of seconds.
pub const GREATEST_VALUE: u64 = 1_000_000_000_000_000_000;

/// The whole word as a number of at most `most`.
pub fn number_of(word: &str, most: u64) -> Option<u64>
    ensures number { result ≡ number_of most word.now }
    ensures within { IfSome result (λ number. number ≤ most) }
{
    let mut scan = Scan::new(word.as_bytes());
    let Ok(number) = scan.whole(u128::from(most)) else {
        return None;
    };
    if scan.is_end() {
        Some(number as u64)
    } else {
        None
    }
}

/// The number of an option that need not be given; `None` where its value is no number of at most
/// `most`.
pub fn optional_number(word: Option<&str>, most: u64) -> Option<Option<u64>>
    ensures { result ≡ optional_number most (option_map (λ text. text.now) word.entry) }
{
    let Some(word) = word else {
        return Some(None);
    };
    match number_of(word, most) {
        Some(number) => Some(Some(number)),
        None => None,
    }
}

/// The number of an option that has to be given; `None` where it isn't, or where its value is no
/// number of at most `most`.
pub fn required_number(word: Option<&str>, most: u64) -> Option<u64>
    ensures number { result
        ≡ required_number most (option_map (λ text. text.now) word.entry) }
    ensures within { IfSome result (λ number. number ≤ most) }
{
    number_of(word?, most)
}

/// Whether a text is one of the names.
pub fn is_listed(text: &str, names: &[&str]) -> bool
    ensures { result ≡ is_listed text.now (texts names.now) }
{
    names.contains(&text)
}

/// Whether no two of the names are the same text.
pub fn are_different(names: &[&str]) -> bool
    ensures { result ≡ are_different (texts names.now) }
{
    match names {
        [] => true,
        [name, others @ ..] => !is_listed(name, others) && are_different(others),
    }
}
