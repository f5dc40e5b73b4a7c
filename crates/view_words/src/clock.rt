//! The time of day at which vehicles begin, and how long a unit of time is.

ghost use Rattle.std.specs.Prelude.{◌≡◌, ◌≤◌, IfSome, option_map};
ghost use Rattle.call_words.specs.Numbers.{number_of};
ghost use Rattle.view_words.specs.Clocks.{IsDayClock, IsUnit, begin_of, clock_of, day_clock, is_time, minutes_of, most_parts, two_of, unit_of, unit_over, with_parts};

use ev_text::Scan;

/// A clock: when the vehicles begin, in minutes from midnight, and how long a unit of time of the
/// instance is, `seconds / parts` seconds.
#[derive(Clone, Copy, Debug, PartialEq, Eq)]
pub struct DayClock {
    pub begin: u64,
    pub seconds: u64,
    pub parts: u64,
}

/// The most parts of a unit.
const MOST_PARTS: u64 = 1_000_000_000;

/// The clock of the words for when vehicles begin and for the unit of time, which are given
/// together or not at all; `None` where they are no such words.
pub(crate) fn clock_of(begin: Option<&str>, unit: Option<&str>) -> Option<Option<DayClock>>
    ensures value { result ≡ clock_of (option_map (λ text. text.now) begin.entry)
        (option_map (λ text. text.now) unit.entry) }
    ensures is { IfSome result (λ clock. IfSome clock IsDayClock) }
{
    match (begin, unit) {
        (None, None) => Some(None),
        (Some(begin), Some(unit)) => day_clock(
            begin_of(begin.as_bytes()),
            unit_of(unit.as_bytes()),
        ),
        _ => None,
    }
}

/// Both together.
fn day_clock(begin: Option<u64>, unit: Option<(u64, u64)>) -> Option<Option<DayClock>>
    requires begin { IfSome begin (λ minutes. minutes ≤ 1440) }
    requires unit { IfSome unit IsUnit }
    ensures value { result ≡ day_clock begin unit }
    ensures is { IfSome result (λ clock. IfSome clock IsDayClock) }
{
    let (Some(begin), Some((seconds, parts))) = (begin, unit) else {
        return None;
    };
    Some(Some(DayClock {
        begin,
        seconds,
        parts,
    }))
}

/// The minutes from midnight of the word `HH:MM`.
fn begin_of(word: &[u8]) -> Option<u64>
    ensures value { result ≡ begin_of word.now }
    ensures small { IfSome result (λ minutes. minutes ≤ 1440) }
{
    match word {
        [h, i, colon, m, n] if is_time(*h, *i, *colon, *m, *n) => {
            Some(two_of(*h, *i) * 60 + two_of(*m, *n))
        }
        _ => None,
    }
}

/// Whether five bytes are a time of day.
fn is_time(h: u8, i: u8, colon: u8, m: u8, n: u8) -> bool
    ensures { result ≡ is_time h i colon m n }
{
    h.is_ascii_digit()
        && i.is_ascii_digit()
        && colon == b':'
        && m.is_ascii_digit()
        && n.is_ascii_digit()
        && two_of(h, i) < 24
        && two_of(m, n) < 60
}

/// The number of two digits.
fn two_of(a: u8, b: u8) -> u64
    ensures value { result ≡ two_of a b }
    ensures small { result ≤ 3000 }
{
    (a as u64).saturating_sub(48) * 10 + (b as u64).saturating_sub(48)
}

/// A unit of time in seconds over parts: of `s`, `min` or `h`, with `/N` behind it where it is one
/// of N parts of that.
fn unit_of(word: &[u8]) -> Option<(u64, u64)>
    ensures value { result ≡ unit_of word.now }
    ensures unit { IfSome result IsUnit }
{
    match word {
        [] => None,
        [first, rest @ ..] => {
            if *first == b's' {
                unit_over(1, rest)
            } else if *first == b'h' {
                unit_over(3600, rest)
            } else {
                minutes_of(*first, rest)
            }
        }
    }
}

/// Minutes, whose word is `min`.
fn minutes_of(first: u8, word: &[u8]) -> Option<(u64, u64)>
    ensures value { result ≡ minutes_of first word.now }
    ensures unit { IfSome result IsUnit }
{
    match word {
        [second, third, rest @ ..] => {
            if first == b'm' && *second == b'i' && *third == b'n' {
                unit_over(60, rest)
            } else {
                None
            }
        }
        _ => None,
    }
}

/// What stands behind the word of a unit of so many seconds: nothing, or `/N` where it has N parts.
fn unit_over(seconds: u64, word: &[u8]) -> Option<(u64, u64)>
    requires { seconds ≤ 3600 }
    ensures value { result ≡ unit_over seconds word.now }
    ensures unit { IfSome result IsUnit }
{
    match word {
        [] => Some((seconds, 1)),
        [slash, number @ ..] => {
            if *slash == b'/' {
                with_parts(seconds, number_of(number, MOST_PARTS))
            } else {
                None
            }
        }
    }
}

/// So many seconds over a number of parts, which is at least 1.
fn with_parts(seconds: u64, parts: Option<u64>) -> Option<(u64, u64)>
    requires seconds { seconds ≤ 3600 }
    requires parts { IfSome parts (λ n. n ≤ most_parts) }
    ensures value { result ≡ with_parts seconds parts }
    ensures unit { IfSome result IsUnit }
{
    match parts {
        Some(parts) if parts > 0 => Some((seconds, parts)),
        _ => None,
    }
}

/// The number that these bytes are in its one spelling, where it is at most `most`.
fn number_of(bytes: &[u8], most: u64) -> Option<u64>
    ensures number { result ≡ number_of most bytes.now }
    ensures within { IfSome result (λ number. number ≤ most) }
{
    let mut scan = Scan::new(bytes);
    let Ok(number) = scan.whole(u128::from(most)) else {
        return None;
    };
    if scan.is_end() {
        Some(number as u64)
    } else {
        None
    }
}
