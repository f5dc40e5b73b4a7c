ghost use Rattle.ev_text.specs.declared.TextFault.TheVariants.{Word};
ghost use Rattle.std.specs.Prelude.{◌≡◌, ◌≢◌, ◌^◌, ◌<◌, ◌≤◌, ◌↔◌, [], Ok, Err, IfErr, IfNone, IfOk, IfSome, IsTrue, OnErr, OnOk, length};
ghost use Rattle.std.specs.Str.Parse.{AllDigits, digits_value};
ghost use Rattle.ev_text.specs.Numerals.{leading_digits, is_canonical};
ghost use Rattle.ev_text.specs.Readers.{below_zero, choice_at, negated, optional_at, positive_at, signed_at};
ghost use Rattle.ev_text.specs.Scans.{TakesNumber, TakesWord, rest_of, whole_at, word_at};

use crate::TextFault;
use std::marker::Model;

/// How many digits stand in front of a text.
fn digit_count(text: &[u8]) -> usize
    ensures { result ≡ length (leading_digits text.now) }
{
    text.iter().take_while(|byte| byte.is_ascii_digit()).count()
}

/// Whether there is a digit, and no `0` before others.
fn is_canonical(digits: &[u8]) -> bool
    ensures { result ≡ is_canonical digits.now }
{
    match digits {
        [] => false,
        [_] => true,
        [first, _, ..] => *first != b'0',
    }
}

/// The number that the digits write, where it is at most `limit`.
fn value_within(digits: &[u8], limit: u128) -> Option<u128>
    requires { AllDigits 10 digits.now }
    ensures some { IfSome result (λ n. (n ≡ digits_value 10 digits.now) × (n ≤ limit)) }
    ensures none { IfNone result (limit < digits_value 10 digits.now) }
{
    let mut number = 0u128;
    for digit in digits {
        let Some(tenfold) = number.checked_mul(10) else {
            return None;
        };
        let Some(next) = tenfold.checked_add(u128::from(digit - b'0')) else {
            return None;
        };
        if next > limit {
            return None;
        }
        number = next;
    }
    Some(number)
}

/// The number in front of the text from `at` on, and the place behind its last digit.
fn whole_from(bytes: &[u8], at: usize, limit: u128) -> Result<(u128, usize), TextFault>
    requires { at ≤ length bytes.now }
    ensures ok { IfOk result (λ p. whole_at limit (bytes.now, at) ≡ Ok (p.0, (bytes.now, p.1))) }
    ensures within { IfOk result (λ p. p.1 ≤ length bytes.now) }
    ensures fault { IfErr result (λ fault. whole_at limit (bytes.now, at) ≡ Err fault) }
{
    let rest = &bytes[at..];
    if rest.is_empty() {
        return Err(TextFault::End { at });
    }
    let count = digit_count(rest);
    let digits = &rest[..count];
    if !is_canonical(digits) {
        return Err(TextFault::NotWhole { at });
    }
    match value_within(digits, limit) {
        Some(number) => Ok((number, at + count)),
        None => Err(TextFault::TooLarge { at }),
    }
}

/// The place behind a word that stands at `at`.
fn word_from(bytes: &[u8], at: usize, word: &[u8]) -> Result<usize, TextFault>
    requires { at ≤ length bytes.now }
    ensures ok { IfOk result (λ after. word_at word.now (bytes.now, at) ≡ Ok (bytes.now, after)) }
    ensures within { IfOk result (λ after. after ≤ length bytes.now) }
    ensures fault { IfErr result (λ fault. word_at word.now (bytes.now, at) ≡ Err fault) }
{
    let rest = &bytes[at..];
    if rest.starts_with(word) {
        Ok(at + word.len())
    } else if word.starts_with(rest) {
        Err(TextFault::End { at })
    } else {
        Err(TextFault::Word { at })
    }
}

/// The number below 0 whose digits stand behind a sign. A number out of range is told at the sign,
/// at `at`, and so is 0.
fn below_zero_from(
    bytes: &[u8],
    at: usize,
    digits: usize,
    limit: u128,
) -> Result<(i128, usize), TextFault>
    requires within { digits ≤ length bytes.now }
    requires small { limit < 2 ^ 127 }
    ensures ok { IfOk result (λ p.
        below_zero at (whole_at limit (bytes.now, digits)) ≡ Ok (p.0, (bytes.now, p.1))) }
    ensures behind { IfOk result (λ p. p.1 ≤ length bytes.now) }
    ensures fault { IfErr result (λ fault.
        below_zero at (whole_at limit (bytes.now, digits)) ≡ Err fault) }
{
    match whole_from(bytes, digits, limit) {
        Ok((0, _)) => Err(TextFault::TooLarge { at }),
        Ok((number, after)) => Ok((-(number as i128), after)),
        Err(TextFault::TooLarge { .. }) => Err(TextFault::TooLarge { at }),
        Err(fault) => Err(fault),
    }
}

/// The number in front of the text from `at` on, with its sign, and the place behind its last
/// digit.
fn signed_from(bytes: &[u8], at: usize, limit: u128) -> Result<(i128, usize), TextFault>
    requires within { at ≤ length bytes.now }
    requires small { limit < 2 ^ 127 }
    ensures ok { IfOk result (λ p. signed_at limit (bytes.now, at) ≡ Ok (p.0, (bytes.now, p.1))) }
    ensures behind { IfOk result (λ p. p.1 ≤ length bytes.now) }
    ensures fault { IfErr result (λ fault. signed_at limit (bytes.now, at) ≡ Err fault) }
{
    if let Ok(digits) = word_from(bytes, at, b"-") {
        return below_zero_from(bytes, at, digits, limit);
    }
    let (number, after) = whole_from(bytes, at, limit)?;
    Ok((number as i128, after))
}

/// A text in bytes that is read from its beginning on, and the place up to which it has been read.
///
/// Contracts see it as the pair of the text and the place, which counts bytes and is at most the
/// length of the text. No call takes memory.
#[derive(Drop)]
pub struct Scan<'a> {
    bytes: &'a [u8],
    at: usize,
}

impl<'a> Model for Scan<'a> {
    ghost use Rattle.std.specs.Prelude.{List, ℕ, ◌≤◌, length};

    ghost Value = { List ℕ × ℕ };

    ghost view = { λ s. (s.bytes.now, s.at) };

    ghost invariant = { λ s. s.at ≤ length s.bytes.now };
}

impl<'a> Scan<'a> {
    /// A scan that stands at the first byte.
    pub fn new(bytes: &'a [u8]) -> Self
        ensures { result ≡ (bytes.entry.now, 0) }
    {
        Scan { bytes, at: 0 }
    }

    /// Takes the number that stands at the place: the longest run of decimal digits.
    ///
    /// Refusals, of which the first that applies is answered: `End` where no byte is left,
    /// `NotWhole` where no digit stands there or a `0` with another digit behind it, `TooLarge`
    /// where the number is greater than `limit`. The place is moved behind the last digit, and
    /// stays after a refusal.
    pub fn whole(&mut self, limit: u128) -> Result<u128, TextFault>
        ensures ok { IfOk result (λ n. whole_at limit self.old ≡ Ok (n, self.new)) }
        ensures fault { IfErr result (λ fault. whole_at limit self.old ≡ Err fault) }
        ensures err { OnErr result (self.new ≡ self.old) }

        // What was taken is the one spelling of the number, up to a byte that is no digit.
        ensures number { IfOk result (λ n. TakesNumber limit n self.old self.new) }
    {
        let (number, after) = whole_from(self.bytes, self.at, limit)?;
        self.at = after;
        Ok(number)
    }

    /// Takes the word `w`, which has to stand at the place.
    ///
    /// Refusals: `End` where the rest of the text is `w` cut off before its end, and else `Word`
    /// where it does not begin with `w`. The place is moved behind the word, and stays after a
    /// refusal.
    pub fn word(&mut self, w: &[u8]) -> Result<(), TextFault>
        ensures ok { OnOk result (word_at w.now self.old ≡ Ok self.new) }
        ensures fault { IfErr result (λ fault. word_at w.now self.old ≡ Err fault) }
        ensures err { OnErr result (self.new ≡ self.old) }
        ensures taken { OnOk result (TakesWord w.now self.old self.new) }
    {
        self.at = word_from(self.bytes, self.at, w)?;
        Ok(())
    }

    /// Takes a word that may be missing, and answers whether it stands at the place, which else
    /// stays.
    pub fn take_if(&mut self, w: &[u8]) -> bool
        ensures { optional_at w.now self.old ≡ Ok (result, self.new) }
    {
        self.word(w).is_ok()
    }

    /// Takes a word in whose place another may stand, and answers whether it stands at the place,
    /// which else stays.
    ///
    /// Refusal: `End` where the text ends within the word, so that neither can stand there.
    pub fn choose(&mut self, w: &[u8]) -> Result<bool, TextFault>
        ensures ok { IfOk result (λ stands. choice_at w.now self.old ≡ Ok (stands, self.new)) }
        ensures fault { IfErr result (λ fault. choice_at w.now self.old ≡ Err fault) }
        ensures err { OnErr result (self.new ≡ self.old) }
    {
        match self.word(w) {
            Ok(()) => Ok(true),
            Err(TextFault::End { at }) => Err(TextFault::End { at }),
            Err(_) => Ok(false),
        }
    }

    /// Takes a number from 1 to `limit`.
    ///
    /// Refusals: those of `whole`, and `NotWhole` where the number is 0. The place stays after a
    /// refusal.
    pub fn positive(&mut self, limit: u128) -> Result<u128, TextFault>
        ensures ok { IfOk result (λ n. positive_at limit self.old ≡ Ok (n, self.new)) }
        ensures fault { IfErr result (λ fault. positive_at limit self.old ≡ Err fault) }
        ensures err { OnErr result (self.new ≡ self.old) }
    {
        let (number, after) = whole_from(self.bytes, self.at, limit)?;
        if number == 0 {
            return Err(TextFault::NotWhole { at: self.at });
        }
        self.at = after;
        Ok(number)
    }

    /// Takes a number of at most `limit` in size, with a `-` in front where it is below 0; 0 has
    /// none.
    ///
    /// Refusals: those of `whole`, where `NotWhole` and `End` behind a sign are told at the digits.
    /// `TooLarge` is told at the sign where there is one, and is told of `-0` too. The place stays
    /// after a refusal.
    pub fn signed(&mut self, limit: u128) -> Result<i128, TextFault>
        requires { limit < 2 ^ 127 }
        ensures ok { IfOk result (λ n. signed_at limit self.old ≡ Ok (n, self.new)) }
        ensures fault { IfErr result (λ fault. signed_at limit self.old ≡ Err fault) }
        ensures err { OnErr result (self.new ≡ self.old) }
    {
        let (number, after) = signed_from(self.bytes, self.at, limit)?;
        self.at = after;
        Ok(number)
    }

    /// Refuses a text that goes on behind the place, by `Word`.
    pub fn end(&self) -> Result<(), TextFault>
        ensures ok { OnOk result (rest_of self.now ≡ []) }
        ensures fault { IfErr result (λ fault.
            (rest_of self.now ≢ []) × (fault ≡ Word self.now.1)) }
    {
        if self.is_end() {
            Ok(())
        } else {
            Err(TextFault::Word { at: self.at })
        }
    }

    /// The place: how many bytes have been read.
    pub fn place(&self) -> usize
        ensures place { result ≡ self.now.1 }
        ensures within { result ≤ length self.now.0 }
    {
        self.at
    }

    /// Whether the whole text has been read.
    pub fn is_end(&self) -> bool
        ensures end { IsTrue result ↔ (self.now.1 ≡ length self.now.0) }
        ensures rest { IsTrue result ↔ (rest_of self.now ≡ []) }
    {
        self.at == self.bytes.len()
    }
}
