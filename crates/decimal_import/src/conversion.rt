//! The conversion of a text.
ghost use Rattle.std.specs.Prelude.{true, ◌≡◌, ◌+◌, ◌-◌, ◌<◌, ◌≤◌, ◌^◌, ◌↔◌, ◌⊎◌, [], ◌++◌, Ok, Err, Some, None, IfOk, IfErr, IsErrOf, OnOk, OnErr, ℕ, length};
ghost use Rattle.decimal_import.specs.Conversion.{conversion_of, converted_from, converted_token, digits_of, Refuses, and_then};
ghost use Rattle.decimal_import.specs.Converted.{IsConverted};
ghost use Rattle.decimal_import.specs.Grammar.{is_token};
ghost use Rattle.decimal_import.specs.Progress.{outcome};
ghost use Rattle.decimal_import.specs.Token.{token_text};
ghost use Rattle.decimal_import.specs.View.{token_of};

use crate::fault::ImportFault;
use crate::nesting::{Nesting, Unit};
use crate::token::{Token, split_token};
use itoa::Buffer;
use std::alloc::{AllocError, Global};

/// The greatest length of a text.
const MAX_LENGTH: usize = 1 << 26;

/// The greatest count of decimal digits that are kept of a unit.
const MAX_DIGITS: u32 = 9;

/// Converts the numbers of a JSON text to whole units, each rounded up.
///
/// A number under the key `time_matrix`, `process_times`, `time`, `t_max`, `max_t` or `plug_time`
/// becomes the least whole number that isn't below its value times `10^time_digits`, and one under
/// `energy_matrix`, `max_q`, `charge`, `min_q` or `home_q` that with `10^energy_digits`; every
/// other byte stays. A number stands under the last key of the innermost open brace or bracket,
/// where a bracket begins with the key that it stands under itself. Only the tokens of the text are
/// judged, and how braces and brackets are nested.
///
/// The first of these faults is answered: `TooLong`, where the text is longer than 2^26 bytes;
/// `Digits`, where a count of digits is past 9; and then the one of the first broken byte among
/// `Token`, `Negative` and `TooLarge`. `Memory` may come in the place of any but the first two.
pub fn convert(
    alloc: Global,
    bytes: &[u8],
    time_digits: u32,
    energy_digits: u32,
) -> Result<Vec<u8>, ImportFault>
    ensures ok { IfOk result (λ text. conversion_of bytes.now time_digits energy_digits
        ≡ Ok text.items) }
    ensures fault { IfErr result (λ fault.
        Refuses fault (conversion_of bytes.now time_digits energy_digits)) }

    // The bytes are the longest tokens from the left; each number under a key with a unit becomes
    // the least whole number, and every other token stays.
    ensures converted { IfOk result (λ text.
        IsConverted time_digits energy_digits bytes.now text.items) }

    // Neither of these yields to want of memory.
    ensures too_long { (len : ℕ) → IsErrOf result (ImportFault.TooLong len) ↔
        ((len ≡ length bytes.now) × (2 ^ 26 < len)) }
    ensures digits { IsErrOf result ImportFault.Digits ↔
        ((length bytes.now ≤ 2 ^ 26) × ((9 < time_digits) ⊎ (9 < energy_digits))) }
{
    if bytes.len() > MAX_LENGTH {
        return Err(ImportFault::TooLong { len: bytes.len() });
    }
    if time_digits > MAX_DIGITS || energy_digits > MAX_DIGITS {
        return Err(ImportFault::Digits);
    }
    let digits = UnitDigits {
        time: time_digits,
        energy: energy_digits,
    };
    convert_tokens(alloc, bytes, digits)
}

/// How many decimal digits are kept of each unit.
#[derive(Clone, Copy)]
struct UnitDigits {
    time: u32,
    energy: u32,
}

impl UnitDigits {
    fn of(self, unit: Unit) -> u32
        ensures { result ≡ digits_of self unit }
    {
        match unit {
            Unit::Time => self.time,
            Unit::Energy => self.energy,
        }
    }

    /// Appends what stands for a token with this spelling, at this place, under a key with this
    /// unit.
    fn push(
        self,
        text: &mut Vec<u8>,
        token: &Token<'_>,
        spelling: &[u8],
        unit: Option<Unit>,
        at: usize,
    ) -> Result<(), ImportFault>
        requires token { is_token (token_of token.now) ≡ true }
        requires spelling { spelling.now ≡ token_text (token_of token.now) }
        ensures ok { OnOk result (and_then (converted_token self at unit (token_of token.now))
            (λ piece. Ok (text.old.items ++ piece)) ≡ Ok text.new.items) }
        ensures fault { IfErr result (λ fault.
            Refuses fault (converted_token self at unit (token_of token.now))) }
    {
        match (token, unit) {
            (Token::Number(literal), Some(unit)) => {
                let number = literal.whole_number(self.of(unit), at)?;
                append(text, Buffer::new().format(number).as_bytes())
            }
            _ => append(text, spelling),
        }
    }
}

/// Appends bytes.
fn append(text: &mut Vec<u8>, bytes: &[u8]) -> Result<(), ImportFault>
    ensures ok { OnOk result (text.new.items ≡ text.old.items ++ bytes.now) }
    ensures fault { IfErr result (λ fault. fault ≡ ImportFault.Memory) }
{
    match text.extend_from_slice(bytes) {
        Ok(()) => Ok(()),
        Err(AllocError) => Err(ImportFault::Memory),
    }
}

/// A conversion under way: the text that is converted so far, and what is open behind it.
#[derive(Drop)]
struct Conversion {
    digits: UnitDigits,
    nesting: Nesting,
    text: Vec<u8>,
}

/// Converts a text token by token.
fn convert_tokens(alloc: Global, bytes: &[u8], digits: UnitDigits) -> Result<Vec<u8>, ImportFault>
    ensures ok { IfOk result (λ text. converted_from digits 0 [] bytes.now ≡ Ok text.items) }
    ensures fault { IfErr result (λ fault. Refuses fault (converted_from digits 0 [] bytes.now)) }
{
    let mut conversion = Conversion {
        digits,
        nesting: Nesting::new(alloc),
        text: Vec::new(alloc),
    };
    let mut rest = bytes;
    while !rest.is_empty() {
        rest = conversion.step(rest, bytes.len() - rest.len())?;
    }
    conversion.finish(bytes.len())
}

impl Conversion {
    /// Converts the token in front of these bytes, which stand at this place. Answers what follows
    /// it.
    fn step<'a>(&mut self, bytes: &'a [u8], at: usize) -> Result<&'a [u8], ImportFault>
        requires { 0 < length bytes.now }
        ensures ok { IfOk result (λ rest.
            outcome self.new (at + (length bytes.now - length rest.now)) rest.now
            ≡ outcome self.old at bytes.now) }
        ensures shorter { IfOk result (λ rest. length rest.now < length bytes.now) }
        ensures fault { IfErr result (λ fault. Refuses fault (outcome self.old at bytes.now)) }
    {
        let Some((token, rest)) = split_token(bytes) else {
            return Err(ImportFault::Token { at });
        };
        let spelling = &bytes[..bytes.len() - rest.len()];
        let unit = self.nesting.unit();
        self.nesting.pass(&token, rest, at)?;
        self.digits
            .push(&mut self.text, &token, spelling, unit, at)?;
        Ok(rest)
    }

    /// The converted text, at the end of the text.
    fn finish(self, at: usize) -> Result<Vec<u8>, ImportFault>
        ensures ok { IfOk result (λ text. outcome self at [] ≡ Ok text.items) }
        ensures fault { IfErr result (λ fault. Refuses fault (outcome self at [])) }
    {
        if self.nesting.is_empty() {
            Ok(self.text)
        } else {
            Err(ImportFault::Token { at })
        }
    }
}
