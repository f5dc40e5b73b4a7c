//! Digits in front of a text.
ghost use Rattle.std.specs.Prelude.{◌≡◌, length, take, drop};
ghost use Rattle.decimal_import.specs.Digits.{digits_in_front};

/// The longest run of digits in front, and what follows it.
pub(crate) fn split_digits(bytes: &[u8]) -> (&[u8], &[u8])
    ensures digits { result.0.now ≡ digits_in_front bytes.now }
    ensures rest { result.1.now ≡ drop (length (digits_in_front bytes.now)) bytes.now }
{
    bytes.split_at(digit_count(bytes))
}

/// How many digits stand in front.
#[tactic(auto, using(crate::proofs::DigitRuns::runs_in_front))]
fn digit_count(bytes: &[u8]) -> usize
    ensures count { result ≡ length (digits_in_front bytes.now) }
    ensures front { take result bytes.now ≡ digits_in_front bytes.now }
{
    for (index, byte) in bytes.iter().enumerate() {
        if !byte.is_ascii_digit() {
            return index;
        }
    }
    bytes.len()
}
