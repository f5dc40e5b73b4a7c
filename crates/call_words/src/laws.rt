//! The law of numbers. A law is a function whose meaning is its contract, which is proved for all
//! words.

ghost use Rattle.std.specs.Prelude.{◌≡◌, ◌≤◌, ◌↔◌, List, ℕ, Some, decimal};
ghost use Rattle.call_words.specs.Numbers.{number_of};

use ev_text::whole_answers;

/// A word is read as a number exactly where it is the number's decimal digits, without leading
/// zeros, and the number is at most `most`.
pub fn numbers_have_one_spelling(most: u64)
    ensures { (word : List ℕ) (n : ℕ) →
        (number_of most word ≡ Some n) ↔ ((word ≡ decimal n) × (n ≤ most)) }
{
    whole_answers(u128::from(most));
}
