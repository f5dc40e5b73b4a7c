//! A scanner over text in bytes, and the spelling of whole numbers.
//!
//! A number has one spelling: its decimal digits without leading zeros, with a `-` in front where
//! it is negative, and `0` for zero. That is what std writes for `{}`, so contracts cite std's
//! `decimal` and `signed_decimal`; `one_spelling` states that no other text of digits in this form
//! has the value.
//!
//! What a text of parts owes its reader is proved from its parts: of a record
//! `proofs/Records.antt`, of a choice by a word `Choices.antt`, of a line of so many items
//! `Lines.antt`.
#![tactic(auto)]

mod laws;
mod number;
mod scan;

pub use laws::{one_signed_spelling, one_spelling, whole_answers, word_answers};
pub use number::{push_signed, push_whole};
pub use scan::Scan;
use thiserror::Error;

/// Why a scan did not read what was asked for. `at` counts bytes from the beginning of the text: it
/// is where the number or the word was to begin.
#[derive(Clone, Copy, Debug, Drop, PartialEq, Eq, Error)]
pub enum TextFault {
    /// No digit stands here, or a `0` with another digit behind it.
    #[error("no whole number at byte {at}")]
    NotWhole { at: usize },
    /// The number is greater than the limit that was answer.
    #[error("the number at byte {at} is too large")]
    TooLarge { at: usize },
    /// The text goes on otherwise than with the word.
    #[error("unexpected text at byte {at}")]
    Word { at: usize },
    /// The text ends before the number, or within the word.
    #[error("the text ends too early at byte {at}")]
    End { at: usize },
}
