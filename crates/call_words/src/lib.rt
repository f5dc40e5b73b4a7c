//! What the words of calls have in common, whichever program is called: the `clap` command that
//! reads them, what it finds, numbers in their one spelling, and names that have to differ.
#![tactic(auto)]

mod command;
mod laws;
mod matches;
mod words;

pub use command::{with_option, with_positionals, without_arguments};
pub use laws::numbers_have_one_spelling;
pub use matches::{first_of, gives_own, limit_in, matches_of, named};
pub use words::{
    GREATEST_VALUE, are_different, is_listed, number_of, optional_number, required_number,
};
