//! Calls of the system that failed, told to people.

use std::fmt::{self, Display, Formatter};
use std::io::Error;

/// A call of the system that failed: the name of its file or `standard output`, and why it failed.
#[derive(Clone, Copy)]
pub struct Failure<'a> {
    pub name: &'a str,
    pub cause: Error,
    /// Whether standard error goes to this file, so that people can't be told there.
    pub is_standard_error: bool,
}

impl Display for Failure<'_> {
    fn fmt<W: fmt::Write>(&self, f: &mut Formatter<W>) -> fmt::Result {
        write!(f, "{}: {}", self.name, self.cause)
    }
}
