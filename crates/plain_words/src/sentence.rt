//! A sentence whose marks stand for what is known of a job.

use crate::names::{JobNames, or_the_file};
use instance_reader::{Part, Place};
use std::alloc::{AllocError, Global};

/// A sentence, and what its own marks stand for.
#[derive(Clone, Copy)]
pub struct Sentence {
    /// What is said. The marks `{1}`, `{2}` and `{3}` stand for the numbers, `{place}` and `{word}`
    /// for these, and those in capitals for names of the job.
    says: &'static str,
    numbers: [u64; 3],
    place: Option<Place>,
    word: &'static str,
}

impl Sentence {
    /// A sentence with no mark of its own.
    pub fn plain(says: &'static str) -> Sentence {
        Sentence {
            says,
            numbers: [0; 3],
            place: None,
            word: "",
        }
    }

    /// A sentence about a number of a certificate or a plan.
    pub fn one(says: &'static str, first: usize) -> Sentence {
        Sentence::three(says, first, 0, 0)
    }

    /// A sentence about two numbers.
    pub fn two(says: &'static str, first: usize, second: usize) -> Sentence {
        Sentence::three(says, first, second, 0)
    }

    /// A sentence about three numbers.
    pub fn three(says: &'static str, first: usize, second: usize, third: usize) -> Sentence {
        Sentence {
            numbers: [first as u64, second as u64, third as u64],
            ..Sentence::plain(says)
        }
    }

    /// A sentence about an amount.
    pub fn about(says: &'static str, amount: u64) -> Sentence {
        Sentence {
            numbers: [amount, 0, 0],
            ..Sentence::plain(says)
        }
    }

    /// A sentence about a place in an instance.
    pub fn placed(says: &'static str, place: Place) -> Sentence {
        Sentence {
            place: Some(place),
            ..Sentence::plain(says)
        }
    }

    /// A sentence with a word.
    pub fn worded(says: &'static str, word: &'static str) -> Sentence {
        Sentence::plain(says).saying(word)
    }

    /// The same sentence with a word.
    pub fn saying(self, word: &'static str) -> Sentence {
        Sentence { word, ..self }
    }

    /// The same sentence with an amount as its second number.
    pub fn then(self, amount: u64) -> Sentence {
        let [first, _, third] = self.numbers;
        Sentence {
            numbers: [first, amount, third],
            ..self
        }
    }

    /// The sentence for a job with these names.
    pub fn told(self, alloc: Global, names: &JobNames<'_>) -> Result<String, AllocError> {
        let mut told = String::new(alloc);
        for piece in self.says.split('{') {
            match piece.split_once('}') {
                Some((mark, rest)) => {
                    self.push_mark(alloc, &mut told, names, mark)?;
                    told.push_str(rest)?;
                }
                None => told.push_str(piece)?,
            }
        }
        Ok(told)
    }

    /// Appends what a mark stands for.
    fn push_mark(
        &self,
        alloc: Global,
        told: &mut String,
        names: &JobNames<'_>,
        mark: &str,
    ) -> Result<(), AllocError> {
        let [first, second, third] = self.numbers;
        match mark {
            "1" => push_number(alloc, told, first),
            "2" => push_number(alloc, told, second),
            "3" => push_number(alloc, told, third),
            "place" => push_place(alloc, told, self.place),
            "FILE" => told.push_str(names.instances.one_of(alloc)?.as_str()),
            _ => told.push_str(self.word_at(names, mark)),
        }
    }

    /// The word that a mark stands for.
    fn word_at<'a>(&self, names: &JobNames<'a>, mark: &str) -> &'a str {
        let [first, _, _] = self.numbers;
        match mark {
            "file of kind" => or_the_file(names.instances.at(first as usize)),
            "PLAN" => or_the_file(names.plan),
            "CERT" => or_the_file(names.proof),
            "ROUTE" => or_the_file(names.route),
            "a certificate" => names.proof_is,
            _ => self.word,
        }
    }
}

/// Appends a number.
fn push_number(alloc: Global, told: &mut String, number: u64) -> Result<(), AllocError> {
    told.push_str(format!(in alloc; "{number}")?.as_str())
}

/// Appends a place: keys and indices joined by slashes.
fn push_place(alloc: Global, told: &mut String, place: Option<Place>) -> Result<(), AllocError> {
    let Some(Place { key, i, part, j }) = place else {
        return Ok(());
    };
    told.push_str(key.name())?;
    push_index(alloc, told, i)?;
    push_part(told, part)?;
    push_index(alloc, told, j)
}

/// Appends an index behind a slash, where there is one.
fn push_index(alloc: Global, told: &mut String, index: Option<usize>) -> Result<(), AllocError> {
    match index {
        Some(index) => told.push_str(format!(in alloc; "/{index}")?.as_str()),
        None => Ok(()),
    }
}

/// Appends a part behind a slash, where there is one.
fn push_part(told: &mut String, part: Option<Part>) -> Result<(), AllocError> {
    match part {
        Some(part) => {
            told.push_str("/")?;
            told.push_str(part.name())
        }
        None => Ok(()),
    }
}
