//! The names of a job's files.

use std::alloc::{AllocError, Global};
use std::fs::metadata;
use std::rt::Files;

/// The instances that a job reads.
#[derive(Clone, Copy)]
pub enum Instances<'a> {
    /// None.
    None,
    /// One.
    One(&'a str),
    /// One for each kind of vehicles.
    Kinds(&'a [String]),
}

/// What a job reads and writes, by name.
#[derive(Clone, Copy)]
pub struct JobNames<'a> {
    /// The instances that it reads.
    pub instances: Instances<'a>,
    /// The limit on the time of a route, where its words give one.
    pub limit: Option<u64>,
    /// The word of the route, where it has one.
    pub route: Option<&'a str>,
    /// The file of the plan that it reads.
    pub plan: Option<&'a str>,
    /// The file of the certificate, or of the proof, that it reads.
    pub proof: Option<&'a str>,
    /// What that file holds.
    pub proof_is: &'static str,
    /// The files that it writes, in order.
    pub writes: [Option<&'a str>; 2],
    /// Whether it writes them behind a search, which takes long.
    pub has_search: bool,
    /// Who reads the last of them again, where it is a certificate or a proof.
    pub judge: Option<&'static str>,
}

impl<'a> Instances<'a> {
    /// The instance at a place, counted from 0.
    pub fn at(&self, at: usize) -> Option<&'a str> {
        match self {
            Instances::None => None,
            Instances::One(name) if at == 0 => Some(*name),
            Instances::One(_) => None,
            Instances::Kinds(names) => names.get(at).map(|name| name.as_str()),
        }
    }

    /// How many there are.
    pub fn count(&self) -> usize {
        match self {
            Instances::None => 0,
            Instances::One(_) => 1,
            Instances::Kinds(names) => names.len(),
        }
    }

    /// One of them, in words.
    pub fn one_of(&self, alloc: Global) -> Result<String, AllocError> {
        let mut told = String::new(alloc);
        for at in 0..self.count() {
            if at > 0 {
                told.push_str(" or ")?;
            }
            told.push_str(or_the_file(self.at(at)))?;
        }
        if told.is_empty() {
            told.push_str("the file")?;
        }
        Ok(told)
    }
}

/// A name, or what stands for one that isn't there.
pub(crate) fn or_the_file(name: Option<&str>) -> &str {
    match name {
        Some(name) => name,
        None => "the file",
    }
}

/// Whether each of these instances is a regular file: a pipe gives its bytes once.
pub fn are_regular<R: Files>(files: &R, instances: Instances<'_>) -> bool {
    for at in 0..instances.count() {
        match metadata(files, or_the_file(instances.at(at))) {
            Ok(found) if found.is_file() => {}
            _ => return false,
        }
    }
    true
}
