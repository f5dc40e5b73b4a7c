//! What stands in the files of a job that failed.

use crate::names::JobNames;
use std::alloc::{AllocError, Global};

/// What failed last.
#[derive(Clone, Copy)]
pub enum Failed<'a> {
    /// The output, behind the files of the job.
    Output,
    /// A file that was opened, by its name.
    File(&'a str),
    /// A file that wasn't opened, or was left as it was, by its name.
    Unchanged(&'a str),
    /// A file of which it was asked, before anything was done, whether it can be written.
    Asked,
}

/// What stands in the files that a job writes, once a file or the output failed: those before it
/// are whole, nothing is known of itself where it was opened, and those behind it are as they were.
/// `None` where no file was to be written, as where one that is read failed.
pub fn left_behind(
    alloc: Global,
    names: &JobNames<'_>,
    failed: Failed<'_>,
) -> Result<Option<String>, AllocError> {
    left_in(alloc, &names.writes, failed)
}

/// The same of these files, any number of them, in the order in which they are written.
pub fn left_in(
    alloc: Global,
    files: &[Option<&str>],
    failed: Failed<'_>,
) -> Result<Option<String>, AllocError> {
    if let Failed::Asked = failed {
        return Ok(Some(String::from_str(alloc, "no file was written")?));
    }
    match place_of(files, failed) {
        Some(at) => told_of(alloc, files, at, left_of(failed)),
        None => Ok(None),
    }
}

/// At which of these files it failed; behind all of them where it was the output.
fn place_of(files: &[Option<&str>], failed: Failed<'_>) -> Option<usize> {
    match failed {
        Failed::Output => Some(files.len()),
        Failed::File(name) | Failed::Unchanged(name) => {
            files.iter().position(|file| *file == Some(name))
        }
        Failed::Asked => None,
    }
}

/// What is known of the file that failed.
fn left_of(failed: Failed<'_>) -> &'static str {
    match failed {
        Failed::Unchanged(_) => " wasn't written",
        _ => " may hold a part, and is to be written again",
    }
}

/// What is said of files of which those before a place were written, and the one there failed, of
/// which so much is known.
fn told_of(
    alloc: Global,
    files: &[Option<&str>],
    failed: usize,
    left: &'static str,
) -> Result<Option<String>, AllocError> {
    let mut told = String::new(alloc);
    for (at, file) in files.iter().enumerate() {
        let Some(file) = file else {
            continue;
        };
        if !told.is_empty() {
            told.push_str(", ")?;
        }
        told.push_str(file)?;
        told.push_str(state_of(at, failed, left))?;
    }
    if told.is_empty() {
        return Ok(None);
    }
    Ok(Some(told))
}

/// What is known of the file at a place, where the one at another failed and is left so.
fn state_of(at: usize, failed: usize, left: &'static str) -> &'static str {
    if at < failed {
        " is whole"
    } else if at == failed {
        left
    } else {
        " is as it was before"
    }
}
