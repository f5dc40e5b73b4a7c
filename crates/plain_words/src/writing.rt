//! Files that can't be written, seen before a long search.

use crate::names::JobNames;
use ev_outside::ask_to_write;
use std::alloc::{AllocError, Global};
use std::rt::Files;

/// Which file that a job would write behind its search can't be written, and why, as far as the
/// system tells without a change. `None` for jobs without a search, which take no time.
pub fn unwritable<R: Files>(
    alloc: Global,
    files: &R,
    names: &JobNames<'_>,
) -> Result<Option<String>, AllocError> {
    if !names.has_search {
        return Ok(None);
    }
    for file in &names.writes {
        if let Some(name) = file {
            if let Some(told) = told_of(alloc, files, name)? {
                return Ok(Some(told));
            }
        }
    }
    Ok(None)
}

/// What is said of a file that can't be written.
fn told_of<R: Files>(alloc: Global, files: &R, name: &str) -> Result<Option<String>, AllocError> {
    match ask_to_write(files, name) {
        Ok(()) => Ok(None),
        Err(why) => Ok(Some(format!(in alloc; "{name} can't be written: {why}")?)),
    }
}
