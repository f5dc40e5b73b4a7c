//! From which byte on a file is no JSON text.

use crate::names::{Instances, or_the_file};
use ev_outside::Shelf;
use instance_reader::MOST_BYTES;
use serde_json::Value;
use serde_json::error::Category;
use std::alloc::{AllocError, Global};

/// The byte order mark, in UTF-8.
const MARK: &[u8] = b"\xef\xbb\xbf";

/// What is said where an instance was refused since it is no JSON text: from which byte on, counted
/// from 0. The instances are read again, and the first of them is told that is none. `None` where
/// they can't be had or are JSON texts by now.
pub fn broken_json<S: Shelf>(
    alloc: Global,
    shelf: &mut S,
    instances: Instances<'_>,
) -> Result<Option<String>, AllocError> {
    for at in 0..instances.count() {
        if let Some(told) = told_in(alloc, shelf, or_the_file(instances.at(at)))? {
            return Ok(Some(told));
        }
    }
    Ok(None)
}

/// What is said of a file, where it can be had.
fn told_in<S: Shelf>(
    alloc: Global,
    shelf: &mut S,
    file: &str,
) -> Result<Option<String>, AllocError> {
    let mut bytes = Vec::new(alloc);
    if shelf.read(file, MOST_BYTES, &mut bytes).is_err() {
        return Ok(None);
    }
    told_of(alloc, file, bytes.as_slice())
}

/// What is said of the bytes of a file.
fn told_of(alloc: Global, file: &str, bytes: &[u8]) -> Result<Option<String>, AllocError> {
    if bytes.starts_with(MARK) {
        return Ok(Some(format!(in alloc;
            "{file}: begins with a byte order mark, which no JSON text has"
        )?));
    }
    let Err(error) = Value::from_slice(alloc, bytes) else {
        return Ok(None);
    };
    match error.classify() {
        Category::Memory => Ok(None),
        Category::Eof => Ok(Some(format!(in alloc;
            "{file}: the JSON text ends too early, at byte {}",
            bytes.len()
        )?)),
        _ => {
            let from = place(bytes, error.line(), error.column());
            Ok(Some(format!(in alloc; "{file}: no JSON text from byte {from} on")?))
        }
    }
}

/// The byte at a line and a column, both counted from 1.
fn place(bytes: &[u8], line: usize, column: usize) -> usize {
    let mut lines_left = line.saturating_sub(1);
    let mut start: usize = 0;
    for (at, byte) in bytes.iter().enumerate() {
        if lines_left == 0 {
            break;
        }
        if *byte == b'\n' {
            lines_left -= 1;
            start = at.saturating_add(1);
        }
    }
    start.saturating_add(column.saturating_sub(1))
}
