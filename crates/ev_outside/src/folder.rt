//! The folder in which a file stands.

use std::alloc::Global;
use std::fs::{self, symlink_metadata};
use std::io::{self, Error, ErrorKind};
use std::path::Path;
use std::rt::Files;

/// Opens the folder in which the file under this name stands, which is that of the file that a link
/// leads to. `None` where it can't be had: it may not be read, or the file stands in none.
pub(crate) fn folder_of<R: Files>(
    rt: &R,
    alloc: Global,
    name: &str,
) -> io::Result<Option<R::File>> {
    if !is_link(rt, name) {
        return open_above(rt, Path::new(name));
    }
    match rt.canonicalize(alloc, name) {
        Ok(target) => open_above(rt, target.as_path()),
        Err(cause) => without(cause),
    }
}

/// Whether the name is a link.
fn is_link<R: Files>(rt: &R, name: &str) -> bool {
    match symlink_metadata(rt, name) {
        Ok(found) => found.is_symlink(),
        Err(_) => false,
    }
}

/// Opens the folder above a path.
fn open_above<R: Files>(rt: &R, path: Path<'_>) -> io::Result<Option<R::File>> {
    let folder = match path.parent() {
        Some(folder) if !folder.as_str().is_empty() => folder.as_str(),
        _ => ".",
    };
    match fs::open(rt, folder) {
        Ok(folder) => Ok(Some(folder)),
        Err(cause) => without(cause),
    }
}

/// No folder where it can't be had for this cause, and else the failure.
fn without<F>(cause: Error) -> io::Result<Option<F>> {
    match cause.kind() {
        ErrorKind::NotFound
        | ErrorKind::PermissionDenied
        | ErrorKind::InvalidData
        | ErrorKind::Unsupported => Ok(None),
        _ => Err(cause),
    }
}
