//! Whether a file can be written, as far as the system tells without a change.

use std::fs::{OpenOptions, metadata};
use std::io::{self, Error, ErrorKind};
use std::path::Path;
use std::rt::Files;

/// Asks the system whether a file can be written under this name. Nothing is made or cut for it: a
/// regular file is opened and closed, a device or a pipe isn't opened, and where nothing has the
/// name, its folder has to be there. Whether a file may be made in that folder isn't told.
pub fn ask_to_write<R: Files>(rt: &R, name: &str) -> io::Result<()> {
    match metadata(rt, name) {
        Ok(found) if found.is_dir() => Err(Error::new(ErrorKind::IsADirectory, "it is a folder")),
        Ok(found) if found.is_file() => open_and_close(rt, name),
        Ok(_) => Ok(()),
        Err(cause) => match cause.kind() {
            ErrorKind::NotFound => ask_folder_of(rt, name, cause),
            ErrorKind::NotADirectory => Err(no_folder()),
            _ => Err(cause),
        },
    }
}

/// Opens a file to be written, and closes it. Its bytes stay.
fn open_and_close<R: Files>(rt: &R, name: &str) -> io::Result<()> {
    OpenOptions::new().write(true).open(rt, name)?;
    Ok(())
}

/// Asks whether the folder is there in which a file of this name would be made. Where the name is
/// in none, it is none of a file, for this cause.
fn ask_folder_of<R: Files>(rt: &R, name: &str, cause: Error) -> io::Result<()> {
    let Some(folder) = Path::new(name).parent() else {
        return Err(cause);
    };
    if folder.as_str().is_empty() {
        return Ok(());
    }
    match metadata(rt, folder) {
        Ok(found) if found.is_dir() => Ok(()),
        Ok(_) => Err(no_folder()),
        Err(cause) if cause.kind() == ErrorKind::NotFound => {
            Err(Error::new(ErrorKind::NotFound, "its folder isn't there"))
        }
        Err(cause) => Err(cause),
    }
}

/// The cause where what a name gives as its folder is none.
fn no_folder() -> Error {
    Error::new(ErrorKind::NotADirectory, "its folder is a file")
}
