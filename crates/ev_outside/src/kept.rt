//! What shows that the system emptied a file, and that it keeps what was written into it.
//!
//! A value of each kind is made behind the call of the system that it shows, and nowhere else. Of
//! the calls themselves the kit promises nothing.
ghost use Rattle.std.specs.Prelude.{◌≡◌, IfOk, IsSome, OnErr, OnOk};
ghost use Rattle.ev_outside.specs.Kept.{ShowsEmptied, ShowsKept};

use std::fs::{FileType, Metadata, OpenFile};
use std::io::{self, ErrorKind};

/// Shows that the system took all bytes from a file.
#[derive(Drop)]
pub(crate) struct Cut(());

/// Shows that the system synced a file.
#[derive(Drop)]
pub(crate) struct Synced(());

/// Shows that the system was asked to sync a folder, and did so or syncs none.
#[derive(Drop)]
pub(crate) struct Listed(());

/// What shows that a file has no bytes.
#[derive(Drop)]
pub(crate) enum Emptied {
    /// A device or a pipe, which is left as it is.
    Device(FileType),
    /// A regular file.
    File(Cut),
}

/// What shows that a file keeps what was written into it.
#[derive(Drop)]
pub(crate) enum Kept {
    /// A device or a pipe, which keeps nothing.
    Device(FileType),
    /// A regular file, and its folder, where that is open.
    File(Synced, Option<Listed>),
}

/// Takes all bytes from the file of which this was found.
pub(crate) fn empty<F: OpenFile>(
    file: &F,
    found: &Metadata,
    shown: &mut Option<Emptied>,
) -> io::Result<()>
    ensures { OnOk result (ShowsEmptied shown.new) }
{
    *shown = if found.is_file() {
        Some(Emptied::File(truncate(file)?))
    } else {
        Some(Emptied::Device(found.file_type()))
    };
    Ok(())
}

/// Sees that what was written into a file is kept, and that its name is, by its folder, where that
/// is open.
pub(crate) fn keep<F: OpenFile>(
    file: &F,
    folder: &Option<F>,
    shown: &mut Option<Kept>,
) -> io::Result<()>
    ensures kept { OnOk result (ShowsKept folder.now shown.new) }
    ensures unkept { OnErr result (shown.new ≡ shown.old) }
{
    let found = file.metadata()?;
    *shown = if found.is_file() {
        Some(Kept::File(sync(file)?, list_in(folder)?))
    } else {
        Some(Kept::Device(found.file_type()))
    };
    Ok(())
}

/// Syncs the folder, where one is open.
fn list_in<F: OpenFile>(folder: &Option<F>) -> io::Result<Option<Listed>>
    ensures { OnOk result (IsSome folder.now → IfOk result (λ shown. IsSome shown)) }
{
    match folder {
        Some(folder) => Ok(Some(list(folder)?)),
        None => Ok(None),
    }
}

fn truncate<F: OpenFile>(file: &F) -> io::Result<Cut> {
    file.set_len(0)?;
    Ok(Cut(()))
}

fn sync<F: OpenFile>(file: &F) -> io::Result<Synced> {
    file.sync_all()?;
    Ok(Synced(()))
}

/// Syncs a folder, unless its file system syncs none.
fn list<F: OpenFile>(folder: &F) -> io::Result<Listed> {
    match folder.sync_all() {
        Err(cause) if cause.kind() != ErrorKind::InvalidInput => Err(cause),
        _ => Ok(Listed(())),
    }
}
