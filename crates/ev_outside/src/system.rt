//! The files and the output of the system. These calls are trusted to do what [`Storage`] and
//! [`Stream`] say; what they answer and count is proved, and that the cause of the last call that
//! failed is kept for people.
ghost use Rattle.std.specs.Prelude.{◌≡◌, ◌<◌, ◌≤◌, ◌↔◌, ℕ, [], None, Some, true, false, is_some, IfErr, IfOk, IfSome, codes, IsErr, IsNone, IsSome, MatchOption, MatchResult, OnErr, OnOk, length, refl, string_bytes, take};
ghost use Rattle.std.specs.Io.KnownBytes.{ReadConsumes, WriteAppends};
ghost use Rattle.ev_outside.specs.Counts.{CountsOne, IsCounted};
ghost use Rattle.ev_outside.specs.Kept.{KeptBehind, ShowsEmptied, ShowsKept};
ghost use Rattle.ev_outside.specs.Shelf.{HasAsked, KeepsOthers};
ghost use Rattle.ev_outside.specs.Storage.{Creates, Opens, files_of, rest_of};
ghost use Rattle.ev_outside.specs.SystemName.{asked_by};

use super::answers::{read_piece, write_piece};
use super::asking::ask_to_write;
use super::failure::Failure;
use super::folder::folder_of;
use super::kept::{Emptied, Kept, empty, keep};
use super::known_files::{FileId, KnownFiles};
use super::storage::{CallFailed, Storage, Stream};
use std::alloc::Global;
use std::fs::{self, Metadata, OpenFile, OpenOptions};
use std::io::{self, Error, ErrorKind, Print};
use std::rt::Files;

/// Where Linux has the file that standard output goes to.
const STANDARD_OUTPUT: &str = "/proc/self/fd/1";

/// Where Linux has the file that standard error goes to.
const STANDARD_ERROR: &str = "/proc/self/fd/2";

/// The files of the system, which don't tell their bytes.
///
/// A regular file that was read or written isn't written under another name, nor is one that
/// standard output or standard error goes to: such a write fails before the file is changed.
#[derive(Drop)]
pub struct SystemFiles<'a, R: Files> {
    rt: &'a R,
    alloc: Global,
    /// The file that is open. Its descriptor is above 2.
    file: Option<R::File>,
    /// The folder of the file that is written, where it is a regular one and its folder can be had.
    folder: Option<R::File>,
    /// What shows that the file that was made last was empty.
    emptied: Option<Emptied>,
    /// What shows that it is kept.
    kept: Option<Kept>,
    /// The regular files that were opened.
    known: KnownFiles,
    /// Whether the file that was asked for last was opened to be written, so that it may hold a
    /// part.
    is_changed: bool,
    /// Whether it was only asked whether that file can be written.
    is_question: bool,
    /// Whether standard error goes to it.
    is_standard_error: bool,
    /// The name that was asked for last, where there was memory for it.
    name: Option<String>,
    /// Why the last call on this file that failed did.
    cause: Option<Error>,
    failed: u64,
}

impl<'a, R: Files> SystemFiles<'a, R> {
    /// The files that the runtime reaches. None is open, and no call has failed yet. The memory is
    /// for the name of a file that people are told.
    pub fn new(alloc: Global, rt: &'a R) -> Self
        ensures failed { result.failed ≡ 0 }
        ensures cause { IsNone result.cause }
        ensures closed { IsNone result.file }
    {
        SystemFiles {
            rt,
            alloc,
            file: None,
            folder: None,
            emptied: None,
            kept: None,
            known: KnownFiles::new(alloc),
            is_changed: false,
            is_question: false,
            is_standard_error: false,
            name: None,
            cause: None,
            failed: 0,
        }
    }

    /// The last call that failed on the file that was asked for last, for people: the name of the
    /// file (`a file` where there was no memory for it), and why the call failed. None comes
    /// exactly where none has.
    pub fn last_failure(&self) -> Option<Failure<'_>>
        ensures none { IsNone result ↔ IsNone self.now.cause }
        ensures cause { IfSome result (λ failure. self.now.cause ≡ Some failure.cause) }
        ensures name { IfSome result (λ failure. IfSome self.now.name
            (λ name. failure.name.now ≡ string_bytes name)) }
        ensures asked { IfSome result (λ failure.
            HasAsked failure.name.now (asked_by self.now.name)) }
        ensures told { IfSome result (λ failure.
            failure.is_standard_error ≡ self.now.is_standard_error) }
    {
        let cause = self.cause?;
        let name = match &self.name {
            Some(name) => name.as_str(),
            None => "a file",
        };
        Some(Failure {
            name,
            cause,
            is_standard_error: self.is_standard_error,
        })
    }

    /// Whether the file that was asked for last was opened to be written, and not left as it was.
    pub fn is_changed(&self) -> bool
        ensures { result ≡ self.now.is_changed }
    {
        self.is_changed
    }

    /// Whether it was only asked whether the file that was asked for last can be written.
    pub fn is_question(&self) -> bool
        ensures { result ≡ self.now.is_question }
    {
        self.is_question
    }

    /// Begins with another file: keeps its name, where there is memory for it, and forgets why
    /// calls on the one before failed.
    #[tactic(auto, using(crate::proofs::SystemNames::has_asked))]
    fn begin(&mut self, name: &str)
        ensures name { IfSome self.new.name (λ kept. string_bytes kept ≡ name.now) }
        ensures asked { HasAsked name.now (asked_by self.new.name) }
        ensures failed { self.new.failed ≡ self.old.failed }
        ensures cause { IsNone self.new.cause }
        ensures kept { IsNone self.new.kept }
        ensures file { self.new.file ≡ self.old.file }
    {
        self.name = String::from_str(self.alloc, name).ok();
        self.cause = None;
        self.is_changed = false;
        self.is_question = false;
        self.is_standard_error = false;
        self.folder = None;
        self.emptied = None;
        self.kept = None;
    }

    /// Keeps the file that the system opened, or counts that it opened none.
    fn hold(&mut self, opened: io::Result<R::File>) -> Result<(), CallFailed>
        ensures counts { IsCounted result self.old.failed self.new.failed }
        ensures held { OnOk result (IsSome self.new.file) }
        ensures cause { MatchResult result (λ _. self.new.cause ≡ self.old.cause)
            (λ _. IsSome self.new.cause) }
        ensures refused { IfErr opened (λ cause. IsErr result × (self.new.cause ≡ Some cause)) }
        ensures name { self.new.name ≡ self.old.name }
        ensures kept { self.new.kept ≡ self.old.kept }
    {
        match opened.and_then(above_standard) {
            Ok(file) => {
                self.file = Some(file);
                Ok(())
            }
            Err(cause) => Err(self.fail(cause)),
        }
    }

    /// Keeps which regular file it is that is open under this name.
    fn note(&mut self, name: &str) -> io::Result<()>
        ensures failed { self.new.failed ≡ self.old.failed }
        ensures kept { self.new.kept ≡ self.old.kept }
        ensures cause { self.new.cause ≡ self.old.cause }
        ensures name { self.new.name ≡ self.old.name }
        ensures file { self.new.file ≡ self.old.file }
    {
        let found = metadata_of(&self.file)?;
        if found.is_file() {
            self.known.add(name, FileId::of(&found))?;
        }
        Ok(())
    }

    /// Takes all bytes from the regular file that is open under this name, unless it isn't to be
    /// written. A device or a pipe is left as it is.
    fn cut(&mut self, name: &str) -> io::Result<()>
        ensures emptied { OnOk result (ShowsEmptied self.new.emptied) }
        ensures kept { self.new.kept ≡ self.old.kept }
        ensures failed { self.new.failed ≡ self.old.failed }
        ensures cause { self.new.cause ≡ self.old.cause }
        ensures name { self.new.name ≡ self.old.name }
        ensures file { self.new.file ≡ self.old.file }
    {
        let found = metadata_of(&self.file)?;
        if found.is_file() {
            self.admit(name, &found)?;
        }
        match &self.file {
            Some(file) => empty(file, &found, &mut self.emptied),
            None => Err(no_file()),
        }
    }

    /// Sees that the regular file that is open under this name may be written, and opens its
    /// folder. It fails where the file has bytes and was opened under another name before, and
    /// where standard output or standard error goes to it.
    fn admit(&mut self, name: &str, found: &Metadata) -> io::Result<()>
        ensures kept { self.new.kept ≡ self.old.kept }
        ensures failed { self.new.failed ≡ self.old.failed }
        ensures cause { self.new.cause ≡ self.old.cause }
        ensures name { self.new.name ≡ self.old.name }
        ensures file { self.new.file ≡ self.old.file }
    {
        let id = FileId::of(found);
        self.spare_outputs(id)?;

        // An empty file has nothing to lose. One that was just made may have the number of a
        // file that was read and then deleted.
        if found.len() > 0 && !self.known.is_only_here(name, id) {
            return self.leave("this job read or wrote the same file under another name");
        }
        self.known.add(name, id)?;
        self.folder = folder_of(self.rt, self.alloc, name)?;
        Ok(())
    }

    /// Sees that neither standard output nor standard error goes to this file.
    fn spare_outputs(&mut self, id: FileId) -> io::Result<()>
        ensures kept { self.new.kept ≡ self.old.kept }
        ensures failed { self.new.failed ≡ self.old.failed }
        ensures cause { self.new.cause ≡ self.old.cause }
        ensures name { self.new.name ≡ self.old.name }
        ensures file { self.new.file ≡ self.old.file }
        ensures question { self.new.is_question ≡ self.old.is_question }
    {
        self.is_standard_error = goes_to(self.rt, STANDARD_ERROR, id);
        if goes_to(self.rt, STANDARD_OUTPUT, id) {
            return self.leave("standard output goes to this file");
        }
        if self.is_standard_error {
            return self.leave("standard error goes to this file");
        }
        Ok(())
    }

    /// Asks whether a file can be written under this name, to which no output may go.
    fn ask(&mut self, name: &str) -> io::Result<()>
        ensures kept { self.new.kept ≡ self.old.kept }
        ensures failed { self.new.failed ≡ self.old.failed }
        ensures cause { self.new.cause ≡ self.old.cause }
        ensures name { self.new.name ≡ self.old.name }
        ensures file { self.new.file ≡ self.old.file }
        ensures question { self.new.is_question ≡ self.old.is_question }
    {
        if let Some(id) = regular_file(self.rt, name) {
            self.spare_outputs(id)?;
        }
        ask_to_write(self.rt, name)
    }

    /// The file that is open isn't written, for this reason.
    fn leave(&mut self, why: &'static str) -> io::Result<()>
        ensures refused { IsErr result }
        ensures told { self.new.is_changed ≡ false }
        ensures question { self.new.is_question ≡ self.old.is_question }
        ensures kept { self.new.kept ≡ self.old.kept }
        ensures failed { self.new.failed ≡ self.old.failed }
        ensures cause { self.new.cause ≡ self.old.cause }
        ensures name { self.new.name ≡ self.old.name }
        ensures file { self.new.file ≡ self.old.file }
    {
        self.is_changed = false;
        Err(Error::new(ErrorKind::InvalidInput, why))
    }

    /// Counts a call that failed, up to the last value of the count.
    fn fail(&mut self, cause: Error) -> CallFailed
        ensures failed { CountsOne self.old.failed self.new.failed }
        ensures cause { self.new.cause ≡ Some cause }
        ensures kept { self.new.kept ≡ self.old.kept }
        ensures name { self.new.name ≡ self.old.name }
        ensures file { self.new.file ≡ self.old.file }
        ensures question { self.new.is_question ≡ self.old.is_question }
    {
        self.cause = Some(cause);
        self.failed = self.failed.saturating_add(1);
        CallFailed
    }
}

/// The same open file under a descriptor above 2. Where one of the descriptors 0 to 2 is closed,
/// the system opens a file under it, and what is put or told would be written into the file.
fn above_standard<F: OpenFile + Drop>(file: F) -> io::Result<F> {
    file.try_clone()
}

/// Opens a file to be written, and makes it where it isn't there. Its bytes stay.
fn open_uncut<R: Files>(rt: &R, name: &str) -> io::Result<R::File> {
    OpenOptions::new().write(true).create(true).open(rt, name)
}

/// What the system says of the file that is open.
fn metadata_of<F: OpenFile>(file: &Option<F>) -> io::Result<Metadata> {
    match file {
        Some(file) => file.metadata(),
        None => Err(no_file()),
    }
}

/// The regular file that has this name, where one has.
fn regular_file<R: Files>(rt: &R, name: &str) -> Option<FileId> {
    match fs::metadata(rt, name) {
        Ok(found) if found.is_file() => Some(FileId::of(&found)),
        _ => None,
    }
}

/// Whether an output goes to this file, as far as Linux tells it.
fn goes_to<R: Files>(rt: &R, output: &str, id: FileId) -> bool {
    match fs::metadata(rt, output) {
        Ok(found) => FileId::of(&found) == id,
        Err(_) => false,
    }
}

impl<'a, R: Files> Stream for SystemFiles<'a, R> {
    ghost use Rattle.ev_outside.specs.KeptLaws.{kept_more, kept_nothing};

    ghost takes = { λ a piece b. KeptBehind (is_some a.kept) piece (is_some b.kept) };

    ghost written = { λ _. None };

    ghost failed = { λ files. files.failed };

    ghost asked = { λ files. asked_by files.name };

    ghost nothing = { λ a. kept_nothing (is_some a.kept) };

    ghost more = { λ a b c xs ys first second.
        kept_more (is_some a.kept) (is_some b.kept) (is_some c.kept) xs ys first second };

    ghost adds = { λ a b piece taken. refl };

    fn write(&mut self, bytes: &[u8]) -> Result<usize, CallFailed>
        ensures takes { MatchResult result
            (λ n. KeptBehind (is_some self.old.kept) (take n bytes.now) (is_some self.new.kept))
            (λ _. KeptBehind (is_some self.old.kept) [] (is_some self.new.kept)) }
        ensures some { IfOk result
            (λ n. (n ≤ length bytes.now) × (0 < length bytes.now → 0 < n)) }
        ensures counts { IsCounted result self.old.failed self.new.failed }
        ensures asked { asked_by self.new.name ≡ asked_by self.old.name }

        // The file that is open took what is answered. Where none is open, the call fails.
        ensures took { MatchOption self.old.file (IsErr result) (λ old. MatchOption self.new.file ⊥
            (λ new. WriteAppends (R.File.contents old) (R.File.contents new) result bytes.now)) }
        ensures cause { MatchResult result (λ _. self.new.cause ≡ self.old.cause)
            (λ _. IsSome self.new.cause) }
        ensures name { self.new.name ≡ self.old.name }
    {
        self.kept = None;
        let Some(file) = &mut self.file else {
            return Err(self.fail(no_file()));
        };
        match write_piece(file, bytes) {
            Ok(count) => Ok(count),
            Err(cause) => Err(self.fail(cause)),
        }
    }
}

impl<'a, R: Files> Storage for SystemFiles<'a, R> {
    ghost use Rattle.std.specs.Prelude.{None, is_some};

    ghost told = { λ _. None };

    ghost is_open = { λ files. is_some files.file };

    ghost is_kept = { λ files. is_some files.kept };

    ghost writes = { λ a b piece taken. tt };

    ghost unkept = { λ a b piece taken. taken };

    fn open(&mut self, name: &str) -> Result<(), CallFailed>
        ensures opens { OnOk result (Opens None name.now None) }
        ensures kept { is_some self.new.kept ≡ true → is_some self.old.kept ≡ true }
        ensures files { files_of None ≡ files_of None }
        ensures counts { IsCounted result self.old.failed self.new.failed }
        ensures asked { HasAsked name.now (asked_by self.new.name) }
        ensures held { OnOk result (IsSome self.new.file) }
        ensures cause { MatchResult result (λ _. IsNone self.new.cause)
            (λ _. IsSome self.new.cause) }
        ensures name { IfSome self.new.name (λ kept. string_bytes kept ≡ name.now) }
    {
        self.begin(name);
        let opened = fs::open(self.rt, name);
        self.hold(opened)?;
        match self.note(name) {
            Ok(()) => Ok(()),
            Err(cause) => Err(self.fail(cause)),
        }
    }

    fn read(&mut self, into: &mut [u8]) -> Result<usize, CallFailed>
        ensures within { IfOk result (λ n. n ≤ length into.new) }
        ensures bytes { ReadConsumes (rest_of None) (rest_of None) result into.new }
        ensures kept { is_some self.new.kept ≡ true → is_some self.old.kept ≡ true }
        ensures files { files_of None ≡ files_of None }
        ensures counts { IsCounted result self.old.failed self.new.failed }
        ensures asked { asked_by self.new.name ≡ asked_by self.old.name }

        // The file that is open gave what is answered. Where none is open, the call fails.
        ensures gave { MatchOption self.old.file (IsErr result) (λ old. MatchOption self.new.file ⊥
            (λ new. ReadConsumes (R.File.remaining old) (R.File.remaining new) result into.new)) }
        ensures cause { MatchResult result (λ _. self.new.cause ≡ self.old.cause)
            (λ _. IsSome self.new.cause) }
        ensures name { self.new.name ≡ self.old.name }
    {
        let Some(file) = &mut self.file else {
            return Err(self.fail(no_file()));
        };
        match read_piece(file, into) {
            Ok(count) => Ok(count),
            Err(cause) => Err(self.fail(cause)),
        }
    }

    fn create(&mut self, name: &str) -> Result<(), CallFailed>
        ensures creates { OnOk result (Creates name.now None) }
        ensures unkept { is_some self.new.kept ≡ false }

        // The system took all bytes from the file, unless it is a device or a pipe.
        ensures emptied { OnOk result (ShowsEmptied self.new.emptied) }
        ensures others { KeepsOthers name.now (files_of None) (files_of None) }
        ensures counts { IsCounted result self.old.failed self.new.failed }
        ensures asked { HasAsked name.now (asked_by self.new.name) }
        ensures held { OnOk result (IsSome self.new.file) }
        ensures cause { MatchResult result (λ _. IsNone self.new.cause)
            (λ _. IsSome self.new.cause) }
        ensures name { IfSome self.new.name (λ kept. string_bytes kept ≡ name.now) }
    {
        self.begin(name);
        let opened = open_uncut(self.rt, name);
        self.is_changed = opened.is_ok();
        self.hold(opened)?;
        match self.cut(name) {
            Ok(()) => Ok(()),
            Err(cause) => Err(self.fail(cause)),
        }
    }

    fn keep(&mut self) -> Result<(), CallFailed>
        // The system synced the file, and its folder where that is open, unless it is a device or
        // a pipe.
        ensures synced { OnOk result (ShowsKept self.new.folder self.new.kept) }
        ensures kept { MatchResult result (λ _. is_some self.new.kept ≡ true)
            (λ _. is_some self.new.kept ≡ is_some self.old.kept) }
        ensures files { files_of None ≡ files_of None }
        ensures counts { IsCounted result self.old.failed self.new.failed }
        ensures asked { asked_by self.new.name ≡ asked_by self.old.name }
        ensures closed { MatchOption self.old.file (IsErr result) (λ _. IsSome self.new.file) }
        ensures cause { MatchResult result (λ _. self.new.cause ≡ self.old.cause)
            (λ _. IsSome self.new.cause) }
        ensures name { self.new.name ≡ self.old.name }
    {
        let kept = match &self.file {
            Some(file) => keep(file, &self.folder, &mut self.kept),
            None => Err(no_file()),
        };
        match kept {
            Ok(()) => Ok(()),
            Err(cause) => Err(self.fail(cause)),
        }
    }

    fn ask_to_write(&mut self, name: &str) -> Result<(), CallFailed>
        ensures kept { is_some self.new.kept ≡ true → is_some self.old.kept ≡ true }
        ensures files { files_of None ≡ files_of None }
        ensures counts { IsCounted result self.old.failed self.new.failed }
        ensures asked { HasAsked name.now (asked_by self.new.name) }
        ensures question { self.new.is_question ≡ true }
        ensures unopened { self.new.file ≡ self.old.file }
        ensures cause { MatchResult result (λ _. IsNone self.new.cause)
            (λ _. IsSome self.new.cause) }
        ensures name { IfSome self.new.name (λ kept. string_bytes kept ≡ name.now) }
    {
        self.begin(name);
        self.is_question = true;
        match self.ask(name) {
            Ok(()) => Ok(()),
            Err(cause) => Err(self.fail(cause)),
        }
    }

    fn close(&mut self)
        ensures closed { is_some self.new.file ≡ false }
        ensures kept { is_some self.new.kept ≡ is_some self.old.kept }
        ensures files { files_of None ≡ files_of None }
        ensures failed { self.new.failed ≡ self.old.failed }
        ensures asked { asked_by self.new.name ≡ asked_by self.old.name }
        ensures cause { self.new.cause ≡ self.old.cause }
        ensures name { self.new.name ≡ self.old.name }
    {
        self.file = None;
        self.folder = None;
    }
}

/// The standard output, which doesn't tell its bytes.
#[derive(Drop)]
pub struct SystemOutput<'a, R: Print> {
    rt: &'a R,
    /// Why the last call that failed did.
    cause: Option<Error>,
    failed: u64,
}

impl<'a, R: Print> SystemOutput<'a, R> {
    /// The standard output of the runtime. No call has failed yet. No memory.
    pub fn new(rt: &'a R) -> Self
        ensures failed { result.failed ≡ 0 }
        ensures cause { IsNone result.cause }
    {
        SystemOutput {
            rt,
            cause: None,
            failed: 0,
        }
    }

    /// The last call that failed, for people. None comes exactly where no call has failed.
    pub fn last_failure(&self) -> Option<Failure<'_>>
        ensures none { IsNone result ↔ IsNone self.now.cause }
        ensures cause { IfSome result (λ failure. self.now.cause ≡ Some failure.cause) }
        ensures name { IfSome result (λ failure. failure.name.now ≡ codes "standard output") }
    {
        let cause = self.cause?;
        Some(Failure {
            name: "standard output",
            cause,
            is_standard_error: false,
        })
    }

    /// Counts a call that failed, up to the last value of the count.
    fn fail(&mut self, cause: Error) -> CallFailed
        ensures failed { CountsOne self.old.failed self.new.failed }
        ensures cause { self.new.cause ≡ Some cause }
    {
        self.cause = Some(cause);
        self.failed = self.failed.saturating_add(1);
        CallFailed
    }
}

impl<'a, R: Print> Stream for SystemOutput<'a, R> {
    ghost takes = { λ _ _ _. Unit {0} };

    ghost written = { λ _. None };

    ghost failed = { λ output. output.failed };

    ghost asked = { λ _. None };

    ghost nothing = { λ a. tt };

    ghost more = { λ a b c xs ys first second. tt };

    ghost adds = { λ a b piece taken. refl };

    fn write(&mut self, bytes: &[u8]) -> Result<usize, CallFailed>
        ensures takes { MatchResult result (λ _. Unit {0}) (λ _. Unit {0}) }
        ensures some { IfOk result
            (λ n. (n ≤ length bytes.now) × (0 < length bytes.now → 0 < n)) }
        ensures counts { IsCounted result self.old.failed self.new.failed }
        ensures cause { MatchResult result (λ _. self.new.cause ≡ self.old.cause)
            (λ _. IsSome self.new.cause) }
    {
        match write_piece(&mut io::writer(self.rt), bytes) {
            Ok(count) => Ok(count),
            Err(cause) => Err(self.fail(cause)),
        }
    }
}

/// The cause where a call asks for a file and none is open.
fn no_file() -> Error {
    Error::other("no file is open")
}
