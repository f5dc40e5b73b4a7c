//! Named files in memory that are taken and given in pieces, for tests.
ghost use Rattle.std.specs.Prelude.{◌≡◌, ◌<◌, ◌≤◌, ◌⊎◌, ℕ, List, [], Some, IfOk, OnErr, OnOk, MatchResult, length, take, true, false};
ghost use Rattle.std.specs.Io.KnownBytes.{ReadConsumes};
ghost use Rattle.ev_outside.specs.Counts.{CountsOne, IsCounted};
ghost use Rattle.ev_outside.specs.Shelf.{KeepsOthers};
ghost use Rattle.ev_outside.specs.Sink.{Adds};
ghost use Rattle.ev_outside.specs.Storage.{Creates, Opens, WritesTo, files_of, rest_of};
ghost use Rattle.ev_outside.specs.Kept.{KeptBehind};
ghost use Rattle.ev_outside.specs.PieceStorage.{TakesPiece, WritesPiece, target_bytes, told_by, told_of};

use super::memory_shelf::MemoryShelf;
use super::storage::{CallFailed, Storage, Stream};
use std::alloc::{AllocError, Global};

/// Named files in memory, whose calls take and give at most so many bytes, and fail where they are
/// told to, where memory is refused, and where a name that isn't there is opened. What is written
/// before a file was created is taken and goes nowhere.
///
/// All its calls are numbered together from 0. The counts stop at their last value, 2^64 - 1.
#[derive(Drop)]
pub struct PieceStorage {
    files: MemoryShelf,
    rest: Vec<u8>,
    target: String,
    opened: bool,
    kept: bool,
    piece: usize,
    calls: u64,
    failed: u64,
    fails: Vec<u64>,
}

impl PieceStorage {
    /// The files of a shelf, in pieces of at most `piece` bytes (of one where it is 0). The calls
    /// with the numbers in `fails` will fail. Nothing is open yet.
    pub fn new(alloc: Global, files: MemoryShelf, piece: usize, fails: Vec<u64>) -> PieceStorage
        ensures count { result.failed ≡ 0 }
    {
        PieceStorage {
            files,
            rest: Vec::new(alloc),
            target: String::new(alloc),
            opened: false,
            kept: false,
            piece,
            calls: 0,
            failed: 0,
            fails,
        }
    }

    /// The bytes under a name. None comes exactly where the name isn't there.
    pub fn get(&self, name: &str) -> Option<&[u8]> {
        self.files.get(name)
    }

    /// Counts a call, and tells whether it is to fail.
    fn is_to_fail(&mut self) -> bool
        ensures told { told_of self.new ≡ told_of self.old }
        ensures failed { self.new.failed ≡ self.old.failed }
        ensures piece { self.new.piece ≡ self.old.piece }
        ensures kept { self.new.kept ≡ self.old.kept }
    {
        let fails = self.fails.contains(&self.calls);
        self.calls = self.calls.saturating_add(1);
        fails
    }

    /// Appends the bytes to the file that is written. Nothing changes where memory is refused.
    fn append(&mut self, bytes: &[u8]) -> Result<(), AllocError>
        ensures ok { OnOk result (WritesPiece self.old bytes.now self.new) }
        ensures err { OnErr result (told_of self.new ≡ told_of self.old) }
        ensures failed { self.new.failed ≡ self.old.failed }
    {
        let alloc = *self.fails.allocator();
        let Some(old) = self.files.get(self.target.as_str()) else {
            return Ok(());
        };
        let mut whole = Vec::from_slice(alloc, old)?;
        whole.extend_from_slice(bytes)?;
        self.files.set(self.target.as_str(), whole.as_slice())?;
        Ok(())
    }

    /// Takes the first of the bytes, at most a piece of them.
    fn take_piece(&mut self, bytes: &[u8]) -> Result<usize, CallFailed>
        ensures takes { MatchResult result (λ n. WritesPiece self.old (take n bytes.now) self.new)
            (λ _. WritesPiece self.old [] self.new) }
        ensures some { IfOk result
            (λ n. (n ≤ length bytes.now) × (0 < length bytes.now → 0 < n)) }
        ensures counts { IsCounted result self.old.failed self.new.failed }
    {
        if self.is_to_fail() {
            return Err(self.fail());
        }
        let count = bytes.len().min(self.piece.max(1));
        match self.append(&bytes[..count]) {
            Ok(()) => Ok(count),
            Err(AllocError) => Err(self.fail()),
        }
    }

    /// Counts a call that failed.
    fn fail(&mut self) -> CallFailed
        ensures told { told_of self.new ≡ told_of self.old }
        ensures failed { CountsOne self.old.failed self.new.failed }
        ensures kept { self.new.kept ≡ self.old.kept }
    {
        self.failed = self.failed.saturating_add(1);
        CallFailed
    }
}

impl Stream for PieceStorage {
    ghost use Rattle.std.specs.Prelude.{None};
    ghost use Rattle.ev_outside.specs.KeptLaws.{kept_more, kept_nothing};
    ghost use Rattle.ev_outside.specs.PieceLaws.{writes_add, writes_more, writes_nothing};
    ghost use Rattle.ev_outside.specs.PieceStorage.{TakesPiece, target_bytes, told_of};

    ghost takes = { TakesPiece };

    ghost written = { target_bytes };

    ghost failed = { λ storage. storage.failed };

    ghost asked = { λ _. None };

    ghost nothing = { λ a. (writes_nothing (told_of a), kept_nothing a.kept) };

    ghost more = { λ a b c xs ys first second. (
      writes_more (told_of a) (told_of b) (told_of c) xs ys first.0 second.0,
      kept_more a.kept b.kept c.kept xs ys first.1 second.1,
    ) };

    ghost adds = { λ a b piece taken. writes_add (told_of a) (told_of b) piece taken.0 };

    fn write(&mut self, bytes: &[u8]) -> Result<usize, CallFailed> {
        let answer = self.take_piece(bytes);
        self.kept = false;
        answer
    }
}

impl Storage for PieceStorage {
    ghost told = { told_by };

    ghost is_open = { λ storage. storage.opened };

    ghost is_kept = { λ storage. storage.kept };

    ghost writes = { λ a b piece taken. taken.0 };

    ghost unkept = { λ a b piece taken. taken.1 };

    fn open(&mut self, name: &str) -> Result<(), CallFailed> {
        if self.is_to_fail() {
            return Err(self.fail());
        }
        let alloc = *self.fails.allocator();
        let Some(bytes) = self.files.get(name) else {
            return Err(self.fail());
        };
        let Ok(rest) = Vec::from_slice(alloc, bytes) else {
            return Err(self.fail());
        };
        self.rest = rest;
        self.opened = true;
        Ok(())
    }

    fn read(&mut self, into: &mut [u8]) -> Result<usize, CallFailed> {
        if self.is_to_fail() {
            return Err(self.fail());
        }
        let count = self.rest.len().min(self.piece.max(1)).min(into.len());
        let alloc = *self.fails.allocator();
        let Ok(rest) = Vec::from_slice(alloc, &self.rest[count..]) else {
            return Err(self.fail());
        };
        into[..count].copy_from_slice(&self.rest[..count]);
        self.rest = rest;
        Ok(count)
    }

    fn create(&mut self, name: &str) -> Result<(), CallFailed> {
        self.kept = false;
        if self.is_to_fail() {
            return Err(self.fail());
        }
        let alloc = *self.fails.allocator();
        let Ok(target) = String::from_str(alloc, name) else {
            return Err(self.fail());
        };
        match self.files.set(name, &[]) {
            Ok(()) => {
                self.target = target;
                self.opened = true;
                Ok(())
            }
            Err(AllocError) => Err(self.fail()),
        }
    }

    fn keep(&mut self) -> Result<(), CallFailed> {
        if self.is_to_fail() {
            return Err(self.fail());
        }
        self.kept = true;
        Ok(())
    }

    fn ask_to_write(&mut self, _name: &str) -> Result<(), CallFailed> {
        if self.is_to_fail() {
            return Err(self.fail());
        }
        Ok(())
    }

    fn close(&mut self) {
        self.opened = false;
    }
}
