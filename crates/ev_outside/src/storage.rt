//! The calls of a system on its files and its output, each of which may take or give a part.
ghost use Rattle.std.specs.Prelude.{◌≡◌, ◌<◌, ◌≤◌, ◌++◌, Bool, false, true, ℕ, List, [], Option, take, length, IfOk, OnOk, MatchResult};
ghost use Rattle.std.specs.Io.KnownBytes.{ReadConsumes};
ghost use Rattle.ev_outside.specs.Counts.{IsCounted};
ghost use Rattle.ev_outside.specs.Kept.{KeptBehind};
ghost use Rattle.ev_outside.specs.Shelf.{HasAsked, KeepsOthers};
ghost use Rattle.ev_outside.specs.Sink.{Adds};
ghost use Rattle.ev_outside.specs.Storage.{Creates, Opens, Told, WritesTo, files_of, rest_of};

use thiserror::Error;

/// A call that the system refused.
#[derive(Clone, Copy, Debug, Drop, PartialEq, Eq, Error)]
#[error("the system refused a call")]
pub struct CallFailed;

/// Where bytes are written.
pub trait Stream {
    // A stream took this piece, and is the other one then.
    ghost takes: { Self → List ℕ → Self → Type 0 };

    // The bytes that were written, where they are told.
    ghost written: { Self → Option (List ℕ) };

    // How many calls have failed.
    ghost failed: { Self → ℕ };

    // The name that was asked for last, where it is kept.
    ghost asked: { Self → Option (List ℕ) };

    /// Writes the first of the bytes, one at least where there is one, and answers how many. A call
    /// that took nothing of a piece that isn't empty has failed.
    fn write(&mut self, bytes: &[u8]) -> Result<usize, CallFailed>
        ensures takes { MatchResult result (λ n. takes self.old (take n bytes.now) self.new)
            (λ _. takes self.old [] self.new) }
        ensures some { IfOk result
            (λ n. (n ≤ length bytes.now) × (0 < length bytes.now → 0 < n)) }
        ensures counts { IsCounted result (failed self.old) (failed self.new) }
        ensures asked { asked self.new ≡ asked self.old };

    ghost nothing: { (a : Self) → takes a [] a };

    ghost more: { (a b c : Self) (xs ys : List ℕ) → takes a xs b → takes b ys c →
        takes a (xs ++ ys) c };

    ghost adds: { (a b : Self) (piece : List ℕ) → takes a piece b →
        Adds (written a) (written b) piece };
}

/// Named files, of which one may be open to be read and one to be written.
pub trait Storage: Stream {
    // The files, what is left to read of the one that is open, and the name of the one that is
    // written, where they are told.
    ghost told: { Self → Option Told };

    // A file is open.
    ghost is_open: { Self → Bool };

    // The file that was made last is kept: what was written into it lies on its disk, where it is
    // found under its name.
    ghost is_kept: { Self → Bool };

    /// Opens a file to be read from its beginning. A name that isn't there has no bytes, or the
    /// call fails.
    fn open(&mut self, name: &str) -> Result<(), CallFailed>
        ensures opens { OnOk result (Opens (told self.old) name.now (told self.new)) }
        ensures kept { is_kept self.new ≡ true → is_kept self.old ≡ true }
        ensures files { files_of (told self.new) ≡ files_of (told self.old) }
        ensures counts { IsCounted result (Self.failed self.old) (Self.failed self.new) }
        ensures asked { HasAsked name.now (Self.asked self.new) };

    /// Reads the next bytes of the file that is open, and answers how many; none where it has no
    /// more.
    fn read(&mut self, into: &mut [u8]) -> Result<usize, CallFailed>
        ensures within { IfOk result (λ n. n ≤ length into.new) }
        ensures bytes { ReadConsumes (rest_of (told self.old)) (rest_of (told self.new))
            result into.new }
        ensures kept { is_kept self.new ≡ true → is_kept self.old ≡ true }
        ensures files { files_of (told self.new) ≡ files_of (told self.old) }
        ensures counts { IsCounted result (Self.failed self.old) (Self.failed self.new) }
        ensures asked { Self.asked self.new ≡ Self.asked self.old };

    /// Makes a file that is empty, to be written, and isn't kept yet. Nothing is known of its bytes
    /// where the call fails.
    fn create(&mut self, name: &str) -> Result<(), CallFailed>
        ensures creates { OnOk result (Creates name.now (told self.new)) }
        ensures unkept { is_kept self.new ≡ false }
        ensures others { KeepsOthers name.now
            (files_of (told self.old)) (files_of (told self.new)) }
        ensures counts { IsCounted result (Self.failed self.old) (Self.failed self.new) }
        ensures asked { HasAsked name.now (Self.asked self.new) };

    /// Sees that what was written into the file that is open is kept, behind its last write. No
    /// bytes of any file change.
    fn keep(&mut self) -> Result<(), CallFailed>
        ensures kept { MatchResult result (λ _. is_kept self.new ≡ true)
            (λ _. is_kept self.new ≡ is_kept self.old) }
        ensures files { files_of (told self.new) ≡ files_of (told self.old) }
        ensures counts { IsCounted result (Self.failed self.old) (Self.failed self.new) }
        ensures asked { Self.asked self.new ≡ Self.asked self.old };

    /// Asks whether a file can be written under this name. No bytes of any file change for it, and
    /// no file is made.
    fn ask_to_write(&mut self, name: &str) -> Result<(), CallFailed>
        ensures kept { is_kept self.new ≡ true → is_kept self.old ≡ true }
        ensures files { files_of (told self.new) ≡ files_of (told self.old) }
        ensures counts { IsCounted result (Self.failed self.old) (Self.failed self.new) }
        ensures asked { HasAsked name.now (Self.asked self.new) };

    /// Closes the file that is open, if one is. No bytes of any file change.
    fn close(&mut self)
        ensures closed { is_open self.new ≡ false }
        ensures kept { is_kept self.new ≡ is_kept self.old }
        ensures files { files_of (told self.new) ≡ files_of (told self.old) }
        ensures failed { Self.failed self.new ≡ Self.failed self.old }
        ensures asked { Self.asked self.new ≡ Self.asked self.old };

    ghost writes: { (a b : Self) (piece : List ℕ) → Self.takes a piece b →
        WritesTo (told a) piece (told b) };

    // Only a file into which nothing was written since it was kept is so still.
    ghost unkept: { (a b : Self) (piece : List ℕ) → Self.takes a piece b →
        KeptBehind (is_kept a) piece (is_kept b) };
}
