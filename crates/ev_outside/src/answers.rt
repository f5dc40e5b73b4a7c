//! The system's answers to calls that give or take bytes.
//!
//! A call that a signal interrupted is made again, up to a bound, past which it has failed.
ghost use Rattle.std.specs.Prelude.{◌≡◌, ◌<◌, ◌≤◌, ◌↔◌, length, IfOk, IsTrue};
ghost use Rattle.std.specs.IoError.{error_kind};
ghost use Rattle.std.specs.Io.KnownBytes.{ReadConsumes, WriteAppends};
ghost use Rattle.ev_outside.specs.Answers.{IsTold};

use std::io::{self, Error, ErrorKind, Read, Write};

/// How often an interrupted call is made again.
const MOST_REPEATS: u32 = 1000;

/// Reads the next bytes. The answer is the reader's own, to the last of its calls where the first
/// ones were interrupted.
#[tactic(auto, using(crate::proofs::InterruptedCalls::kept_reads))]
pub(crate) fn read_piece<F: Read>(from: &mut F, into: &mut [u8]) -> io::Result<usize>
    ensures within { IfOk result (λ n. n ≤ length into.new) }
    ensures bytes { ReadConsumes (F.remaining from.old) (F.remaining from.new) result into.new }
{
    for _ in 0..MOST_REPEATS {
        match read_once(from, into) {
            Err(cause) if is_interrupted(cause) => {}
            answer => return answer,
        }
    }
    read_once(from, into)
}

/// Reads the next bytes by one call.
fn read_once<F: Read>(from: &mut F, into: &mut [u8]) -> io::Result<usize>
    ensures within { IfOk result (λ n. n ≤ length into.new) }
    ensures bytes { ReadConsumes (F.remaining from.old) (F.remaining from.new) result into.new }
{
    let most = into.len();
    counted(from.read(into), 0, most)
}

/// Writes the first of the bytes, one at least where there is one. The answer is the writer's own,
/// to the last of its calls where the first ones were interrupted, but that a writer that takes
/// none of a piece that isn't empty has failed.
#[tactic(auto, using(crate::proofs::InterruptedCalls::kept_writes))]
pub(crate) fn write_piece<W: Write>(to: &mut W, bytes: &[u8]) -> io::Result<usize>
    ensures some { IfOk result
        (λ n. (n ≤ length bytes.now) × (0 < length bytes.now → 0 < n)) }
    ensures bytes { WriteAppends (W.contents to.old) (W.contents to.new) result bytes.now }
{
    for _ in 0..MOST_REPEATS {
        match write_once(to, bytes) {
            Err(cause) if is_interrupted(cause) => {}
            answer => return answer,
        }
    }
    write_once(to, bytes)
}

/// Writes the first of the bytes by one call.
fn write_once<W: Write>(to: &mut W, bytes: &[u8]) -> io::Result<usize>
    ensures some { IfOk result
        (λ n. (n ≤ length bytes.now) × (0 < length bytes.now → 0 < n)) }
    ensures bytes { WriteAppends (W.contents to.old) (W.contents to.new) result bytes.now }
{
    counted(to.write(bytes), bytes.len().min(1), bytes.len())
}

/// Whether a signal interrupted the call, which took or gave nothing then.
fn is_interrupted(cause: Error) -> bool
    ensures { IsTrue result ↔ (error_kind cause ≡ ErrorKind.Interrupted) }
{
    cause.kind() == ErrorKind::Interrupted
}

/// The system's answer where it is a failure, or a count from `least` to `most`. Any other count is
/// a failure.
fn counted(answer: io::Result<usize>, least: usize, most: usize) -> io::Result<usize>
    ensures { IsTold answer least most result }
{
    match answer {
        Ok(count) if count < least => Err(nothing_taken()),
        Ok(count) if count > most => Err(too_many()),
        Ok(count) => Ok(count),
        Err(cause) => Err(cause),
    }
}

/// The cause where a write takes none of its bytes.
fn nothing_taken() -> Error {
    Error::new(ErrorKind::WriteZero, "nothing was written")
}

/// The cause where a call counts more bytes than it was asked for.
fn too_many() -> Error {
    Error::other("more bytes than were asked for")
}
