//! Words and numbers, of which lines are made.

ghost use Rattle.std.specs.Prelude.{◌≡◌, ◌++◌, OnErr, OnOk, decimal};
ghost use Rattle.ev_text.specs.Scans.{IsPrefixOf};
ghost use Rattle.report_lines.specs.Lines.{infeasible_line, number_line};

use ev_text::push_whole;
use std::alloc::{AllocError, Global};

/// Appends a word.
///
/// After an `Err`, which is want of memory alone, `out` has kept its old bytes as a prefix; the
/// same holds of the other calls of this crate.
pub fn push_word(out: &mut Vec<u8>, word: &[u8]) -> Result<(), AllocError>
    ensures ok { OnOk result (out.new.items ≡ out.old.items ++ word.now) }
    ensures err { OnErr result (IsPrefixOf out.old.items out.new.items) }
{
    out.extend_from_slice(word)
}

/// Appends a word and a number.
pub fn push_numbered(
    alloc: Global,
    out: &mut Vec<u8>,
    word: &[u8],
    number: u128,
) -> Result<(), AllocError>
    ensures ok { OnOk result (out.new.items ≡ out.old.items ++ (word.now ++ decimal number)) }
    ensures err { OnErr result (IsPrefixOf out.old.items out.new.items) }
{
    out.extend_from_slice(word)?;
    push_whole(alloc, out, number)
}

/// Appends a line of a word and a number.
pub fn push_number_line(
    alloc: Global,
    out: &mut Vec<u8>,
    word: &[u8],
    number: u128,
) -> Result<(), AllocError>
    ensures ok { OnOk result (out.new.items ≡ out.old.items ++ number_line word.now number) }
    ensures err { OnErr result (IsPrefixOf out.old.items out.new.items) }
{
    push_numbered(alloc, out, word, number)?;
    out.extend_from_slice(b"\n")
}

/// Appends the line `infeasible`.
pub fn push_infeasible(out: &mut Vec<u8>) -> Result<(), AllocError>
    ensures ok { OnOk result (out.new.items ≡ out.old.items ++ infeasible_line) }
    ensures err { OnErr result (IsPrefixOf out.old.items out.new.items) }
{
    out.extend_from_slice(b"infeasible\n")
}
