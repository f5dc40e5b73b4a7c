//! The line that refuses kinds of vehicles.

ghost use Rattle.std.specs.Prelude.{◌≡◌, ◌++◌, OnErr, OnOk, codes};
ghost use Rattle.ev_text.specs.Scans.{IsPrefixOf};
ghost use Rattle.report_lines.specs.Lines.{number_line};

use report_lines::push_number_line;
use std::alloc::{AllocError, Global};

/// Appends the line that says which kind doesn't agree with kind 0: `refused kinds ` and its number
/// from 0.
///
/// After an `Err`, which is want of memory alone, `out` has kept its old bytes as a prefix.
pub fn push_kinds_refusal(alloc: Global, out: &mut Vec<u8>, kind: usize) -> Result<(), AllocError>
    ensures ok { OnOk result
        (out.new.items ≡ out.old.items ++ number_line (codes "refused kinds ") kind) }
    ensures err { OnErr result (IsPrefixOf out.old.items out.new.items) }
{
    push_number_line(alloc, out, b"refused kinds ", kind as u128)
}
