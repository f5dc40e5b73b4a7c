//! The rule that a walk along a plan breaks.

ghost use Rattle.std.specs.Prelude.{◌≡◌, ◌++◌, OnErr, OnOk};
ghost use Rattle.ev_text.specs.Scans.{IsPrefixOf};
ghost use Rattle.report_lines.specs.Walks.{walk_text};

use crate::words::{push_numbered, push_word};
use route_plan::WalkFault;
use std::alloc::{AllocError, Global};

/// Appends the number of the rule that a walk breaks, and the position of the stop that breaks it.
pub fn push_walk_rule(alloc: Global, out: &mut Vec<u8>, fault: &WalkFault) -> Result<(), AllocError>
    ensures ok { OnOk result (out.new.items ≡ out.old.items ++ walk_text fault.now) }
    ensures err { OnErr result (IsPrefixOf out.old.items out.new.items) }
{
    match fault {
        WalkFault::Ends => push_word(out, b"1"),
        WalkFault::Unknown { at } => push_numbered(alloc, out, b"2 at ", *at as u128),
        WalkFault::Again { at } => push_numbered(alloc, out, b"3 at ", *at as u128),
        WalkFault::Empty { at } => push_numbered(alloc, out, b"4 at ", *at as u128),
        WalkFault::NotStation { at } => push_numbered(alloc, out, b"5 at ", *at as u128),
        WalkFault::Full { at } => push_numbered(alloc, out, b"6 at ", *at as u128),
        WalkFault::Late { at } => push_numbered(alloc, out, b"7 at ", *at as u128),
    }
}
