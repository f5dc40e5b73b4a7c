//! The text of a verdict.

ghost use Rattle.std.specs.Prelude.{◌≡◌, ◌≢◌, ◌++◌, IfOk, OnErr, OnOk};
ghost use Rattle.mixed_model.specs.declared.verdict.MixedVerdict.TheVariants.{Accepted};
ghost use Rattle.mixed_text.specs.VerdictText.{mixed_verdict_text};

use mixed_model::MixedVerdict;
use std::alloc::{AllocError, Global};

/// Appends the line of a proof for several kinds of vehicles that isn't accepted: the number of the
/// first rule that it breaks, and what breaks it: the kind whose labels don't cover the start, the
/// kind, the label and the node of a step, or the kind and the label of a step home. What is told
/// of an accepted proof is no part of this.
///
/// The only refusal is want of memory. After an `Err` the bytes of `out` are as before.
pub fn push_mixed_verdict(
    alloc: Global,
    out: &mut Vec<u8>,
    v: &MixedVerdict,
) -> Result<(), AllocError>
    requires { v.now ≢ Accepted }
    ensures ok { OnOk result (out.new.items ≡ out.old.items ++ mixed_verdict_text v.now) }
    ensures err { OnErr result (out.new.items ≡ out.old.items) }
{
    let line = verdict_line(alloc, v)?;
    out.extend_from_slice(line.as_bytes())
}

/// The line of a verdict; an accepted proof has none.
fn verdict_line(alloc: Global, v: &MixedVerdict) -> Result<String, AllocError>
    ensures { IfOk result (λ s. s.bytes.items ≡ mixed_verdict_text v.now) }
{
    match v {
        MixedVerdict::Accepted => Ok(String::new(alloc)),
        MixedVerdict::Start { kind } => format!(in alloc; "rejected mixed 1 kind {kind}\n"),
        MixedVerdict::Step { kind, label, node } => {
            format!(in alloc; "rejected mixed 2 kind {kind} label {label} node {node}\n")
        }
        MixedVerdict::End { kind, label } => {
            format!(in alloc; "rejected mixed 3 kind {kind} label {label}\n")
        }
        MixedVerdict::Bound => format!(in alloc; "rejected mixed 4\n"),
        MixedVerdict::Root => format!(in alloc; "rejected mixed 5\n"),
    }
}
