//! Why a job on kinds of vehicles is refused, and its line.

ghost use Rattle.std.specs.Prelude.{◌≡◌, [], IfErr, IfOk, Some};
ghost use Rattle.mixed_run.specs.KindFiles.{IsMixedRule, mixed_cause, mixed_refusal_text};

use ev_outside::ShelfFault;
use evroute_causes::Cause;
use job_frame::{Answer, Found, Status, refuse};
use mixed_model::push_kinds_refusal;
use plan_writer::Refusal;
use std::alloc::{AllocError, Global};

/// The rule that such a job is refused by.
#[derive(Clone, Copy, Debug, Drop, PartialEq, Eq)]
pub enum MixedRefusal {
    /// One that jobs on a single kind have too.
    Plain(Refusal),
    /// The kind with this number, counted from 0, doesn't agree with kind 0.
    Kinds(usize),
}

/// Why reading the kinds of vehicles is the last step of a job.
#[derive(Clone, Copy, Debug, Drop, PartialEq, Eq)]
pub enum Halt {
    /// A rule is broken.
    Refused(MixedRefusal),
    /// A file failed, or memory was refused.
    Stopped(ShelfFault),
}

/// The line of a refusal.
pub fn refuse_mixed(alloc: Global, refusal: MixedRefusal) -> Result<Answer<Cause>, AllocError>
    requires { IsMixedRule refusal }
    ensures status { IfOk result (λ a. a.status ≡ Status.Refused) }
    ensures text { IfOk result (λ a. a.text.items ≡ mixed_refusal_text refusal) }
    ensures cause { IfOk result (λ a. a.cause ≡ Some (mixed_cause refusal)) }
{
    match refusal {
        MixedRefusal::Plain(refusal) => refuse(alloc, refusal),
        MixedRefusal::Kinds(kind) => {
            let mut text = Vec::new(alloc);
            push_kinds_refusal(alloc, &mut text, kind)?;
            Ok(Answer {
                status: Status::Refused,
                text,
                cause: Some(Cause::Kinds(kind)),
            })
        }
    }
}

/// The line of a refusal as all that a job finds.
pub fn refuse_mixed_job(alloc: Global, refusal: MixedRefusal) -> Result<Found<Cause>, ShelfFault>
    requires { IsMixedRule refusal }
    ensures status { IfOk result (λ f. f.answer.status ≡ Status.Refused) }
    ensures text { IfOk result (λ f. f.answer.text.items ≡ mixed_refusal_text refusal) }
    ensures cause { IfOk result (λ f. f.answer.cause ≡ Some (mixed_cause refusal)) }
    ensures files { IfOk result (λ f. f.files.items ≡ []) }
    ensures memory { IfErr result (λ fault. fault ≡ ShelfFault.Memory) }
{
    match refuse_mixed(alloc, refusal) {
        Ok(answer) => Ok(Found::alone(alloc, answer)),
        Err(AllocError) => Err(ShelfFault::Memory),
    }
}
