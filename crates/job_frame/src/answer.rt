//! Why a step of a job may be the last, and the line of a refusal.

ghost use Rattle.std.specs.Prelude.{◌≡◌, [], IfErr, IfOk, Some};
ghost use Rattle.refusal_lines.specs.RefusalText.{IsRule, refusal_text};

use crate::{Answer, Found, JobCause, Status};
use ev_outside::ShelfFault;
use refusal_lines::{Refusal, push_refusal};
use std::alloc::{AllocError, Global};

/// Why a step of the job is the last.
#[derive(Clone, Copy, Debug, Drop, PartialEq, Eq)]
pub enum Ended {
    /// A rule is broken.
    Refused(Refusal),
    /// Memory was refused.
    Memory,
}

/// The line of a refusal.
pub fn refuse<C: JobCause>(alloc: Global, refusal: Refusal) -> Result<Answer<C>, AllocError>
    requires { IsRule refusal }
    ensures status { IfOk result (λ a. a.status ≡ Status.Refused) }
    ensures text { IfOk result (λ a. a.text.items ≡ refusal_text refusal) }
    ensures cause { IfOk result (λ a. a.cause ≡ Some (C.refused refusal)) }
{
    let mut text = Vec::new(alloc);
    push_refusal(alloc, &mut text, &refusal)?;
    Ok(Answer {
        status: Status::Refused,
        text,
        cause: Some(C::refused(refusal)),
    })
}

/// The line of a refusal as all that a job finds.
pub fn refuse_job<C: JobCause>(alloc: Global, refusal: Refusal) -> Result<Found<C>, ShelfFault>
    requires { IsRule refusal }
    ensures status { IfOk result (λ f. f.answer.status ≡ Status.Refused) }
    ensures text { IfOk result (λ f. f.answer.text.items ≡ refusal_text refusal) }
    ensures cause { IfOk result (λ f. f.answer.cause ≡ Some (C.refused refusal)) }
    ensures files { IfOk result (λ f. f.files.items ≡ []) }
    ensures memory { IfErr result (λ fault. fault ≡ ShelfFault.Memory) }
{
    match refuse(alloc, refusal) {
        Ok(answer) => Ok(Found::alone(alloc, answer)),
        Err(AllocError) => Err(ShelfFault::Memory),
    }
}
