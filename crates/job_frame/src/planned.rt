//! What is written and put of a search for a plan.

use crate::{Answer, Found, JobCause, NewFile};
use std::alloc::{AllocError, Global};

/// What is written and put of a search for a plan.
#[derive(Drop)]
pub struct Planned<C: JobCause> {
    /// The text of the plan file.
    pub plan: Vec<u8>,
    /// The text of the certificate, or of the proof.
    pub cert: Vec<u8>,
    /// The report, and the status that goes with it.
    pub answer: Answer<C>,
}

impl<C: JobCause> Planned<C> {
    ghost use Rattle.std.specs.Prelude.{◌≡◌, ◌∷◌, [], IfOk, map};
    ghost use Rattle.job_frame.specs.Finds.{written_by};

    /// The answer, before which the plan and the certificate are written under these names.
    pub fn found(self, alloc: Global, plan: &str, cert: &str) -> Result<Found<C>, AllocError>
        ensures answer { IfOk result (λ f. f.answer ≡ self.answer) }
        ensures files { IfOk result (λ f. map written_by f.files.items
            ≡ record { name = plan.now; bytes = self.plan.items }
            ∷ record { name = cert.now; bytes = self.cert.items } ∷ []) }
    {
        let plan = NewFile::new(alloc, plan, self.plan)?;
        let cert = NewFile::new(alloc, cert, self.cert)?;
        Found::with_files(alloc, self.answer, plan, cert)
    }
}
