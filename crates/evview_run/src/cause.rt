//! Why an answer isn't the one that was asked for, as a value.

ghost use Rattle.evview_run.specs.declared.cause.Cause.TheVariants as cause;

use fleet_steps::PlanCause;
use job_frame::JobCause;
use place_names::PlacesFault;
use plan_check::PlanFault;
use refusal_lines::Refusal;

/// What the first line of an answer tells, where it isn't the one that was asked for.
#[derive(Clone, Copy, Debug, Drop, PartialEq, Eq)]
pub enum Cause {
    /// The words name no job.
    Words,
    /// A rule of the files and the words is broken.
    Refused(Refusal),
    /// The file of places breaks a rule.
    Places(PlacesFault),
    /// The plan has no route of this number, counted from 0.
    Number(u64),
    /// The plan breaks a rule.
    Plan(PlanFault),
    /// The route takes another time than this one, scaled, which is told of it.
    Time(u64),
}

impl JobCause for Cause {
    ghost words = { cause.Words };

    ghost refused = { λ refusal. cause.Refused refusal };

    fn words() -> Self {
        Cause::Words
    }

    fn refused(refusal: Refusal) -> Self {
        Cause::Refused(refusal)
    }
}

impl PlanCause for Cause {
    ghost broken = { λ fault. cause.Plan fault };

    fn broken(fault: PlanFault) -> Self {
        Cause::Plan(fault)
    }
}
