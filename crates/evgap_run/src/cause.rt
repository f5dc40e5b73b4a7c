//! Why an answer isn't the one that was asked for, as a value.

ghost use Rattle.evgap_run.specs.declared.cause.Cause.TheVariants as cause;

use fleet_steps::PlanCause;
use job_frame::JobCause;
use plan_check::PlanFault;
use refusal_lines::Refusal;
use tree_text::BoundVerdict;

/// What the first line of an answer tells, where it isn't the one that was asked for; or what an
/// answer doesn't tell.
#[derive(Clone, Copy, Debug, Drop, PartialEq, Eq)]
pub enum Cause {
    /// The words name no job.
    Words,
    /// A rule of the files and the words is broken.
    Refused(Refusal),
    /// The plan of a fleet breaks a rule.
    Plan(PlanFault),
    /// The proof of a bound, by near routes or by a tree, breaks a rule.
    Proof(BoundVerdict),
    /// No route of its own serves the customer at this node.
    Alone(usize),
    /// There is no plan of the fleet.
    NoFleet,
    /// The clock ended the moves that make the plan of the fleet cheaper: some may be left.
    MovesEnded,
}

impl JobCause for Cause {
    ghost words = { cause.Words };

    ghost refused = { λ refusal. cause.Refused refusal };

    fn words() -> Self {
        Cause::Words
    }

    fn refused(refusal: Refusal) -> Self {
        Cause::Refused(refusal)
    }
}

impl PlanCause for Cause {
    ghost broken = { λ fault. cause.Plan fault };

    fn broken(fault: PlanFault) -> Self {
        Cause::Plan(fault)
    }
}
