//! Why an answer isn't the one that was asked for, as a value.

ghost use Rattle.evroute_causes.specs.declared.cause.Cause.TheVariants as cause;

use certificate_check::Verdict;
use fleet_steps::PlanCause;
use job_frame::JobCause;
use mixed_model::MixedVerdict;
use near_proof::NearVerdict;
use plan_check::PlanFault;
use refusal_lines::Refusal;
use route_proof::RouteVerdict;

/// What the first line of an answer tells, where it isn't the one that was asked for.
#[derive(Clone, Copy, Debug, Drop, PartialEq, Eq)]
pub enum Cause {
    /// The words name no job.
    Words,
    /// A rule of the files and the words is broken.
    Refused(Refusal),
    /// The kind of vehicles with this number, counted from 0, doesn't agree with kind 0.
    Kinds(usize),
    /// The plan of a fleet breaks a rule.
    Plan(PlanFault),
    /// The certificate breaks a rule.
    Certificate(Verdict),
    /// The proof that a plan of a route is a fastest one breaks a rule.
    Route(RouteVerdict),
    /// The proof of a bound by near routes breaks a rule.
    Near(NearVerdict),
    /// The proof for kinds of vehicles breaks a rule.
    Mixed(MixedVerdict),
    /// No route of its own serves the customer at this node.
    Alone(usize),
    /// There is no plan of the fleet.
    NoFleet,
}

impl JobCause for Cause {
    ghost words = { cause.Words };

    ghost refused = { λ refusal. cause.Refused refusal };

    fn words() -> Self {
        Cause::Words
    }

    fn refused(refusal: Refusal) -> Self {
        Cause::Refused(refusal)
    }
}

impl PlanCause for Cause {
    ghost broken = { λ fault. cause.Plan fault };

    fn broken(fault: PlanFault) -> Self {
        Cause::Plan(fault)
    }
}

impl Cause {
    ghost use Rattle.std.specs.Prelude.{◌≡◌};
    ghost use Rattle.evroute_causes.specs.Heard.{cause_beside};

    /// That there is no plan of the fleet, where a bound says so.
    pub fn beside(bound: Option<u128>) -> Option<Cause>
        ensures { result ≡ cause_beside bound }
    {
        match bound {
            None => Some(Cause::NoFleet),
            Some(_) => None,
        }
    }
}
