//! Worked examples of fleets of several kinds of vehicles, computed by the checker. Each is the
//! contract of an empty function.

ghost use Rattle.std.specs.Prelude.{◌≡◌};
ghost use Rattle.fleet_model.specs.ClosedList.{IsClosed};
ghost use Rattle.mixed_model.specs.Accepted.{IsMixedAccepted};
ghost use Rattle.mixed_model.specs.Examples.{nearest, priced_at, two_kinds};
ghost use Rattle.mixed_model.specs.Kinds.{AreKinds, network_of};
ghost use Rattle.mixed_model.specs.Meaning.{kind_plans, section_of};
ghost use Rattle.mixed_model.specs.Plans.{IsMixedPlan, mixed_cost};

/// Two kinds of vehicles that agree: each customer has a route of the kind that is nearer, at 6 and
/// 8, and a proof by these prices is accepted.
pub fn two_kinds_of_vehicles()
    ensures agree { AreKinds two_kinds }
    ensures plan { IsMixedPlan two_kinds 1 (kind_plans nearest) }
    ensures cost { mixed_cost two_kinds 1 (kind_plans nearest) ≡ 14 }
    ensures accepted { IsMixedAccepted two_kinds (priced_at 6 8) }
{}

/// A proof by the prices 8 and 8 is closed for kind 0 and would bear the bound 16; it is refused,
/// since kind 1 serves the first customer in 6.
pub fn a_kind_that_is_left_out_is_missed()
    ensures alone { IsClosed (network_of two_kinds 0) (section_of (priced_at 8 8) 0) }
    ensures refused { IsMixedAccepted two_kinds (priced_at 8 8) → ⊥ }
{}
