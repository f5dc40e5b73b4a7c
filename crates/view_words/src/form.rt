//! Which form the plan that is shown has.

ghost use Rattle.std.specs.Prelude.{◌≡◌};
ghost use Rattle.view_words.specs.Forms.{form_of};

/// What PLAN holds.
#[derive(Clone, Copy, Debug, Drop, PartialEq, Eq)]
pub enum PlanForm {
    /// A fleet plan, or none.
    Fleet,
    /// A part of a fleet plan, or none.
    Part,
    /// The charged route of one vehicle, or none, as `evroute fixed` puts it.
    Fixed {
        /// The level at which the vehicle starts, in units of charge; `None` is a full battery.
        charge: Option<u64>,
    },
}

/// The form that the words for it name; `None` where they don't go together: a level at the start
/// is given of a route as `fixed` puts it alone, and such a route is no part of a plan.
pub(crate) fn form_of(partial: bool, fixed: bool, charge: Option<u64>) -> Option<PlanForm>
    ensures { result ≡ form_of partial fixed charge }
{
    match (partial, fixed, charge) {
        (false, false, None) => Some(PlanForm::Fleet),
        (true, false, None) => Some(PlanForm::Part),
        (false, true, charge) => Some(PlanForm::Fixed { charge }),
        _ => None,
    }
}
