//! Routes of a fleet, whatever else is told of them.

ghost use Rattle.std.specs.Prelude.{◌≡◌, List};
ghost use Rattle.ev_model.specs.declared.Stop.{Stop};

use ev_model::Stop;
use route_plan::RoutePlan;

/// A route of a fleet: what has the stops of a plan.
pub trait HasStops {
    /// The stops, as a list.
    ghost stops_of: { Self → List Stop };

    /// The stops of the route. It takes no memory.
    fn stops(&self) -> &[Stop]
        ensures { result.now ≡ stops_of self.now };
}

impl HasStops for RoutePlan {
    ghost stops_of = { λ p. p.stops };

    fn stops(&self) -> &[Stop] {
        self.stops.as_slice()
    }
}
