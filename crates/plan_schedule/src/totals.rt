//! Sums over visits and over routes.

ghost use Rattle.std.specs.Prelude.{◌≡◌, ◌+◌, ◌<◌, ◌≤◌, ◌^◌};
ghost use Rattle.plan_schedule.specs.Totals.{AreSmall, nothing, of_visit, plan_totals, plus, route_totals};

use crate::schedule::{RouteSchedule, Totals, Visit};

/// The sums of nothing.
fn nothing() -> Totals
    ensures { result ≡ nothing }
{
    Totals {
        driving: 0,
        serving: 0,
        plugging: 0,
        charging: 0,
        time: 0,
        energy_driven: 0,
        energy_charged: 0,
        stops: 0,
    }
}

/// The sums of one visit.
fn of_visit(visit: &Visit) -> Totals
    ensures { result ≡ of_visit visit.now }
{
    let (driving, serving) = (visit.driving as u128, visit.service as u128);
    let (plugging, charging) = (visit.plugging as u128, visit.charging as u128);
    Totals {
        driving,
        serving,
        plugging,
        charging,
        time: driving + serving + plugging + charging,
        energy_driven: visit.energy as u128,
        energy_charged: visit.charged as u128,
        stops: 1,
    }
}

/// The sums of both.
fn plus(a: Totals, b: Totals) -> Totals
    requires { AreSmall (plus a b) }
    ensures { result ≡ plus a b }
{
    Totals {
        driving: a.driving + b.driving,
        serving: a.serving + b.serving,
        plugging: a.plugging + b.plugging,
        charging: a.charging + b.charging,
        time: a.time + b.time,
        energy_driven: a.energy_driven + b.energy_driven,
        energy_charged: a.energy_charged + b.energy_charged,
        stops: a.stops + b.stops,
    }
}

/// The sums over the visits of a route.
pub(crate) fn route_totals(visits: &[Visit]) -> Totals
    requires { AreSmall (route_totals visits.now) }
    ensures { result ≡ route_totals visits.now }
{
    let mut totals = nothing();
    for visit in visits {
        totals = plus(totals, of_visit(visit));
    }
    totals
}

/// The sums over routes.
pub(crate) fn plan_totals(routes: &[RouteSchedule]) -> Totals
    requires { AreSmall (plan_totals routes.now) }
    ensures { result ≡ plan_totals routes.now }
{
    let mut totals = nothing();
    for route in routes {
        totals = plus(totals, route.totals);
    }
    totals
}
