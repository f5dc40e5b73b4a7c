//! When the last vehicle comes home.

ghost use Rattle.std.specs.Prelude.{◌≡◌};
ghost use Rattle.schedule_texts.specs.Latest.{latest_in, latest_of};

use plan_schedule::{RouteSchedule, Visit};

/// When the last of the vehicles leaves its last stop; 0 where there is none.
pub(crate) fn latest_of(routes: &[RouteSchedule]) -> u64
    ensures { result ≡ latest_of 0 routes.now }
{
    let mut latest = 0;
    for route in routes {
        latest = latest_in(latest, route.visits.as_slice());
    }
    latest
}

/// The greatest of a time and those of leaving.
pub(crate) fn latest_in(time: u64, visits: &[Visit]) -> u64
    ensures { result ≡ latest_in time visits.now }
{
    let mut latest = time;
    for visit in visits {
        latest = latest.max(visit.leaving);
    }
    latest
}
