//! How a search for a bound is cut to its time. No clause rests on this.

use near_branch::BranchClock;
use near_prices::PriceEffort;
use route_improve::Improved;

/// So many labels are made before the clock is asked.
const FIRST_LABELS: usize = 400_000;

/// So many are enough to close prices where time is short.
const SHORT_LABELS: usize = 2_000_000;

/// So many in haste.
const HASTY_LABELS: usize = 300_000;

/// A list takes so many times shorter where no near set grows.
const SHORTER: u64 = 3;

/// Where routes serve more customers in the mean, lists take longer: with twice as many four times
/// as long.
const PLAIN_ROUTE: u64 = 10;

/// About so many milliseconds a short list of so many customers takes at the most, where routes are
/// as long as those of a plan.
pub(crate) fn list_milliseconds(customers: usize, held: &Improved) -> u64 {
    let routes = match held {
        Improved::Plan(plan) => plan.routes.len(),
        Improved::Alone(_) => customers,
    };
    let length = (customers as u64) / (routes as u64).max(1);
    let length = length.max(PLAIN_ROUTE);
    let plain = plain_milliseconds(customers);
    let longer = plain.saturating_mul(length) / PLAIN_ROUTE;
    longer.saturating_mul(length) / PLAIN_ROUTE
}

/// The same where routes are short.
fn plain_milliseconds(customers: usize) -> u64 {
    let customers = customers as u64;
    customers
        .saturating_mul(customers)
        .saturating_mul(customers)
        / 400
}

/// How a search for a bound is cut to its time.
#[derive(Clone, Copy, Debug, PartialEq, Eq)]
pub(crate) enum Pace {
    /// There is time for all of it.
    Whole,
    /// No near set grows.
    Short,
    /// Each customer remembers himself alone: searches and lists are short then, and bounds low.
    Haste,
}

impl Pace {
    /// That where a list takes so many milliseconds, by the time that is left.
    pub(crate) fn of<C: BranchClock>(list: u64, clock: &mut C) -> Pace {
        if clock.is_up_in(list / SHORTER / 2) {
            Pace::Haste
        } else if clock.is_up_in(list.saturating_mul(3)) {
            Pace::Short
        } else {
            Pace::Whole
        }
    }

    /// So many milliseconds are kept back, where a list takes `list` if there is time for it.
    pub(crate) fn kept_back(self, list: u64) -> u64 {
        match self {
            Pace::Whole => list,
            Pace::Short => list / SHORTER,
            Pace::Haste => list / SHORTER / 4,
        }
    }

    /// So many layers the tables have.
    pub(crate) fn layers(self) -> usize {
        match self {
            Pace::Whole | Pace::Short => 240,
            Pace::Haste => 60,
        }
    }

    /// How much work is done whatever the clock says: prices aren't worth much before some rounds
    /// were made.
    pub(crate) fn effort(self) -> PriceEffort {
        match self {
            Pace::Whole => PriceEffort {
                first: FIRST_LABELS,
                ..PriceEffort::usual()
            },
            Pace::Short => PriceEffort {
                first: FIRST_LABELS,
                closing: SHORT_LABELS,
                raising: (SHORT_LABELS / 10, SHORT_LABELS),
            },
            Pace::Haste => PriceEffort {
                first: HASTY_LABELS / 2,
                closing: HASTY_LABELS,
                raising: (0, HASTY_LABELS / 4),
            },
        }
    }

    /// So often near sets grow at the most.
    pub(crate) fn most_growths(self) -> usize {
        match self {
            Pace::Whole => 60,
            Pace::Short | Pace::Haste => 0,
        }
    }
}

/// So many milliseconds a search for a bound for so many customers takes at the least, so that it
/// is cut little.
pub(crate) fn bound_milliseconds(customers: usize) -> u64 {
    plain_milliseconds(customers).saturating_mul(4)
}
