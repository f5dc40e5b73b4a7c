//! Plans of fleets of several kinds of vehicles, and proofs of lower bounds on their cost.

ghost use Rattle.std.specs.Prelude.{◌≡◌};

use certificate_parts::BasisEntry;
use ev_list::Listed;
use ev_model::Stop;
use piece_fn::Label;
use plan_check::HasStops;
use route_plan::RoutePlan;

/// A plan of one vehicle, with the number of its kind. Kinds are numbered from 0.
#[derive(Drop)]
pub struct MixedRoute {
    pub kind: usize,
    pub plan: RoutePlan,
}

impl HasStops for MixedRoute {
    ghost stops_of = { λ r. r.plan.stops };

    fn stops(&self) -> &[Stop] {
        self.plan.stops.as_slice()
    }
}

/// A route with its share.
#[derive(Drop)]
pub struct MixedShare {
    pub share: u64,
    pub route: MixedRoute,
}

/// What shows that no plan of a fleet of several kinds of vehicles costs less than a bound, or that
/// there is none.
///
/// Times, prices and the bound are scaled by the denominator, which all kinds share. Customers are
/// numbered from 0 in rising order of their nodes.
#[derive(Drop)]
pub struct MixedProof {
    /// What no plan costs less than; `None` says that there is no plan.
    pub bound: Option<u128>,
    /// The weight of time.
    pub weight: u64,
    /// A price for each customer, by number.
    pub prices: Listed<i128>,
    /// For each kind, by number, labels that show that no route of a vehicle of this kind earns
    /// more than it takes.
    pub labels: Listed<Listed<Label>>,
    /// What shows that the prices over the weight are the least cost of a fractional cover.
    pub root: MixedRoot,
}

/// What shows that the price sum over the weight is the linear optimum, or that it may not be.
#[derive(Drop)]
pub enum MixedRoot {
    /// There is no fractional cover.
    None,
    /// Each customer is covered exactly once by routes with shares, at the price sum over the
    /// weight: a share is that of its number over `over`.
    Exact {
        over: u64,
        shares: Listed<MixedShare>,
    },
    /// The numbers of a basis of the master problem over these columns are too wide to go on.
    Wide {
        columns: Listed<MixedRoute>,
        basis: Listed<BasisEntry>,
    },
}
