//! The answer for one route.

ghost use Rattle.std.specs.Prelude.{◌≡◌, ◌+◌, ◌≤◌, IfOk, MatchOption};
ghost use Rattle.std.specs.List.{All};
ghost use Rattle.ev_model.specs.Network.{IsNetwork, scaled_limit};
ghost use Rattle.ev_model.specs.Fastest.{HasNoPlan, IsFastest};
ghost use Rattle.ev_model.specs.Route.{IsRoute};
ghost use Rattle.frvcp_labels.specs.Answers.{HasNoneBelow, IsFastestBelow, IsHomeOrNone};
ghost use Rattle.frvcp_labels.specs.Listing.{IsStateOnWay};
ghost use Rattle.frvcp_labels.specs.Search.{IsSoundPool};

use crate::rest::Rest;
use crate::trip::Trip;
use ev_list::Listed;
use instance_reader::Instance;
use label_pool::Pool;
use route_plan::RoutePlan;
use route_steps::{State, station_nodes};
use std::alloc::{AllocError, Global};

/// A fastest plan of the route for a vehicle that starts with the charge `start`, in units of
/// charge: a whole plan than which no feasible plan in any fraction of a unit is faster.
///
/// `route` holds the nodes of the route in order, from the depot to the depot. `Ok(None)` comes
/// exactly where no plan of the route is feasible, in any fraction of a unit. Which of several
/// fastest plans is answered isn't promised.
pub fn solve_route(
    alloc: Global,
    inst: &Instance,
    route: &[usize],
    start: u64,
) -> Result<Option<RoutePlan>, AllocError>
    requires route { IsRoute inst.now route.now }
    requires start { start ≤ inst.now.capacity }
    ensures { IfOk result (λ answer. MatchOption answer (HasNoPlan inst.now route.now start)
        (λ plan. IsFastest inst.now route.now start plan.stops)) }
{
    let stations = station_nodes(alloc, inst)?;
    let rest = Rest::new(alloc, inst, route, &stations)?;
    let trip = Trip {
        inst,
        route,
        stations: &stations,
        start,
        rest: &rest,
    };
    trip.fastest(alloc)
}

/// A fastest plan of a route, or none, and states by which a judge may see that none is faster.
#[derive(Drop)]
pub struct Solved {
    /// What `solve_route` answers.
    pub plan: Option<RoutePlan>,
    /// States on the way, with scaled times. They are meant to hold the start and whatever a step
    /// from one of them leads to before the end of the plan, or within the limit where there is no
    /// plan; whether they do isn't promised.
    pub states: Vec<State>,
}

/// Solves a route as `solve_route` does, and answers states of the search too: those that may come
/// home before the end of the plan, and for each place one with all that may not, by a lower bound
/// on the rest of a way.
pub fn solve_with_labels(
    alloc: Global,
    inst: &Instance,
    route: &[usize],
    start: u64,
) -> Result<Solved, AllocError>
    requires route { IsRoute inst.now route.now }
    requires start { start ≤ inst.now.capacity }
    ensures plan { IfOk result (λ s. MatchOption s.plan (HasNoPlan inst.now route.now start)
        (λ plan. IsFastest inst.now route.now start plan.stops)) }
    ensures states { IfOk result (λ s. All (IsStateOnWay
        (record { network = inst.now; route = route.now; start = start })) s.states.items) }
    ensures network { IsNetwork inst.now }
{
    let stations = station_nodes(alloc, inst)?;
    let rest = Rest::new(alloc, inst, route, &stations)?;
    let trip = Trip {
        inst,
        route,
        stations: &stations,
        start,
        rest: &rest,
    };
    trip.solved(alloc)
}

impl<'a> Trip<'a> {
    /// What `solve_route` answers.
    fn fastest(&self, alloc: Global) -> Result<Option<RoutePlan>, AllocError>
        ensures { IfOk result (λ answer. MatchOption answer
            (HasNoPlan self.now.network self.now.route self.now.start)
            (λ plan. IsFastest self.now.network self.now.route self.now.start plan.stops)) }
    {
        self.fastest_below(alloc, self.past_limit())
    }

    /// What `RouteBounds::solve_below` answers.
    pub(crate) fn fastest_below(
        &self,
        alloc: Global,
        bar: u128,
    ) -> Result<Option<RoutePlan>, AllocError>
        ensures { IfOk result (λ answer. MatchOption answer
            (HasNoneBelow self.now.network self.now.route self.now.start bar)
            (λ plan. IsFastestBelow self.now.network self.now.route self.now.start bar
            plan.stops)) }
    {
        let (pool, home) = self.searched(alloc, bar)?;
        self.plan_to(alloc, &pool, home, bar)
    }

    /// What `solve_with_labels` answers.
    fn solved(&self, alloc: Global) -> Result<Solved, AllocError>
        ensures plan { IfOk result (λ s. MatchOption s.plan
            (HasNoPlan self.now.network self.now.route self.now.start)
            (λ plan. IsFastest self.now.network self.now.route self.now.start plan.stops)) }
        ensures states { IfOk result (λ s. All (IsStateOnWay self.now) s.states.items) }
    {
        let past = self.past_limit();
        let (pool, home) = self.searched(alloc, past)?;
        let plan = self.plan_to(alloc, &pool, home, past)?;
        let states = self.states_before(alloc, &pool, self.bar(&pool, home))?;
        Ok(Solved { plan, states })
    }

    /// The least time past the limit: a bar that each way home is below.
    fn past_limit(&self) -> u128
        ensures { result ≡ scaled_limit self.now.network + 1 }
    {
        u128::from(self.scaled_limit()) + 1
    }

    /// The labels of a search, and the one at the route's end that it has taken, none where no way
    /// home is below the bar.
    fn searched(&self, alloc: Global, bar: u128) -> Result<(Pool<State>, Option<usize>), AllocError>
        ensures pool { IfOk result (λ found. IsSoundPool self.now found.0) }
        ensures home { IfOk result (λ found.
            IsHomeOrNone self.now found.0.labels bar found.1) }
    {
        let (mut pool, mut full) = self.begin(alloc)?;
        let home = self.first_home(alloc, &mut pool, full.as_mut_slice(), bar)?;
        Ok((pool, home))
    }

    /// The states that may come home before the bar, and for each place one with all that may not.
    fn states_before(
        &self,
        alloc: Global,
        pool: &Pool<State>,
        bar: u64,
    ) -> Result<Vec<State>, AllocError>
        requires { IsSoundPool self.now pool.now }
        ensures { IfOk result (λ states. All (IsStateOnWay self.now) states.items) }
    {
        let mut states = self.promising_states(alloc, pool, bar)?;
        self.add_hopeless(alloc, bar, &mut states)?;
        Ok(states)
    }

    /// The plan of a label at the route's end that a search below a bar has taken, none where there
    /// is none.
    fn plan_to(
        &self,
        alloc: Global,
        pool: &Pool<State>,
        home: Option<usize>,
        bar: u128,
    ) -> Result<Option<RoutePlan>, AllocError>
        requires pool { IsSoundPool self.now pool.now }
        requires home { IsHomeOrNone self.now pool.now.labels bar home }
        ensures { IfOk result (λ answer. MatchOption answer
            (HasNoneBelow self.now.network self.now.route self.now.start bar)
            (λ plan. IsFastestBelow self.now.network self.now.route self.now.start bar
            plan.stops)) }
    {
        let Some(i) = home else {
            return Ok(None);
        };
        let stops = self.stops_to(alloc, pool, i)?;
        Ok(Some(RoutePlan {
            stops: Listed::from_vec(stops),
        }))
    }
}
