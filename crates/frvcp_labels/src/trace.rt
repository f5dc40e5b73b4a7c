//! The plan that a label stands for.

ghost use Rattle.std.specs.Prelude.{◌≡◌, ◌-◌, ◌<◌, ◌≤◌, ℕ, Some, IfOk, length, slice_get};
ghost use Rattle.label_pool.specs.declared.label.Label.{Label};
ghost use Rattle.route_steps.specs.Homes.{IsPlanWithin};
ghost use Rattle.frvcp_labels.specs.Search.{IsSoundPool};
ghost use Rattle.route_steps.specs.Steps.{added_at};
ghost use Rattle.route_steps.specs.declared.state.State.{State};
ghost use Rattle.piece_fn.specs.PieceFn.{level_times};

use crate::trip::Trip;
use dominance::LabelValue;
use label_pool::Pool;
use route_plan::Stop;
use route_steps::State;
use std::alloc::{AllocError, Global};

impl<'a> Trip<'a> {
    /// The stops by which a vehicle comes to the first level of a label at the end of the route, in
    /// order.
    pub(crate) fn stops_to(
        &self,
        alloc: Global,
        pool: &Pool<State>,
        home: usize,
    ) -> Result<Vec<Stop>, AllocError>
        requires pool { IsSoundPool self.now pool.now }
        requires known { home < length pool.now.labels }
        requires home { (label : Label State) → slice_get pool.now.labels home ≡ Some label →
            label.value.passed ≡ length self.now.route - 1 }
        ensures { IfOk result (λ stops. (label : Label State) →
            slice_get pool.now.labels home ≡ Some label →
            IsPlanWithin self.now label.key stops.items) }
    {
        let mut stops = Vec::new(alloc);
        let (mut level, _) = pool.value(home).value.least();
        let mut at = home;
        while let Some(parent) = pool.parent(at) {
            let (from, to) = (pool.value(parent), pool.value(at));
            let added = added_at(to, level);
            stops.push(Stop {
                node: to.node,
                added,
                via: from.passed == to.passed,
            })?;
            level = level - added + self.energy(from.node, to.node);
            at = parent;
        }
        stops.push(Stop {
            node: 0,
            added: 0,
            via: false,
        })?;
        stops.reverse();
        Ok(stops)
    }
}

/// How much is charged on the step to a level of a state.
fn added_at(to: &State, level: u64) -> u64
    requires { (level_times to.now.value).first ≤ level }
    ensures value { result ≡ added_at to.now level }
    ensures within { result ≤ level }
{
    if !to.charged {
        return 0;
    }
    let (first, _) = to.value.least();
    level - first
}
