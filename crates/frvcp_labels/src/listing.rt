//! The labels of a search, as a list of states.

ghost use Rattle.std.specs.Prelude.{◌≡◌, ◌↔◌, ◌-◌, ◌<◌, ℕ, IfOk, IsTrue, None, OnOk, Some, true, length, slice_get};
ghost use Rattle.std.specs.List.{All, Contains};
ghost use Rattle.charge_curve.specs.Points.{ArePoints};
ghost use Rattle.frvcp_labels.specs.Charged.{AreCharged};
ghost use Rattle.frvcp_labels.specs.Full.{AreFull};
ghost use Rattle.frvcp_labels.specs.Listing.{HoldReached, IsStateOnWay, StandForLabels};
ghost use Rattle.frvcp_labels.specs.Search.{IsGrown, IsSoundPool, IsSpreadOnWay, Spreads};
ghost use Rattle.label_pool.specs.Labels.{NoneWaits};
ghost use Rattle.label_pool.specs.declared.label.Label.{Label};
ghost use Rattle.route_steps.specs.Ways.{begin};
ghost use Rattle.route_steps.specs.declared.state.State.{State};

use crate::trip::Trip;
use label_pool::Pool;
use piece_fn::PieceFn;
use route_steps::State;
use std::alloc::{AllocError, Global};

impl<'a> Trip<'a> {
    /// Searches on until no label waits.
    pub(crate) fn settle_all(
        &self,
        alloc: Global,
        pool: &mut Pool<State>,
        full: &mut [Option<u64>],
    ) -> Result<(), AllocError>
        requires pool { IsSoundPool self.now pool.old }
        requires full { AreFull self.now pool.old.labels full.old }
        requires charged { AreCharged self.now pool.old.labels }
        requires spread { IsSpreadOnWay self.now pool.old.labels (begin self.now.start) }
        ensures pool { OnOk result (IsSoundPool self.now pool.new) }
        ensures spread { OnOk result
            (IsSpreadOnWay self.now pool.new.labels (begin self.now.start)) }
        ensures none { OnOk result (NoneWaits pool.new.labels) }
    {
        while let Some(i) = pool.take_next() {
            self.spread_on_way(alloc, pool, full, i)?;
        }
        Ok(())
    }

    /// Adds the labels that one step from a label leads to, where it isn't at the route's end.
    fn spread_on_way(
        &self,
        alloc: Global,
        pool: &mut Pool<State>,
        full: &mut [Option<u64>],
        i: usize,
    ) -> Result<(), AllocError>
        requires pool { IsSoundPool self.now pool.old }
        requires full { AreFull self.now pool.old.labels full.old }
        requires charged { AreCharged self.now pool.old.labels }
        requires from { i < length pool.old.labels }
        ensures pool { OnOk result (IsSoundPool self.now pool.new) }
        ensures full { OnOk result (AreFull self.now pool.new.labels full.new) }
        ensures charged { OnOk result (AreCharged self.now pool.new.labels) }
        ensures grown { OnOk result (IsGrown pool.old.labels pool.new.labels) }
        ensures spreads { OnOk result ((label : Label State) →
            slice_get pool.old.labels i ≡ Some label →
            label.value.passed < length self.now.route - 1 →
            Spreads self.now pool.new.labels None label.value) }
    {
        if pool.value(i).passed == self.end() {
            return Ok(());
        }
        self.spread(alloc, pool, full, i, None)
    }

    /// The states of the live labels that are on their way.
    pub(crate) fn live_states(
        &self,
        alloc: Global,
        pool: &Pool<State>,
    ) -> Result<Vec<State>, AllocError>
        requires pool { IsSoundPool self.now pool.now }
        ensures on_way { IfOk result (λ states. All (IsStateOnWay self.now) states.items) }
        ensures held { IfOk result (λ states.
            HoldReached self.now pool.now.labels states.items) }
        ensures labels { IfOk result (λ states.
            StandForLabels pool.now.labels states.items) }
    {
        let mut states = Vec::new(alloc);
        for i in 0..pool.len() {
            if !self.is_on_way(pool, i) {
                continue;
            }
            states.push(copied(alloc, pool.value(i))?)?;
        }
        Ok(states)
    }

    /// Whether a label is live, and not at the route's end.
    pub(crate) fn is_on_way(&self, pool: &Pool<State>, i: usize) -> bool
        requires pool { IsSoundPool self.now pool.now }
        requires known { i < length pool.now.labels }
        ensures { (label : Label State) → slice_get pool.now.labels i ≡ Some label →
            IsTrue result ↔
            ((label.live ≡ true) × (label.value.passed < length self.now.route - 1)) }
    {
        pool.is_live(i) && pool.value(i).passed != self.end()
    }
}

/// The same state once more.
pub(crate) fn copied(alloc: Global, state: &State) -> Result<State, AllocError>
    ensures same { IfOk result (λ copy. copy ≡ state.now) }
    ensures valid { ArePoints state.now.value }
{
    let value = PieceFn::from_points(alloc, state.value.points())?;
    Ok(State {
        passed: state.passed,
        node: state.node,
        charged: state.charged,
        value,
    })
}
