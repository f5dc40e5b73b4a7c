//! States of a search by which a judge may see that no vehicle comes home before a time: those that
//! may, as the search found them, and for each place one with all that may not.
//!
//! By the bound on the rest of a way, a vehicle at a place with a level can't come home before the
//! bar from the time `bar - rest + rate * level` on. A step from such a state leads to one of the
//! next place.

ghost use Rattle.std.specs.Prelude.{◌≡◌, ◌+◌, ◌-◌, ◌*◌, ◌<◌, ◌≤◌, ℕ, IfOk, IsTrue, MatchOption, OnOk, Some, length, slice_get};
ghost use Rattle.std.specs.List.{All};
ghost use Rattle.charge_curve.specs.Points.{ArePoints};
ghost use Rattle.ev_model.specs.Network.{node_count, scaled_limit};
ghost use Rattle.frvcp_labels.specs.Answers.{IsHomeOrNone};
ghost use Rattle.frvcp_labels.specs.Listing.{IsPointWithin, IsStateOnWay};
ghost use Rattle.frvcp_labels.specs.Search.{IsSoundPool};
ghost use Rattle.label_pool.specs.declared.label.Label.{Label};
ghost use Rattle.route_steps.specs.declared.state.State.{State};

use crate::listing::copied;
use crate::trip::Trip;
use dominance::LabelValue;
use label_pool::Pool;
use piece_fn::PieceFn;
use route_steps::{Place, State};
use std::alloc::{AllocError, Global};

impl<'a> Trip<'a> {
    /// The time of the way home of a label at the route's end, and without one a time past the
    /// limit.
    pub(crate) fn bar(&self, pool: &Pool<State>, home: Option<usize>) -> u64
        requires pool { IsSoundPool self.now pool.now }
        requires home { IsHomeOrNone self.now pool.now.labels
            (scaled_limit self.now.network + 1) home }
        ensures { MatchOption home (result ≡ scaled_limit self.now.network + 1)
            (λ i. (label : Label State) → slice_get pool.now.labels i ≡ Some label →
            result ≡ label.key) }
    {
        let Some(i) = home else {
            return self.scaled_limit() + 1;
        };
        let (_, time) = pool.value(i).value.least();
        time
    }

    /// The states of the live labels that are on their way and may come home before the bar.
    pub(crate) fn promising_states(
        &self,
        alloc: Global,
        pool: &Pool<State>,
        bar: u64,
    ) -> Result<Vec<State>, AllocError>
        requires pool { IsSoundPool self.now pool.now }
        ensures { IfOk result (λ states. All (IsStateOnWay self.now) states.items) }
    {
        let mut states = Vec::new(alloc);
        for i in 0..pool.len() {
            if !self.is_promising(pool, i, bar) {
                continue;
            }
            states.push(copied(alloc, pool.value(i))?)?;
        }
        Ok(states)
    }

    /// Whether a label is live and on its way, and a way home may end before the bar.
    fn is_promising(&self, pool: &Pool<State>, i: usize, bar: u64) -> bool
        requires pool { IsSoundPool self.now pool.now }
        requires known { i < length pool.now.labels }
        ensures { (label : Label State) → slice_get pool.now.labels i ≡ Some label →
            IsTrue result → label.value.passed < length self.now.route - 1 }
    {
        self.is_on_way(pool, i) && self.key(pool.value(i)) < bar
    }

    /// Appends the states of the vehicles that don't come home before the bar, one for each place
    /// on the way.
    pub(crate) fn add_hopeless(
        &self,
        alloc: Global,
        bar: u64,
        states: &mut Vec<State>,
    ) -> Result<(), AllocError>
        requires states { All (IsStateOnWay self.now) states.old.items }
        ensures { OnOk result (All (IsStateOnWay self.now) states.new.items) }
    {
        for passed in 0..self.end() {
            let node = self.node_at(passed);
            self.add_hopeless_at(alloc, bar, Place { passed, node }, states)?;
            self.add_hopeless_stations(alloc, bar, passed, states)?;
        }
        Ok(())
    }

    /// The same for the stations other than the node of the route.
    fn add_hopeless_stations(
        &self,
        alloc: Global,
        bar: u64,
        passed: usize,
        states: &mut Vec<State>,
    ) -> Result<(), AllocError>
        requires passed { passed < length self.now.route - 1 }
        requires states { All (IsStateOnWay self.now) states.old.items }
        ensures { OnOk result (All (IsStateOnWay self.now) states.new.items) }
    {
        for station in self.stations {
            let node = *station;
            if node != self.node_at(passed) {
                self.add_hopeless_at(alloc, bar, Place { passed, node }, states)?;
            }
        }
        Ok(())
    }

    /// The same for one place, where there is a time before the bar from which no vehicle comes
    /// home before it.
    fn add_hopeless_at(
        &self,
        alloc: Global,
        bar: u64,
        place: Place,
        states: &mut Vec<State>,
    ) -> Result<(), AllocError>
        requires passed { place.passed < length self.now.route - 1 }
        requires node { place.node < node_count self.now.network }
        requires states { All (IsStateOnWay self.now) states.old.items }
        ensures { OnOk result (All (IsStateOnWay self.now) states.new.items) }
    {
        let points = self.hopeless_points(alloc, bar, place)?;
        if !self.are_within(points.as_slice()) {
            return Ok(());
        }
        states.push(State {
            passed: place.passed,
            node: place.node,
            charged: false,
            value: PieceFn::from_points(alloc, points.as_slice())?,
        })?;
        Ok(())
    }

    /// The points of the state of one place, none where no time there is before the bar.
    fn hopeless_points(
        &self,
        alloc: Global,
        bar: u64,
        place: Place,
    ) -> Result<Vec<(u64, u64)>, AllocError>
        requires passed { place.passed < length self.now.route - 1 }
        requires node { place.node < node_count self.now.network }
    {
        let line = Line {
            bar,
            rest: self.rest.least[self.bucket(place.passed, place.node)],
            rate: self.rest.rate,
        };
        line.points(alloc, self.capacity())
    }

    /// Whether points make a value with levels of the battery and times within the limit.
    fn are_within(&self, points: &[(u64, u64)]) -> bool
        ensures valid { IsTrue result → ArePoints points.now }
        ensures within { IsTrue result → All (IsPointWithin self.now.network) points.now }
    {
        PieceFn::is_points(points) && self.are_low(points)
    }

    /// Whether no level of the points is above a full battery, and no time past the limit.
    fn are_low(&self, points: &[(u64, u64)]) -> bool
        ensures { IsTrue result → All (IsPointWithin self.now.network) points.now }
    {
        for point in points {
            if !self.is_low(*point) {
                return false;
            }
        }
        true
    }

    fn is_low(&self, point: (u64, u64)) -> bool
        ensures { IsTrue result → IsPointWithin self.now.network point }
    {
        point.0 <= self.capacity() && point.1 <= self.scaled_limit()
    }
}

/// A time at each level: `bar - rest + rate * level`, and 0 where that is negative.
#[derive(Clone, Copy)]
struct Line {
    bar: u64,
    rest: u64,
    rate: u64,
}

impl Line {
    fn at(self, level: u64) -> u64
        ensures { result ≤ self.bar + self.rate * level - self.rest }
    {
        let whole = u128::from(self.bar) + u128::from(self.rate) * u128::from(level);
        let time = whole.saturating_sub(u128::from(self.rest));
        time.min(u128::from(u64::MAX)) as u64
    }

    /// Points (level, time) of the line where it is before the bar, up to a level `full`: none
    /// where it is so nowhere. Of the levels at time 0 the last one stands for all.
    fn points(self, alloc: Global, full: u64) -> Result<Vec<(u64, u64)>, AllocError> {
        let mut points = Vec::new(alloc);
        if self.bar == 0 || self.rest == 0 {
            return Ok(points);
        }
        let last = self.highest(self.rest - 1, full);
        let first = self.highest(self.rest.saturating_sub(self.bar), last);
        points.push((first, self.at(first)))?;
        if first == last {
            return Ok(points);
        }
        if self.bar < self.rest {
            points.push((first + 1, self.at(first + 1)))?;
        }
        if self.rest <= self.bar || first + 1 < last {
            points.push((last, self.at(last)))?;
        }
        Ok(points)
    }

    /// The highest level, up to `most`, that is worth no more than a time.
    fn highest(self, time: u64, most: u64) -> u64
        ensures { result ≤ most }
    {
        if self.rate == 0 {
            return most;
        }
        most.min(time / self.rate)
    }
}
