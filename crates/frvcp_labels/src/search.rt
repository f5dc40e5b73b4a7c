//! The search by labels.

ghost use Rattle.std.specs.Prelude.{◌≡◌, ◌<◌, ◌*◌, ◌+◌, ◌-◌, ◌^◌, ℕ, Option, Some, IfOk, IfSome, IsNone, IsTrue, OnOk, length, slice_get};
ghost use Rattle.label_pool.specs.declared.label.Label.{Label};
ghost use Rattle.ev_model.specs.Network.{node_count};
ghost use Rattle.dominance.specs.LevelTimes.{IsValue, time_at};
ghost use Rattle.piece_fn.specs.PieceFn.{level_times};
ghost use Rattle.frvcp_labels.specs.Answers.{IsHomeOrNone, IsTaken};
ghost use Rattle.route_steps.specs.Homes.{IsBelowHomes};
ghost use Rattle.frvcp_labels.specs.Charged.{AreCharged, OnlyAdds};
ghost use Rattle.frvcp_labels.specs.Full.{AreFull};
ghost use Rattle.frvcp_labels.specs.Search.{AreReached, HasOrigin, IsBelowWays, IsGrown, IsLateTo, IsSoundPool, IsSpread, Reached, Spreads, SpreadsInTimeTo, SpreadsTo, SpreadsToStations};
ghost use Rattle.route_steps.specs.Steps.{AreSteps, CoverStops, Holds, IsSoundState, MayGo};
ghost use Rattle.route_steps.specs.Ways.{Leaving, begin};
ghost use Rattle.route_steps.specs.declared.state.State.{State};

use crate::full::none_yet;
use crate::rest::{Arcs, least_total};
use crate::trip::Trip;
use dominance::LabelValue;
use label_pool::Pool;
use piece_fn::PieceFn;
use route_steps::{Place, State, values_at};
use std::alloc::{AllocError, Global};

impl<'a> Trip<'a> {
    /// A pool with the label of the start, and for each bucket by when a full battery was had
    /// there.
    pub(crate) fn begin(&self, alloc: Global) -> Result<(Pool<State>, Vec<Option<u64>>), AllocError>
        ensures pool { IfOk result (λ found. IsSoundPool self.now found.0) }
        ensures full { IfOk result (λ found. AreFull self.now found.0.labels found.1.items) }
        ensures charged { IfOk result (λ found. AreCharged self.now found.0.labels) }
        ensures spread { IfOk result (λ found. (bar : Option ℕ) →
            IsSpread self.now found.0.labels bar (begin self.now.start)) }
    {
        let buckets = self.buckets();
        let mut pool = Pool::new(alloc, buckets)?;
        let mut full = none_yet(alloc, buckets)?;
        let start = State {
            passed: 0,
            node: 0,
            charged: false,
            value: PieceFn::point(alloc, self.start, 0),
        };
        self.add_noted(&mut pool, full.as_mut_slice(), None, start)?;
        Ok((pool, full))
    }

    /// The first label at the route's end that is taken, `None` where none is left that promises a
    /// way home within the limit, below the bar.
    pub(crate) fn first_home(
        &self,
        alloc: Global,
        pool: &mut Pool<State>,
        full: &mut [Option<u64>],
        bar: u128,
    ) -> Result<Option<usize>, AllocError>
        requires pool { IsSoundPool self.now pool.old }
        requires full { AreFull self.now pool.old.labels full.old }
        requires charged { AreCharged self.now pool.old.labels }
        requires spread { IsSpread self.now pool.old.labels (Some bar) (begin self.now.start) }
        ensures pool { OnOk result (IsSoundPool self.now pool.new) }
        ensures full { OnOk result (AreFull self.now pool.new.labels full.new) }
        ensures home { IfOk result (IsHomeOrNone self.now pool.new.labels bar) }
    {
        while let Some(i) = self.take_in_time(pool, bar) {
            if pool.value(i).passed == self.end() {
                return Ok(Some(i));
            }
            self.spread(alloc, pool, full, i, Some(bar))?;
        }
        Ok(None)
    }

    /// Takes the next label, `None` where none is left or no way home is within the limit and below
    /// the bar.
    fn take_in_time(&self, pool: &mut Pool<State>, bar: u128) -> Option<usize>
        requires pool { IsSoundPool self.now pool.old }
        requires spread { IsSpread self.now pool.old.labels (Some bar) (begin self.now.start) }
        ensures none { IsNone result → IsBelowHomes self.now bar }
        ensures next { IfSome result (λ i. IsTaken pool.old pool.new i) }
        ensures below { IfSome result (λ i. (label : Label State) →
            slice_get pool.old.labels i ≡ Some label → label.key < bar) }
        ensures unchanged { IsNone result → pool.new ≡ pool.old }
        ensures small { IfSome result (λ _. length pool.new.labels < 2 ^ 63) }
    {
        let Some(key) = pool.next_key() else {
            return None;
        };
        if self.scaled_limit() < key {
            return None;
        }
        if bar <= u128::from(key) {
            return None;
        }
        pool.take_next()
    }

    /// Adds the labels that one step from a label leads to, but those at stations from where no way
    /// home is below the bar, if there is one.
    pub(crate) fn spread(
        &self,
        alloc: Global,
        pool: &mut Pool<State>,
        full: &mut [Option<u64>],
        i: usize,
        bar: Option<u128>,
    ) -> Result<(), AllocError>
        requires pool { IsSoundPool self.now pool.old }
        requires full { AreFull self.now pool.old.labels full.old }
        requires charged { AreCharged self.now pool.old.labels }
        requires from { i < length pool.old.labels }
        requires on_way { (label : Label State) → slice_get pool.old.labels i ≡ Some label →
            label.value.passed + 1 < length self.now.route }
        ensures pool { OnOk result (IsSoundPool self.now pool.new) }
        ensures full { OnOk result (AreFull self.now pool.new.labels full.new) }
        ensures charged { OnOk result (AreCharged self.now pool.new.labels) }
        ensures grown { OnOk result (IsGrown pool.old.labels pool.new.labels) }
        ensures spreads { OnOk result ((label : Label State) →
            slice_get pool.old.labels i ≡ Some label →
            Spreads self.now pool.new.labels bar label.value) }
    {
        let passed = pool.value(i).passed;
        self.go(alloc, pool, full, i, passed + 1, self.node_at(passed + 1))?;
        self.go_to_stations(alloc, pool, full, i, passed, bar)
    }

    /// Adds the labels at the stations that a step from a label leads to, `passed` being its own,
    /// but those from where no way home is below the bar.
    fn go_to_stations(
        &self,
        alloc: Global,
        pool: &mut Pool<State>,
        full: &mut [Option<u64>],
        i: usize,
        passed: usize,
        bar: Option<u128>,
    ) -> Result<(), AllocError>
        requires pool { IsSoundPool self.now pool.old }
        requires full { AreFull self.now pool.old.labels full.old }
        requires charged { AreCharged self.now pool.old.labels }
        requires from { i < length pool.old.labels }
        requires on_way { (label : Label State) → slice_get pool.old.labels i ≡ Some label →
            (passed ≡ label.value.passed) × (passed + 1 < length self.now.route) }
        ensures pool { OnOk result (IsSoundPool self.now pool.new) }
        ensures full { OnOk result (AreFull self.now pool.new.labels full.new) }
        ensures charged { OnOk result (AreCharged self.now pool.new.labels) }
        ensures grown { OnOk result (IsGrown pool.old.labels pool.new.labels) }
        ensures spreads { OnOk result ((label : Label State) →
            slice_get pool.old.labels i ≡ Some label →
            SpreadsToStations self.now pool.new.labels bar label.value) }
    {
        for station in self.stations {
            self.go_to_station(alloc, pool, full, i, passed, *station, bar)?;
        }
        Ok(())
    }

    /// Adds the labels at one station that a step from a label leads to, but where no way home from
    /// there is below the bar.
    fn go_to_station(
        &self,
        alloc: Global,
        pool: &mut Pool<State>,
        full: &mut [Option<u64>],
        i: usize,
        passed: usize,
        to: usize,
        bar: Option<u128>,
    ) -> Result<(), AllocError>
        requires pool { IsSoundPool self.now pool.old }
        requires full { AreFull self.now pool.old.labels full.old }
        requires charged { AreCharged self.now pool.old.labels }
        requires from { i < length pool.old.labels }
        requires next { (label : Label State) → slice_get pool.old.labels i ≡ Some label →
            MayGo self.now.network self.now.route label.value.passed passed to }
        ensures pool { OnOk result (IsSoundPool self.now pool.new) }
        ensures full { OnOk result (AreFull self.now pool.new.labels full.new) }
        ensures charged { OnOk result (AreCharged self.now pool.new.labels) }
        ensures grown { OnOk result (IsGrown pool.old.labels pool.new.labels) }
        ensures spreads { OnOk result ((label : Label State) →
            slice_get pool.old.labels i ≡ Some label →
            SpreadsInTimeTo self.now pool.new.labels bar label.value passed to) }
    {
        if self.is_late_over(pool.value(i), passed, to, bar) {
            return Ok(());
        }
        self.go(alloc, pool, full, i, passed, to)
    }

    /// Whether no way home of a vehicle of a state over a station is below the bar: by its arc
    /// there, and the bound on the rest.
    fn is_late_over(&self, from: &State, passed: usize, to: usize, bar: Option<u128>) -> bool
        requires from { IsSoundState self.now.network self.now.route from.now }
        requires next { MayGo self.now.network self.now.route from.now.passed passed to }
        requires few { length self.now.route * node_count self.now.network < 2 ^ 64 }
        ensures { IsTrue result → IsLateTo self.now bar from.now passed to }
    {
        let Some(bar) = bar else {
            return false;
        };
        let rest = self.rest.least[self.bucket(passed, to)];
        let arcs = Arcs {
            inst: self.inst,
            stations: self.stations,
            rate: self.rest.rate,
        };
        let on = arcs.cost(from.node, to).saturating_add(rest);
        bar <= u128::from(least_total(from.value.points(), on, self.rest.rate))
    }

    /// Adds the labels at one node that a step from a label leads to.
    fn go(
        &self,
        alloc: Global,
        pool: &mut Pool<State>,
        full: &mut [Option<u64>],
        i: usize,
        passed: usize,
        to: usize,
    ) -> Result<(), AllocError>
        requires pool { IsSoundPool self.now pool.old }
        requires full { AreFull self.now pool.old.labels full.old }
        requires charged { AreCharged self.now pool.old.labels }
        requires from { i < length pool.old.labels }
        requires next { (label : Label State) → slice_get pool.old.labels i ≡ Some label →
            MayGo self.now.network self.now.route label.value.passed passed to }
        ensures pool { OnOk result (IsSoundPool self.now pool.new) }
        ensures full { OnOk result (AreFull self.now pool.new.labels full.new) }
        ensures charged { OnOk result (AreCharged self.now pool.new.labels) }
        ensures grown { OnOk result (IsGrown pool.old.labels pool.new.labels) }
        ensures spreads { OnOk result ((label : Label State) →
            slice_get pool.old.labels i ≡ Some label →
            SpreadsTo self.now pool.new.labels label.value passed to) }
    {
        let from = pool.value(i);
        if from.node == to {
            return Ok(());
        }
        if self.is_full_by(full, from, passed, to) {
            return Ok(());
        }
        if self.were_there(pool, from, passed, to)? {
            return Ok(());
        }
        let start = Place {
            passed: from.passed,
            node: from.node,
        };
        let end = Place { passed, node: to };
        let values = values_at(alloc, self.inst, self.route, &from.value, start, end)?;
        self.add_all(pool, full, i, passed, to, values)
    }

    /// Adds the labels of the values at a node: the first is passed through with, the others are
    /// charged.
    fn add_all(
        &self,
        pool: &mut Pool<State>,
        full: &mut [Option<u64>],
        i: usize,
        passed: usize,
        to: usize,
        mut values: Vec<PieceFn>,
    ) -> Result<(), AllocError>
        requires pool { IsSoundPool self.now pool.old }
        requires full { AreFull self.now pool.old.labels full.old }
        requires charged { AreCharged self.now pool.old.labels }
        requires from { i < length pool.old.labels }
        requires steps { (label : Label State) → slice_get pool.old.labels i ≡ Some label →
            AreSteps self.now.network self.now.route label.value passed to values.items }
        requires covers { (label : Label State) → slice_get pool.old.labels i ≡ Some label →
            CoverStops self.now.network self.now.route label.value passed to values.items }
        ensures pool { OnOk result (IsSoundPool self.now pool.new) }
        ensures full { OnOk result (AreFull self.now pool.new.labels full.new) }
        ensures charged { OnOk result (AreCharged self.now pool.new.labels) }
        ensures grown { OnOk result (IsGrown pool.old.labels pool.new.labels) }
        ensures reached { OnOk result (AreReached pool.new.labels passed to values.items) }
    {
        while let Some(value) = values.pop() {
            let state = State {
                passed,
                node: to,
                charged: !values.is_empty(),
                value,
            };
            self.add_noted(pool, full, Some(i), state)?;
        }
        Ok(())
    }

    /// Adds a label, where no live one covers it.
    pub(crate) fn add(
        &self,
        pool: &mut Pool<State>,
        parent: Option<usize>,
        state: State,
    ) -> Result<(), AllocError>
        requires pool { IsSoundPool self.now pool.old }
        requires state { IsSoundState self.now.network self.now.route state }
        requires origin { HasOrigin self.now pool.old.labels parent state }
        ensures pool { OnOk result (IsSoundPool self.now pool.new) }
        ensures grown { OnOk result (IsGrown pool.old.labels pool.new.labels) }
        ensures reached { OnOk result ((v : Leaving) → Holds state v →
            Reached pool.new.labels v) }
        ensures only { OnOk result (OnlyAdds pool.old.labels pool.new.labels state) }
    {
        let key = self.key(&state);
        let bucket = self.bucket(state.passed, state.node);
        pool.add(bucket, state, key, parent)?;
        Ok(())
    }

    /// A time that no way home of a vehicle of the state is below: at the route's end the least
    /// time.
    pub(crate) fn key(&self, state: &State) -> u64
        requires state { IsSoundState self.now.network self.now.route state.now }
        requires few { length self.now.route * node_count self.now.network < 2 ^ 64 }
        ensures below { IsBelowWays self.now state.now result }
        ensures home { state.now.passed ≡ length self.now.route - 1 →
            result ≡ time_at (level_times state.now.value) (level_times state.now.value).first }
        ensures valid { IsValue (level_times state.now.value) }
    {
        let (_, least) = state.value.least();
        if state.passed == self.end() {
            return least;
        }
        let rest = self.rest.least[self.bucket(state.passed, state.node)];
        least.max(least_total(state.value.points(), rest, self.rest.rate))
    }
}
