//! The plan that goes home the nearest way.

ghost use Rattle.std.specs.Prelude.{◌≡◌, ◌^◌, ◌<◌, ◌≤◌, ◌⊎◌, length, IfOk, IfSome, IsSome, MatchOption, OnOk};
ghost use Rattle.ev_model.specs.Feasible.{IsFeasible};
ghost use Rattle.ev_model.specs.Route.{FollowsRoute};
ghost use Rattle.ev_model.specs.Time.{time_of};
ghost use Rattle.level_table.specs.Answer.{HasNoWholePlan, IsFastestWhole};
ghost use Rattle.level_table.specs.Table.{entry_at, IsTable};
ghost use Rattle.level_table.specs.Places.{index_of, IsHome, IsPlace};
ghost use Rattle.level_table.specs.Walk.{start_place, stop_after, stops_after};

use crate::moves::Move;
use crate::offers::Offer;
use crate::place::Place;
use crate::reach::Reach;
use crate::trip::Trip;
use ev_model::Stop;
use std::alloc::{AllocError, Global};

impl<'a> Trip<'a> {
    /// The stops of a fastest whole plan of the route from a level, `None` exactly where no whole
    /// plan is feasible.
    pub(crate) fn fastest(&self, alloc: Global, start: u64) -> Result<Option<Vec<Stop>>, AllocError>
        requires level { start ≤ self.now.network.capacity }
        ensures { IfOk result (λ answer. MatchOption answer
            (HasNoWholePlan self.now.network self.now.route start)
            (λ v. IsFastestWhole self.now.network self.now.route start v.items)) }
    {
        let entries = self.filled_table(alloc)?;
        let place = Place {
            passed: 0,
            slot: 0,
            level: start,
            plugged: false,
        };
        if entries[self.index_of(place)].is_none() {
            return Ok(None);
        }
        let stops = self.walk(alloc, &entries, place)?;
        Ok(Some(stops))
    }

    /// The stops of the plan that makes the best move from each place, from the start on.
    fn walk(
        &self,
        alloc: Global,
        entries: &[Option<Reach>],
        start: Place,
    ) -> Result<Vec<Stop>, AllocError>
        requires start { start ≡ start_place start.level }
        requires level { start.level ≤ self.now.network.capacity }
        requires table { IsTable self.now.network self.now.route entries.now }
        requires reached { IsSome (entry_at entries.now (index_of self.now.network start)) }
        ensures feasible { IfOk result (λ v. IsFeasible self.now.network 1 start.level v.items) }
        ensures follows { IfOk result (λ v. FollowsRoute self.now.route v.items) }
        ensures time { IfOk result (λ v. IfSome
            (entry_at entries.now (index_of self.now.network start))
            (λ r. time_of self.now.network 1 start.level v.items ≤ r.time)) }
    {
        let mut stops = Vec::new(alloc);
        let mut place = start;
        let mut stop = Stop {
            node: 0,
            added: 0,
            via: false,
        };
        while place.passed < self.arcs() {
            let offer = self.best(entries, place).unwrap();
            stop = self.go_on(offer, stop, &mut stops)?;
            place = offer.to;
        }
        stops.push(stop)?;
        Ok(stops)
    }

    /// The stop after a move. The stop before is put to the stops where the vehicle leaves it.
    fn go_on(&self, offer: Offer, stop: Stop, stops: &mut Vec<Stop>) -> Result<Stop, AllocError>
        requires place { IsPlace self.now.network self.now.route offer.to
            ⊎ IsHome self.now.network self.now.route offer.to }
        requires ends { 2 ≤ length self.now.route }
        requires added { stop.added ≤ 10 ^ 9 }
        ensures stop { IfOk result (λ next. next
            ≡ stop_after self.now.network self.now.route offer.step offer.to stop) }
        ensures stops { OnOk result
            (stops.new.items ≡ stops_after offer.step stop stops.old.items) }
    {
        match offer.step {
            Move::Charge => Ok(Stop {
                added: stop.added + 1,
                ..stop
            }),
            Move::Unplug => Ok(stop),
            Move::Drive { .. } => {
                stops.push(stop)?;
                Ok(Stop {
                    node: self.node_at(offer.to.passed, offer.to.slot),
                    added: 0,
                    via: offer.to.slot > 0,
                })
            }
        }
    }
}
