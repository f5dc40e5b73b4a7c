//! Cycles of turns, each of which ruins the routes, recreates them, and goes on from them or not.

use crate::acceptance::{Annealing, STAGES};
use crate::effort::{Effort, RecreateProgress, RecreateWatcher};
use crate::fleet::Fleet;
use crate::insertion::Sequence;
use crate::search::RuinSearch;
use crate::seen::Seen;
use crate::toll::Toll;
use std::alloc::{AllocError, Global};

/// Who watches is asked every so many turns.
const TURNS_A_LOOK: u64 = 64;

/// And whenever so much work was done: with long routes a turn takes long.
const WORK_A_LOOK: u64 = 1_000_000;

/// The best routes that were found, and what a search hands on.
#[derive(Drop)]
pub(crate) struct Best {
    pub(crate) orders: Vec<Vec<usize>>,
    /// What they cost, where there are some.
    pub(crate) cost: Option<u64>,
    pub(crate) seen: Seen,
}

impl Best {
    /// No routes.
    fn new(alloc: Global) -> Best {
        Best {
            orders: Vec::new(alloc),
            cost: None,
            seen: Seen::new(alloc),
        }
    }
}

impl RuinSearch {
    /// Looks for cheaper routes with so much effort, from these orders or from none.
    pub(crate) fn run<W: RecreateWatcher>(
        &mut self,
        alloc: Global,
        from: &[Vec<usize>],
        effort: Effort,
        watcher: &mut W,
    ) -> Result<Best, AllocError> {
        let mut best = Best::new(alloc);
        self.begin_with(alloc, from)?;
        self.note(alloc, &mut best)?;
        let mut annealing = Annealing::new(self.fleet.cost(), self.costs.ground.customers);
        self.toll = Toll::soft(self.costs.ground.limit);
        for cycle in 0..effort.cycles {
            if cycle > 0 {
                self.begin_again(alloc)?;
                annealing.heat();
            }
            if !self.turns(
                alloc,
                effort.work / effort.cycles.max(1),
                &mut annealing,
                &mut best,
                watcher,
            )? {
                break;
            }
        }
        Ok(best)
    }

    /// Begins with orders, and puts in who isn't served by them: the farthest first.
    fn begin_with(&mut self, alloc: Global, from: &[Vec<usize>]) -> Result<(), AllocError> {
        for order in from {
            if let Some(time) = self.costs.time_below(order, self.toll.end())? {
                self.fleet
                    .add_tour(alloc, &self.costs.ground, &self.toll, order, time)?;
            }
        }
        self.gone.clear();
        self.fleet.add_unserved(&mut self.gone)?;
        self.recreate(alloc, Sequence::FarthestFirst)?;
        self.fleet.begin_turn();
        Ok(())
    }

    /// Begins again, with routes in a sequence by chance.
    fn begin_again(&mut self, alloc: Global) -> Result<(), AllocError> {
        self.toll = Toll::soft(self.costs.ground.limit);
        self.fleet = Fleet::new(alloc, self.costs.ground.customers)?;
        self.gone.clear();
        self.fleet.add_unserved(&mut self.gone)?;
        self.recreate(alloc, Sequence::Random)?;
        self.fleet.begin_turn();
        Ok(())
    }

    /// Makes turns until so much work was done. Whether the search goes on.
    fn turns<W: RecreateWatcher>(
        &mut self,
        alloc: Global,
        work: u64,
        annealing: &mut Annealing,
        best: &mut Best,
        watcher: &mut W,
    ) -> Result<bool, AllocError> {
        let start = self.work();
        let stage = (work / STAGES).max(1);
        let mut next_look: u64 = 0;
        for turn in 0..work {
            let done = self.work().wrapping_sub(start);
            if done >= work {
                break;
            }
            annealing.cool_to((done / stage).min(STAGES));
            if turn % TURNS_A_LOOK == 0 || done >= next_look {
                next_look = done.saturating_add(WORK_A_LOOK);
                if !watcher.goes_on(RecreateProgress { cost: best.cost }) {
                    return Ok(false);
                }
            }
            let is_warm = done < work / 4;
            self.turn(alloc, annealing, best, is_warm)?;
        }
        Ok(true)
    }

    /// Ruins the routes and recreates them, and undoes that unless it is gone on from.
    fn turn(
        &mut self,
        alloc: Global,
        annealing: &Annealing,
        best: &mut Best,
        is_warm: bool,
    ) -> Result<(), AllocError> {
        let is_within = self.fleet.is_within(&self.toll);
        if self.toll.count(is_within) {
            self.fleet.pay_anew(&self.toll);
        }
        self.fleet.begin_turn();
        self.places = self.places.wrapping_add(1);
        let before = self.fleet.cost();
        let is_sound = self.ruin(alloc)?;
        if is_sound {
            let sequence = self.draw_sequence();
            self.recreate(alloc, sequence)?;
        }
        let slack = annealing.slack((self.chance.word() >> 24) as usize);
        if is_sound && self.fleet.cost() < before.wrapping_add(slack) {
            if !is_warm {
                self.hand_on(alloc, best)?;
            }
            self.note(alloc, best)
        } else {
            self.fleet.undo(&self.gone);
            Ok(())
        }
    }

    /// Notes the routes where they are the best ones.
    fn note(&mut self, alloc: Global, best: &mut Best) -> Result<(), AllocError> {
        let cost = self.fleet.cost();
        let is_better = match best.cost {
            Some(least) => cost < least,
            None => true,
        };
        if is_better && self.is_plan() {
            best.orders = self.fleet.orders(alloc)?;
            best.cost = Some(cost);
        }
        Ok(())
    }

    /// Hands on the routes that were changed in this turn, where they are within the limit.
    fn hand_on(&mut self, alloc: Global, best: &mut Best) -> Result<(), AllocError> {
        for number in self.fleet.touched(alloc)? {
            if let Some(tour) = self.fleet.tour(number) {
                if !tour.order.is_empty() && self.toll.is_within(tour.time) {
                    best.seen.add(alloc, &tour.order, tour.time)?;
                }
            }
        }
        Ok(())
    }
}
