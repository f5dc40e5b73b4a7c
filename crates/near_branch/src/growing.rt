//! A tree grows, best bound first. No clause rests on this.

use crate::candidates::family;
use crate::clock::{BranchClock, Early, milliseconds_left};
use crate::growth::{Growth, Held, ListPace, copies, weight_for};
use crate::node::{Node, Standing};
use crate::question::{BranchQuestion, Branched};
use crate::watcher::BranchWatcher;
use instance_reader::Instance;
use near_completion::{Ground, nearest_sets};
use near_lists::ListPlan;
use near_prices::KnownRoute;
use std::alloc::{AllocError, Global};

/// So many others stand in a near set at first.
const NEAR: usize = 3;

/// The clock may be asked so many times as often at a node as at the root.
const PATIENCE: u64 = 5;

/// So often at the least.
const LEAST_LOOKS: u64 = 20_000;

/// Grows a tree over near routes, until its bound is the cost of the plan that is held, so many
/// nodes are priced, or the time is up but for the lists of the leaves. The only `Err` is want of
/// memory.
pub fn branch<C: BranchClock, W: BranchWatcher>(
    alloc: Global,
    inst: &Instance,
    ground: &Ground,
    question: BranchQuestion,
    clock: &mut C,
    watcher: &mut W,
) -> Result<Branched, AllocError> {
    let most = question.nodes;
    let mut growth = begun(alloc, inst, ground, question)?;
    growth.plant(alloc, clock, watcher)?;
    for _ in 0..most {
        if !growth.grow(alloc, most, clock, watcher)? {
            break;
        }
    }
    growth.end(alloc, clock)
}

/// A tree of which nothing has grown yet.
fn begun<'a>(
    alloc: Global,
    inst: &'a Instance,
    ground: &'a Ground,
    question: BranchQuestion,
) -> Result<Growth<'a>, AllocError> {
    let BranchQuestion {
        plan,
        cost,
        seen,
        near,
        nodes: _,
    } = question;
    let mut sets = nearest_sets(alloc, ground, NEAR)?;
    for (own, told) in sets.iter_mut().zip(&near) {
        *own = *told;
    }
    Ok(Growth {
        inst,
        ground,
        weight: weight_for(inst, ground, cost),
        nodes: Vec::new(alloc),
        pool: all_of(alloc, &plan, seen)?,
        near: sets,
        family: family(alloc, ground)?,
        held: Held { cost, found: None },
        priced: 0,
        pace: ListPace::guessed(ground.customers()),
        patience: u64::MAX,
    })
}

/// Routes of both kinds.
fn all_of(
    alloc: Global,
    plan: &[KnownRoute],
    seen: Vec<KnownRoute>,
) -> Result<Vec<KnownRoute>, AllocError> {
    let mut all = copies(alloc, plan)?;
    for route in seen {
        all.push(route)?;
    }
    Ok(all)
}

impl<'a> Growth<'a> {
    /// Prices the root.
    fn plant<C: BranchClock, W: BranchWatcher>(
        &mut self,
        alloc: Global,
        clock: &mut C,
        watcher: &mut W,
    ) -> Result<(), AllocError> {
        let mut early = Early {
            milliseconds: self.pace.kept_for(1),
            looks: u64::MAX,
            clock,
        };
        let prices = self.price(alloc, &[], None, &mut early, watcher)?;
        let looks = u64::MAX.saturating_sub(early.looks);
        self.patience = looks.saturating_mul(PATIENCE).max(LEAST_LOOKS);
        self.nodes.push(Node {
            above: None,
            standing: Standing::Open,
            prices,
            listing: None,
        })?;
        watcher.watch_branch(self.progress());
        Ok(())
    }

    /// Splits the leaf that is worth least, and makes lists for the nodes below it that are closed.
    /// Whether more may come of it.
    fn grow<C: BranchClock, W: BranchWatcher>(
        &mut self,
        alloc: Global,
        most: u64,
        clock: &mut C,
        watcher: &mut W,
    ) -> Result<bool, AllocError> {
        let milliseconds = self.pace.kept_for(self.open().saturating_add(2));
        let is_done = self.priced.saturating_add(2) > most || clock.is_up_in(milliseconds);
        let Some(place) = self.lowest().filter(|_| !is_done) else {
            return Ok(false);
        };
        if self.is_stuck(place) {
            return Ok(false);
        }
        let first = self.nodes.len();
        let mut early = Early {
            milliseconds,
            looks: 0,
            clock,
        };
        let is_split = self.split(alloc, place, &mut early, watcher)?;
        if is_split {
            self.list_closed(alloc, first, clock)?;
        }
        Ok(true)
    }

    /// Whether nothing is known to split a node on.
    fn is_stuck(&self, place: usize) -> bool {
        match self.nodes.get(place) {
            Some(node) => node.standing == Standing::Stuck,
            None => true,
        }
    }

    /// Makes lists for the leaves from a place on that are closed.
    fn list_closed<C: BranchClock>(
        &mut self,
        alloc: Global,
        first: usize,
        clock: &mut C,
    ) -> Result<(), AllocError> {
        for place in first..self.nodes.len() {
            let is_closed = match self.nodes.get(place) {
                Some(node) => node.prices.worth().reaches(self.held.cost),
                None => false,
            };
            if is_closed {
                self.list_in_time(alloc, place, clock)?;
            }
        }
        Ok(())
    }

    /// Makes the list of a leaf that is closed, and reckons with the time that it takes.
    fn list_in_time<C: BranchClock>(
        &mut self,
        alloc: Global,
        place: usize,
        clock: &mut C,
    ) -> Result<(), AllocError> {
        let before = milliseconds_left(clock);
        let target = self.held.cost.unwrap_or(u128::MAX);
        let _is_made = self.list(alloc, place, target, &ListPlan::careful())?;
        if let (Some(before), Some(after)) = (before, milliseconds_left(clock)) {
            self.pace.count(before.saturating_sub(after));
        }
        Ok(())
    }

    /// What was found.
    fn end<C: BranchClock>(mut self, alloc: Global, clock: &mut C) -> Result<Branched, AllocError> {
        let plan = if clock.is_up_in(self.pace.kept_for(self.open())) {
            ListPlan::quick()
        } else {
            ListPlan::careful()
        };
        let proof = self.proof(alloc, &plan)?;
        Ok(Branched {
            proof,
            plan: self.held.found.take(),
            nodes: self.priced,
        })
    }
}
