//! Whether a vehicle was at a place before it arrives there: then whatever it may charge there was
//! had as well.

ghost use Rattle.std.specs.Prelude.{ℕ, ◌≡◌, ◌+◌, ◌*◌, ◌<◌, ◌^◌, ◌≤◌, IfOk, IsTrue, length};
ghost use Rattle.charge_curve.specs.Points.{ArePoints, last_level};
ghost use Rattle.dominance.specs.Coverage.{Reaches};
ghost use Rattle.dominance.specs.LevelTimes.{IsLevel, time_at};
ghost use Rattle.ev_model.specs.Network.{node_count};
ghost use Rattle.frvcp_labels.specs.Charged.{AreThere, WereThere};
ghost use Rattle.frvcp_labels.specs.Search.{IsSoundPool, Reached};
ghost use Rattle.frvcp_labels.specs.declared.there.Sight.{Sight};
ghost use Rattle.piece_fn.specs.PieceFn.{level_times};
ghost use Rattle.route_steps.specs.Steps.{Holds, IsSoundState, MayGo, state_at};
ghost use Rattle.route_steps.specs.Ways.{Leaving};

use crate::trip::Trip;
use dominance::{Covers, LabelValue};
use label_pool::Pool;
use label_steps::arrival;
use piece_fn::PieceFn;
use route_steps::State;
use std::alloc::AllocError;

/// What labels tell of a level at a time.
#[derive(Clone, Copy)]
enum Sight {
    /// One has a level at least as high, no later.
    Reached,
    /// One has a level at least as high, but later than some lower level that it has in time.
    Later,
    /// None has both a level at least as high and one in time.
    Nowhere,
}

impl<'a> Trip<'a> {
    /// Whether each vehicle of a state that may drive to a node was there before it arrives, with a
    /// level at least as high. Of the depot nothing is told.
    ///
    /// The value on arriving is made only where the highest level at the least time doesn't decide.
    pub(crate) fn were_there(
        &self,
        pool: &Pool<State>,
        from: &State,
        passed: usize,
        to: usize,
    ) -> Result<bool, AllocError>
        requires pool { IsSoundPool self.now pool.now }
        requires from { IsSoundState self.now.network self.now.route from.now }
        requires next { MayGo self.now.network self.now.route from.now.passed passed to }
        ensures { IfOk result (λ were. IsTrue were →
            WereThere self.now pool.now.labels from.now passed to) }
    {
        if to == 0 {
            return Ok(false);
        }
        match self.highest_sight(pool, from, passed, to) {
            Sight::Reached => return Ok(true),
            Sight::Nowhere => return Ok(false),
            Sight::Later => {}
        }
        match arrival(self.inst, &from.value, from.node, to, self.inst.min_q())? {
            Some(arrived) => Ok(self.is_covered(pool, passed, to, &arrived)),
            None => Ok(true),
        }
    }

    /// What is told of the highest level of a state at the least time with which one arrives.
    fn highest_sight(&self, pool: &Pool<State>, from: &State, passed: usize, to: usize) -> Sight
        requires pool { IsSoundPool self.now pool.now }
        requires from { IsSoundState self.now.network self.now.route from.now }
        requires next { MayGo self.now.network self.now.route from.now.passed passed to }
        ensures { result ≡ Sight.Reached → AreThere self.now pool.now.labels from.now passed to }
    {
        let top = highest(from.value.points());
        let energy = self.energy(from.node, to);
        if top < energy {
            return Sight::Reached;
        }
        let lowest = energy.saturating_add(self.inst.min_q());
        let least = least_from(&from.value, lowest);
        let time = least.saturating_add(self.drive_time(from.node, to));
        self.sight(pool, passed, to, top - energy, time)
    }

    /// What the live labels at a place tell of a level at a time.
    fn sight(&self, pool: &Pool<State>, passed: usize, node: usize, level: u64, time: u64) -> Sight
        requires pool { IsSoundPool self.now pool.now }
        requires passed { passed < length self.now.route }
        requires node { node < node_count self.now.network }
        ensures { result ≡ Sight.Reached → Reached pool.now.labels
            (record { passed = passed; node = node; level = level; time = time }) }
    {
        let mut is_later = false;
        let mut at = pool.first_live(self.bucket(passed, node));
        while let Some(i) = at {
            match sight_of(&pool.value(i).value, level, time) {
                Sight::Reached => return Sight::Reached,
                Sight::Later => is_later = true,
                Sight::Nowhere => {}
            }
            at = pool.next_live(i);
        }
        if is_later {
            Sight::Later
        } else {
            Sight::Nowhere
        }
    }

    /// Whether one live label at a place covers a value.
    fn is_covered(&self, pool: &Pool<State>, passed: usize, node: usize, value: &PieceFn) -> bool
        requires pool { IsSoundPool self.now pool.now }
        requires passed { passed < length self.now.route }
        requires node { node < node_count self.now.network }
        ensures { IsTrue result → (v : Leaving) → Holds (state_at passed node 0 value.now) v →
            Reached pool.now.labels v }
    {
        let mut at = pool.first_live(self.bucket(passed, node));
        while let Some(i) = at {
            if pool.value(i).value.covers_whole(value) {
                return true;
            }
            at = pool.next_live(i);
        }
        false
    }
}

/// What a value tells of a level at a time.
fn sight_of(value: &PieceFn, level: u64, time: u64) -> Sight
    ensures { result ≡ Sight.Reached → Reaches (level_times value.now) 0 level time }
{
    let (first, least) = value.least();
    if time < least {
        return Sight::Nowhere;
    }
    if level <= first {
        return Sight::Reached;
    }
    match value.at(level) {
        None => Sight::Nowhere,
        Some(at) => if at <= time {
            Sight::Reached
        } else {
            Sight::Later
        },
    }
}

/// The time of a value at a level, or its least time where that is no level of it: no higher level
/// has less.
fn least_from(value: &PieceFn, level: u64) -> u64
    ensures { (high : ℕ) → IsLevel (level_times value.now) high → level ≤ high →
        result ≤ time_at (level_times value.now) high }
{
    let (_, least) = value.least();
    let found = value.at(level);
    match found {
        Some(time) => time,
        None => least,
    }
}

/// The highest level.
fn highest(points: &[(u64, u64)]) -> u64
    requires { ArePoints points.now }
    ensures { result ≡ last_level points.now }
{
    points[points.len() - 1].0
}
