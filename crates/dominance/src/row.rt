//! Values as plain vectors of times.

ghost use Rattle.std.specs.Prelude.{◌≡◌, ◌↔◌, ◌+◌, ◌-◌, ◌<◌, ◌≤◌, ◌^◌, ℕ, length, IfOk, IsTrue};
ghost use Rattle.std.specs.List.Sorted.{IsNonDecreasing};
ghost use Rattle.charge_curve.specs.Points.{last_level, time_on};
ghost use Rattle.dominance.specs.LevelTimes.{IsLevel, IsValue, time_at};
ghost use Rattle.dominance.specs.Coverage.{Reaches};
ghost use Rattle.dominance.specs.Steps.{IsChargeFrom};
ghost use Rattle.dominance.specs.Later.{AreLater};

use crate::value::{Covers, LabelValue};
use charge_curve::Scaled;
use std::alloc::{AllocError, Global};
use std::marker::Model;

/// A value that keeps the time of every level. It is the plain yardstick for values that keep
/// fewer.
///
/// Contracts see the first level and the times, one for each level from there.
#[derive(Drop)]
pub struct Row {
    first: u64,
    times: Vec<u64>,
}

impl Model for Row {
    ghost use Rattle.dominance.specs.LevelTimes.{LevelTimes, IsValue};

    ghost Value = { LevelTimes };

    ghost view = { λ r. record { first = r.first; times = r.times.items } };

    ghost invariant = { λ r. IsValue (record { first = r.first; times = r.times.items }) };
}

impl Row {
    /// The value with a first level and a time for each level from there.
    pub fn from_times(alloc: Global, first: u64, times: &[u64]) -> Result<Row, AllocError>
        requires some { 0 < length times.now }
        requires rising { IsNonDecreasing times.now }
        ensures { IfOk result (λ row. row ≡ record { first = first; times = times.now }) }
    {
        let times = Vec::from_slice(alloc, times)?;
        Ok(Row { first, times })
    }

    /// The times, one for each level from the first. It takes no memory.
    pub fn times(&self) -> &[u64]
        ensures value { result.now ≡ self.now.times }
        ensures valid { IsValue self.now }
    {
        self.times.as_slice()
    }

    /// Whether some level at least as high has a time that is no later, after `extra`.
    fn reaches(&self, extra: u64, level: u128, time: u64) -> bool
        ensures { IsTrue result ↔ Reaches self.now extra level time }
    {
        let index = level.saturating_sub(u128::from(self.first));
        if index >= self.times.len() as u128 {
            return false;
        }
        u128::from(self.times[index as usize]) + u128::from(extra) <= u128::from(time)
    }
}

impl Covers for Row {
    ghost use Rattle.dominance.specs.Coverage.{does_cover};
    ghost use Rattle.dominance.specs.Laws.{dominates_itself, dominates_on};

    ghost dominates = { λ x y. does_cover x y 0 };

    ghost reflexive = { dominates_itself };

    ghost transitive = { dominates_on };

    fn covers_whole(&self, other: &Row) -> bool {
        self.covers(other, 0)
    }
}

impl LabelValue for Row {
    ghost use Rattle.dominance.specs.Laws.{adds_extras, covers_exactly, covers_itself};

    ghost meaning = { λ r. r };

    ghost whole = { λ x y. covers_exactly x y 0 };

    ghost covers_itself = { covers_itself };

    ghost adds_extras = { adds_extras };

    fn covers(&self, other: &Row, extra: u64) -> bool {
        for (index, time) in other.times.iter().enumerate() {
            let level = u128::from(other.first) + index as u128;
            if !self.reaches(extra, level, *time) {
                return false;
            }
        }
        true
    }

    fn shift(&self, energy: u64, time: u64, limit: u64) -> Result<Option<Row>, AllocError> {
        let skipped = energy.saturating_sub(self.first);
        let times = self.later(skipped, time, limit)?;
        if times.is_empty() {
            return Ok(None);
        }
        let first = self.first.saturating_sub(energy);
        Ok(Some(Row { first, times }))
    }

    fn charge(&self, curve: &Scaled, limit: u64) -> Result<Vec<Row>, AllocError> {
        let full = full_level(curve);
        let mut rows = Vec::new(*self.times.allocator());
        for index in 0..self.times.len() {
            let row = self.charge_from(index, curve, full, limit)?;
            rows.push(row)?;
        }
        Ok(rows)
    }

    fn least(&self) -> (u64, u64) {
        (self.first, self.times[0])
    }
}

impl Row {
    /// The times after an arc, without the first `skipped`, up to the limit.
    fn later(&self, skipped: u64, time: u64, limit: u64) -> Result<Vec<u64>, AllocError>
        ensures valid { IsValue self.now }
        ensures times { IfOk result (λ times. AreLater self.now skipped time limit times.items) }
    {
        let mut times = Vec::new(*self.times.allocator());
        let skipped = skipped.min(self.times.len() as u64) as usize;
        for before in &self.times[skipped..] {
            let grown = u128::from(*before) + u128::from(time);
            if grown > u128::from(limit) {
                return Ok(times);
            }
            times.push(grown as u64)?;
        }
        Ok(times)
    }

    /// What becomes of the value by charging from its level number `index`, up to a full battery or
    /// the limit.
    fn charge_from(
        &self,
        index: usize,
        curve: &Scaled,
        full: u64,
        limit: u64,
    ) -> Result<Row, AllocError>
        requires some { index < length self.now.times }
        requires full { full ≡ last_level curve.now }
        requires small { full ≤ 10 ^ 9 }
        requires rises { (low high : ℕ) → low ≤ high →
            time_on curve.now low ≤ time_on curve.now high }
        requires levels { (level : ℕ) → IsLevel self.now level → level ≤ last_level curve.now }
        requires times { (level : ℕ) → IsLevel self.now level → time_at self.now level ≤ limit }
        ensures valid { IfOk result IsValue }
        ensures charge { IfOk result (λ row.
            IsChargeFrom self.now curve.now limit (self.now.first + index) row) }
    {
        let first = self.first + index as u64;
        let before = u128::from(self.times[index]);
        let start = curve.time_to(first);
        let mut times = Vec::new(*self.times.allocator());
        for level in first..full + 1 {
            let after = before + u128::from(curve.time_to(level) - start);
            if after > u128::from(limit) {
                return Ok(Row { first, times });
            }
            times.push(after as u64)?;
        }
        Ok(Row { first, times })
    }
}

/// The level of a full battery on a curve, on which no level takes less time than a lower one.
fn full_level(curve: &Scaled) -> u64
    ensures value { result ≡ last_level curve.now }
    ensures small { result ≤ 10 ^ 9 }
    ensures rises { (low high : ℕ) → low ≤ high → time_on curve.now low ≤ time_on curve.now high }
{
    let breaks = curve.breaks();
    breaks[breaks.len() - 1].0
}
