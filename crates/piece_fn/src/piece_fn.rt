//! Values by supporting points.

ghost use Rattle.std.specs.Prelude.{◌≡◌, ◌↔◌, ◌+◌, ◌-◌, ◌<◌, ◌≤◌, ◌∷◌, ℕ, [], IfNone, IfOk, IfSome, IsTrue, MatchOption, length};
ghost use Rattle.std.specs.List.{All};
ghost use Rattle.charge_curve.specs.Points.{ArePoints, last_level, time_on};
ghost use Rattle.dominance.specs.Coverage.{CoversEach, Reaches, SomeReaches};
ghost use Rattle.dominance.specs.LevelTimes.{IsLevel, IsValue, LevelTimes, time_at};
ghost use Rattle.dominance.specs.Steps.{IsCharge, IsChargeFrom};
ghost use Rattle.piece_fn.specs.PieceFn.{first_level, IsChargeList, IsCut, IsReach, level_times};

use crate::charging::{Move, Points, carried, starts};
use crate::coverage::{covers, is_in_time};
use crate::points::{are_points, last_level, time_at};
use crate::reach::farthest;
use charge_curve::Scaled;
use dominance::{Covers, LabelValue};
use smallvec::SmallVec;
use std::alloc::{AllocError, Global};
use std::marker::Model;

/// A value by few supporting points (level, scaled time).
///
/// Levels rise, times never fall, and the time gap of neighbouring points is a multiple of their
/// level gap, so the time at each whole level is whole. Contracts see the points.
#[derive(Drop)]
pub struct PieceFn {
    points: Points,
}

impl Model for PieceFn {
    ghost use Rattle.std.specs.Prelude.{List, ℕ};
    ghost use Rattle.charge_curve.specs.Points.{ArePoints};

    ghost Value = { List (ℕ × ℕ) };

    ghost view = { λ f. f.points.items };

    ghost invariant = { λ f. ArePoints f.points.items };
}

impl PieceFn {
    /// The value with the one level `q`, at the time `t`. It takes no memory.
    pub fn point(alloc: Global, q: u64, t: u64) -> PieceFn
        ensures { result ≡ (q, t) ∷ [] }
    {
        let mut points = Points::new(alloc);
        points.push_reserved((q, t));
        PieceFn { points }
    }

    /// The value through supporting points (level, time).
    pub fn from_points(alloc: Global, points: &[(u64, u64)]) -> Result<PieceFn, AllocError>
        requires { ArePoints points.now }
        ensures { IfOk result (λ value. value ≡ points.now) }
    {
        let points = SmallVec::from_slice(alloc, points)?;
        Ok(PieceFn { points })
    }

    /// Whether there is a point, levels rise, times never fall, and each gap of times is a multiple
    /// of the gap of levels. It takes no memory.
    pub fn is_points(points: &[(u64, u64)]) -> bool
        ensures { IsTrue result ↔ ArePoints points.now }
    {
        are_points(points)
    }

    /// The supporting points (level, time). It takes no memory.
    pub fn points(&self) -> &[(u64, u64)]
        ensures value { result.now ≡ self.now }
        ensures valid { ArePoints self.now }
    {
        self.points.as_slice()
    }

    /// The time at a level, or `None` where it is no level of the value. It takes no memory.
    pub fn at(&self, q: u64) -> Option<u64>
        ensures some { IfSome result (λ time. IsLevel (level_times self.now) q ×
            (time ≡ time_at (level_times self.now) q)) }
        ensures none { IfNone result (IsLevel (level_times self.now) q → ⊥) }
    {
        let points = self.points();
        if q < points[0].0 || last_level(points) < q {
            return None;
        }
        Some(time_at(points, q))
    }

    /// The greatest level up to which this value covers, with `extra`, every level of the other
    /// from `from` on. `None` comes where it does not cover `from`. It takes no memory.
    pub fn reach(&self, other: &PieceFn, extra: u64, from: u64) -> Option<u64>
        requires { IsLevel (level_times other.now) from }
        ensures some { IfSome result (λ to.
            IsReach (level_times self.now) (level_times other.now) extra from to) }
        ensures none { IfNone result (Reaches (level_times self.now) extra from
            (time_at (level_times other.now) from) → ⊥) }
    {
        let (own, others) = (self.points(), other.points());
        let end = last_level(own).min(last_level(others));
        if end < from || !is_in_time(time_at(own, from), extra, time_at(others, from)) {
            return None;
        }
        if own.len() == 1 {
            return Some(end);
        }
        Some(farthest(own, others, extra, from, end))
    }

    /// The value without its levels below `least`. `None` comes exactly where no level is left.
    ///
    /// What covered another value before the cut covers it after the cut.
    pub fn cut(&self, least: u64) -> Result<Option<PieceFn>, AllocError>
        ensures none { IfOk result (λ cut. IfNone cut ((level : ℕ) →
            IsLevel (level_times self.now) level → level < least)) }
        ensures some { IfOk result (λ cut. IfSome cut (λ value.
            IsCut least (level_times self.now) (level_times value))) }
        ensures keeps { IfOk result (λ cut. (other left : LevelTimes) (extra : ℕ) →
            CoversEach (level_times self.now) other extra → IsCut least other left →
            MatchOption cut ((level : ℕ) → IsLevel left level → ⊥)
            (λ value. CoversEach (level_times value) left extra)) }
    {
        let points = self.points();
        let last = last_level(points);
        if last < least {
            return Ok(None);
        }
        let by = Move {
            down: 0,
            zero: 0,
            base: 0,
        };
        let points = carried(
            *self.points.allocator(),
            points,
            least,
            by,
            time_at(points, last),
        )?;
        Ok(Some(PieceFn { points }))
    }

    /// What becomes of the value by charging from one of its levels, up to a full battery or the
    /// limit.
    pub fn charge_from(&self, level: u64, curve: &Scaled, limit: u64) -> Result<PieceFn, AllocError>
        requires level { IsLevel (level_times self.now) level }
        requires fits { level ≤ last_level curve.now }
        requires time { time_at (level_times self.now) level ≤ limit }
        ensures valid { IfOk result ArePoints }
        ensures charge { IfOk result (λ value.
            IsChargeFrom (level_times self.now) curve.now limit level (level_times value)) }
    {
        let by = Move {
            down: 0,
            zero: curve.time_to(level),
            base: time_at(self.points(), level),
        };
        let points = carried(*self.points.allocator(), curve.breaks(), level, by, limit)?;
        Ok(PieceFn { points })
    }
}

impl Covers for PieceFn {
    ghost use Rattle.dominance.specs.Coverage.{does_cover};
    ghost use Rattle.dominance.specs.Laws.{dominates_itself, dominates_on};
    ghost use Rattle.piece_fn.specs.PieceFn.{level_times};

    ghost dominates = { λ x y. does_cover (level_times x) (level_times y) 0 };

    ghost reflexive = { λ x. dominates_itself (level_times x) };

    ghost transitive = { λ x y z. dominates_on (level_times x) (level_times y) (level_times z) };

    fn covers_whole(&self, other: &PieceFn) -> bool {
        self.covers(other, 0)
    }
}

impl LabelValue for PieceFn {
    ghost use Rattle.dominance.specs.Laws.{adds_extras, covers_exactly, covers_itself};
    ghost use Rattle.piece_fn.specs.PieceFn.{level_times};

    ghost meaning = { level_times };

    ghost whole = { λ x y. covers_exactly (level_times x) (level_times y) 0 };

    ghost covers_itself = { λ x. covers_itself (level_times x) };

    ghost adds_extras = { λ x y z. adds_extras (level_times x) (level_times y) (level_times z) };

    fn covers(&self, other: &PieceFn, extra: u64) -> bool {
        covers(self.points(), other.points(), extra)
    }

    fn shift(&self, energy: u64, time: u64, limit: u64) -> Result<Option<PieceFn>, AllocError> {
        let points = self.points();
        if last_level(points) < energy || !is_in_time(time_at(points, energy), time, limit) {
            return Ok(None);
        }
        let by = Move {
            down: energy,
            zero: 0,
            base: time,
        };
        let points = carried(*self.points.allocator(), points, energy, by, limit)?;
        Ok(Some(PieceFn { points }))
    }

    fn charge(&self, curve: &Scaled, limit: u64) -> Result<Vec<PieceFn>, AllocError>
        requires levels { (level : ℕ) → IsLevel (level_times self.now) level →
            level ≤ last_level curve.now }
        requires times { (level : ℕ) → IsLevel (level_times self.now) level →
            time_at (level_times self.now) level ≤ limit }
        ensures answers { IfOk result (λ values.
            IsChargeList self.now curve.now limit values.items) }
        ensures every { IfOk result (λ values. (level time : ℕ) →
            IsCharge (level_times self.now) curve.now limit level time →
            SomeReaches level_times values.items 0 level time) }
        ensures only { IfOk result (λ values. All (λ value. (level : ℕ) →
            IsLevel (level_times value) level →
            IsCharge (level_times self.now) curve.now limit level
            (time_at (level_times value) level)) values.items) }
        ensures valid { IfOk result (λ values.
            All (λ value. IsValue (level_times value)) values.items) }
        ensures keeps { IfOk result (λ values. (other : LevelTimes) (extra level time : ℕ) →
            CoversEach (level_times self.now) other extra →
            IsCharge other curve.now limit level time →
            SomeReaches level_times values.items extra level time) }
    {
        let alloc = *self.points.allocator();
        let points = self.points();
        let breaks = curve.breaks();
        let starts = starts(alloc, points, breaks)?;
        let mut values = Vec::with_capacity(alloc, starts.len() + 1)?;
        let unchanged = PieceFn::from_points(alloc, points)?;
        values.push(unchanged)?;
        for start in &starts {
            let value = self.charge_from(*start, curve, limit)?;
            values.push(value)?;
        }
        Ok(values)
    }

    fn least(&self) -> (u64, u64) {
        self.points()[0]
    }
}
