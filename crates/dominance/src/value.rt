//! What a search asks of the values of its labels.

ghost use Rattle.std.specs.Prelude.{◌≡◌, ◌↔◌, ◌+◌, ◌<◌, ◌≤◌, ℕ, Bool, true, List, length, IfOk, IfSome, IfNone, MatchOption, IsTrue};
ghost use Rattle.std.specs.List.{All};
ghost use Rattle.charge_curve.specs.Points.{last_level};
ghost use Rattle.dominance.specs.LevelTimes.{IsLevel, IsValue, LevelTimes, time_at};
ghost use Rattle.dominance.specs.Coverage.{CoversEach, SomeReaches};
ghost use Rattle.dominance.specs.Steps.{IsCharge, IsShift, NothingLeft};

use charge_curve::Scaled;
use std::alloc::AllocError;

/// Values of which one may make another needless.
pub trait Covers {
    ghost dominates: { Self → Self → Bool };

    /// Whether the other value is needless beside this one. It takes no memory.
    fn covers_whole(&self, other: &Self) -> bool
        ensures { result ≡ dominates self.now other.now };

    ghost reflexive: { (x : Self) → dominates x x ≡ true };

    ghost transitive: { (x y z : Self) → dominates x y ≡ true → dominates y z ≡ true →
        dominates x z ≡ true };
}

/// The least time at each battery level that a partial route may have.
///
/// A value has a first level, in whole units of energy, and for each level from there up to its
/// last one scaled time. There is at least one level, and times never fall.
pub trait LabelValue: Covers {
    ghost meaning: { Self → LevelTimes };

    /// Whether for every level of the other value this value has a level at least as high whose
    /// time plus `extra` is no later. It takes no memory.
    fn covers(&self, other: &Self, extra: u64) -> bool
        ensures { IsTrue result ↔ CoversEach (meaning self.now) (meaning other.now) extra };

    /// The value after an arc: every level falls by `energy` and every time grows by `time`. Levels
    /// below 0 and times past `limit` are dropped, and `None` comes where nothing is left.
    ///
    /// What covered another value before the arc covers it after the arc.
    fn shift(&self, energy: u64, time: u64, limit: u64) -> Result<Option<Self>, AllocError>
    where
        Self: Sized,
        ensures none { IfOk result (λ shifted.
            IfNone shifted (NothingLeft energy time limit (meaning self.now))) }
        ensures some { IfOk result (λ shifted.
            IfSome shifted (λ value.
            IsShift energy time limit (meaning self.now) (meaning value))) }
        ensures valid { IfOk result (λ shifted. IfSome shifted (λ value. IsValue (meaning value))) }
        ensures keeps { IfOk result (λ shifted. (other left : LevelTimes) (extra : ℕ) →
            CoversEach (meaning self.now) other extra → IsShift energy time limit other left →
            MatchOption shifted ((level : ℕ) → IsLevel left level → ⊥)
            (λ value. CoversEach (meaning value) left extra)) };

    /// The values after a charge: a vehicle may charge from any of the levels to any level up to a
    /// full battery, which takes the time between them on the curve. Times past `limit` are
    /// dropped.
    ///
    /// Each charge is covered by one of the values, and each level of a value is the end of a
    /// charge. Where this value covers another with `extra`, each charge of the other is covered by
    /// one of the values, with `extra`. One of them alone need not cover each charge from some
    /// level of the other.
    fn charge(&self, curve: &Scaled, limit: u64) -> Result<Vec<Self>, AllocError>
    where
        Self: Sized,
        requires levels { (level : ℕ) → IsLevel (meaning self.now) level →
            level ≤ last_level curve.now }
        requires times { (level : ℕ) → IsLevel (meaning self.now) level →
            time_at (meaning self.now) level ≤ limit }
        ensures every { IfOk result (λ values. (level time : ℕ) →
            IsCharge (meaning self.now) curve.now limit level time →
            SomeReaches meaning values.items 0 level time) }
        ensures only { IfOk result (λ values. All (λ value. (level : ℕ) →
            IsLevel (meaning value) level → IsCharge (meaning self.now) curve.now limit level
            (time_at (meaning value) level)) values.items) }
        ensures valid { IfOk result (λ values.
            All (λ value. IsValue (meaning value)) values.items) }
        ensures keeps { IfOk result (λ values. (other : LevelTimes) (extra level time : ℕ) →
            CoversEach (meaning self.now) other extra → IsCharge other curve.now limit level time →
            SomeReaches meaning values.items extra level time) };

    /// The first level and its time, which is the least of all. It takes no memory.
    fn least(&self) -> (u64, u64)
        ensures level { result.0 ≡ (meaning self.now).first }
        ensures time { result.1 ≡ time_at (meaning self.now) result.0 }
        ensures valid { IsValue (meaning self.now) };

    // one value dominates another where it covers it with nothing extra
    ghost whole: { (x y : Self) → (Self.dominates x y ≡ true) ↔
        CoversEach (meaning x) (meaning y) 0 };

    ghost covers_itself: { (x : Self) → CoversEach (meaning x) (meaning x) 0 };

    ghost adds_extras: { (x y z : Self) (a b : ℕ) → CoversEach (meaning x) (meaning y) a →
        CoversEach (meaning y) (meaning z) b → CoversEach (meaning x) (meaning z) (a + b) };
}
