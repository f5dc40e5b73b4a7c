//! Laws that say that the definitions mean what they should. Each is the contract of an empty
//! function.

ghost use Rattle.std.specs.Prelude.{◌≡◌, ◌↔◌, ◌+◌, ◌-◌, ◌*◌, ◌<◌, ◌≤◌, ◌∷◌, ◌++◌, List, ℕ, false};
ghost use Rattle.std.specs.List.{Contains};
ghost use Rattle.ev_model.specs.Curve.{charge_time, charge_time_in, IsCurve, IsMultipleOfSlopes};
ghost use Rattle.ev_model.specs.Levels.{level_after, levels_from, node_after};
ghost use Rattle.ev_model.specs.Network.{Network};
ghost use Rattle.ev_model.specs.Route.{FollowsRoute};
ghost use Rattle.ev_model.specs.Time.{time_from};
ghost use Rattle.ev_model.specs.declared.Stop.{Stop};

/// The time to charge, where `d` is a common multiple of the reduced denominators of the curve's
/// slopes and `full` is a full battery: it is the breakpoints' time at breakpoints, linear between
/// them, and each unit of charge on one segment takes the same whole scaled time.
pub fn charge_time_is_linear()
    ensures breakpoints { (d full : ℕ) (before : List (ℕ × ℕ)) (p : ℕ × ℕ) (after : List (ℕ × ℕ)) →
        IsCurve full (before ++ p ∷ after) → IsMultipleOfSlopes full (before ++ p ∷ after) d →
        p.1 ≤ full →
        charge_time d (before ++ p ∷ after) p.1 ≡ d * p.0 }
    ensures linear { (d full : ℕ) (before : List (ℕ × ℕ)) (p q : ℕ × ℕ) (after : List (ℕ × ℕ)) →
        (level : ℕ) →
        IsCurve full (before ++ p ∷ q ∷ after) →
        IsMultipleOfSlopes full (before ++ p ∷ q ∷ after) d →
        p.1 < full → p.1 ≤ level → level ≤ q.1 →
        charge_time d (before ++ p ∷ q ∷ after) level * (q.1 - p.1)
        ≡ d * (p.0 * (q.1 - p.1) + (q.0 - p.0) * (level - p.1)) }
    ensures whole { (d full : ℕ) (before : List (ℕ × ℕ)) (p q : ℕ × ℕ) (after : List (ℕ × ℕ)) →
        IsCurve full (before ++ p ∷ q ∷ after) →
        IsMultipleOfSlopes full (before ++ p ∷ q ∷ after) d → p.1 < full →
        (step : ℕ) × (step * (q.1 - p.1) ≡ d * (q.0 - p.0))
        × ((level : ℕ) → p.1 ≤ level → level < q.1 →
        charge_time d (before ++ p ∷ q ∷ after) (level + 1)
        ≡ charge_time d (before ++ p ∷ q ∷ after) level + step) }
{}

/// Charging to a higher level takes no less time.
pub fn charge_time_never_falls()
    ensures { (d full : ℕ) (points : List (ℕ × ℕ)) (a b : ℕ) → IsCurve full points → a ≤ b →
        charge_time d points a ≤ charge_time d points b }
{}

/// A level in whole units.
pub fn charge_time_in_ones()
    ensures { (d : ℕ) (points : List (ℕ × ℕ)) (level : ℕ) →
        charge_time_in 1 d points level ≡ charge_time d points level }
{}

/// The levels and the time of stops are those of a first part and of the rest.
pub fn stops_cut_in_two()
    ensures levels { (g : Network) (k from level : ℕ) (first rest : List Stop) →
        levels_from g k from level (first ++ rest)
        ≡ levels_from g k from level first
        ++ levels_from g k (node_after from first) (level_after g k from level first) rest }
    ensures time { (g : Network) (k from level : ℕ) (first rest : List Stop) →
        time_from g k from level (first ++ rest)
        ≡ time_from g k from level first
        + time_from g k (node_after from first) (level_after g k from level first) rest }
{}

/// A plan of a route visits exactly the route's nodes, beside the stops that were inserted.
pub fn plan_visits_its_route()
    ensures { (route : List ℕ) (stops : List Stop) (node : ℕ) → FollowsRoute route stops →
        Contains route node ↔ ((s : Stop) × Contains stops s × (s.via ≡ false) × (s.node ≡ node)) }
{}
