//! The moves by which a vehicle goes on along a route.

ghost use Rattle.std.specs.Prelude.{◌≡◌, ◌↔◌, ◌*◌, ◌<◌, ◌≤◌, ◌^◌, ◌⊎◌, IfSome, IsTrue, MatchOption};
ghost use Rattle.ev_model.specs.Network.{node_count};
ghost use Rattle.level_table.specs.Moves.{CanMove, IsEnough, IsLeg, node_of, plug_before};
ghost use Rattle.level_table.specs.Places.{IsHome, IsPlace};
ghost use Rattle.level_table.specs.declared.moves.Move.TheVariants.{Charge, Drive, Unplug};

use crate::place::Place;
use crate::trip::Trip;

/// A move of the vehicle.
#[derive(Clone, Copy, Debug, PartialEq, Eq)]
pub(crate) enum Move {
    /// One unit is charged, after plugging in where the vehicle isn't plugged in.
    Charge,
    /// The vehicle is unplugged.
    Unplug,
    /// The vehicle drives to the station of a slot, or, for slot 0, to the next node of the route.
    Drive { slot: usize },
}

/// What a move does: the scaled time that it takes, and the place that it leads to.
#[derive(Clone, Copy, Debug)]
pub(crate) struct Leg {
    pub(crate) time: u64,
    pub(crate) to: Place,
}

impl<'a> Trip<'a> {
    /// What a move does, `None` exactly where it can't be made.
    pub(crate) fn leg(&self, from: Place, step: Move) -> Option<Leg>
        requires { IsPlace self.now.network self.now.route from }
        ensures value { MatchOption result (CanMove self.now.network self.now.route step from → ⊥)
            (IsLeg self.now.network self.now.route step from) }
        ensures small { IfSome result (λ leg. leg.time ≤ 2 * 10 ^ 18) }
        ensures place { IfSome result (λ leg. IsPlace self.now.network self.now.route leg.to
            ⊎ IsHome self.now.network self.now.route leg.to) }
    {
        match step {
            Move::Charge => self.charge(from),
            Move::Unplug => self.unplug(from),
            Move::Drive { slot } => self.drive(from, slot),
        }
    }

    /// What charging one unit does, `None` exactly where it can't be charged. The first unit pays
    /// the time to plug in.
    fn charge(&self, from: Place) -> Option<Leg>
        requires { IsPlace self.now.network self.now.route from }
        ensures value { MatchOption result (CanMove self.now.network self.now.route Charge from → ⊥)
            (IsLeg self.now.network self.now.route Charge from) }
        ensures small { IfSome result (λ leg. leg.time ≤ 2 * 10 ^ 18) }
        ensures place { IfSome result (λ leg. IsPlace self.now.network self.now.route leg.to) }
    {
        let full = self.inst.max_q();
        if from.is_start() || from.level == full {
            return None;
        }
        let node = self.node_at(from.passed, from.slot);
        let Some(curve) = self.inst.curve_at(node) else {
            return None;
        };
        let level = from.level + 1;
        let plug = self.plug_time(from, node);
        let unit = curve.time_to(level) - curve.time_to(from.level);
        Some(Leg {
            time: plug + unit,
            to: Place {
                level,
                plugged: true,
                ..from
            },
        })
    }

    /// The scaled time to plug in before a unit is charged, none where the vehicle is plugged in.
    fn plug_time(&self, from: Place, node: usize) -> u64
        requires known { node < node_count self.now.network }
        requires here { node ≡ node_of self.now.network self.now.route from }
        ensures value { result
            ≡ self.now.network.denominator * plug_before self.now.network self.now.route from }
        ensures small { result ≤ 10 ^ 18 }
    {
        if from.plugged {
            0
        } else {
            self.inst.denominator() * self.inst.plug_at(node)
        }
    }

    /// What unplugging does, `None` exactly where the vehicle isn't plugged in.
    fn unplug(&self, from: Place) -> Option<Leg>
        requires { IsPlace self.now.network self.now.route from }
        ensures value { MatchOption result (CanMove self.now.network self.now.route Unplug from → ⊥)
            (IsLeg self.now.network self.now.route Unplug from) }
        ensures small { IfSome result (λ leg. leg.time ≤ 2 * 10 ^ 18) }
        ensures place { IfSome result (λ leg. IsPlace self.now.network self.now.route leg.to) }
    {
        if !from.plugged {
            return None;
        }
        Some(Leg {
            time: 0,
            to: Place {
                plugged: false,
                ..from
            },
        })
    }

    /// What a drive does, `None` exactly where it can't be made.
    fn drive(&self, from: Place, slot: usize) -> Option<Leg>
        requires { IsPlace self.now.network self.now.route from }
        ensures value { MatchOption result
            (CanMove self.now.network self.now.route (Drive slot) from → ⊥)
            (IsLeg self.now.network self.now.route (Drive slot) from) }
        ensures small { IfSome result (λ leg. leg.time ≤ 2 * 10 ^ 18) }
        ensures place { IfSome result (λ leg. IsPlace self.now.network self.now.route leg.to
            ⊎ IsHome self.now.network self.now.route leg.to) }
    {
        if from.plugged || slot >= self.slots() {
            return None;
        }
        let node = self.node_at(from.passed, from.slot);
        let passed = if slot == 0 {
            from.passed + 1
        } else {
            from.passed
        };
        let next = self.node_at(passed, slot);
        let energy = self.inst.energy(node, next);
        if next == node || energy > from.level {
            return None;
        }
        let level = from.level - energy;
        if !self.is_enough(passed, level) {
            return None;
        }
        let time = self.inst.denominator() * (self.inst.time(node, next) + self.inst.service(next));
        Some(Leg {
            time,
            to: Place {
                passed,
                slot,
                level,
                plugged: false,
            },
        })
    }

    /// Whether a level on arriving is enough where `passed` is the index of the node of the route
    /// that is served then, or was last: the reserve, and at the end of the route the level at home
    /// too.
    fn is_enough(&self, passed: usize, level: u64) -> bool
        ensures { IsTrue result ↔ IsEnough self.now.network self.now.route passed level }
    {
        let at_end = passed == self.arcs();
        level >= self.inst.min_q() && (!at_end || level >= self.inst.home_q())
    }
}
