//! Plans, and what is asked of one alone: a copy, and its time from full.

ghost use Rattle.std.specs.Prelude.{◌≡◌, IfOk};
ghost use Rattle.ev_model.specs.Feasible.{IsFeasible};
ghost use Rattle.ev_model.specs.Time.{time_of};

use crate::walking::walk;
use ev_list::Listed;
use ev_model::Stop;
use instance_reader::Instance;
use std::alloc::{AllocError, Global};

/// A plan of one vehicle: its stops in order, from the depot to the depot. Amounts are in whole
/// units of charge.
#[derive(Drop)]
pub struct RoutePlan {
    pub stops: Listed<Stop>,
}

impl RoutePlan {
    /// A plan with the same stops.
    pub fn copy(&self, alloc: Global) -> Result<RoutePlan, AllocError>
        ensures { IfOk result (λ copy. copy ≡ self.now) }
    {
        let stops = self.stops.as_slice();
        let mut copy = Vec::with_capacity(alloc, stops.len())?;
        copy.extend_from_slice(stops)?;
        Ok(RoutePlan {
            stops: Listed::from_vec(copy),
        })
    }

    /// The scaled time of a feasible plan of a vehicle that starts fully charged. It takes no
    /// memory.
    pub fn full_time(&self, inst: &Instance) -> u64
        requires { IsFeasible inst.now 1 inst.now.capacity self.now.stops }
        ensures { result ≡ time_of inst.now 1 inst.now.capacity self.now.stops }
    {
        match walk(inst, inst.max_q(), self.stops.as_slice()) {
            Ok(end) => end.time,
            Err(_) => unreachable!(),
        }
    }
}

/// A plan of one vehicle in fractions of a unit: the amount of each stop is in kths of a unit of
/// charge.
#[derive(Drop)]
pub struct FracPlan {
    /// How many equal parts a unit of charge has; 1 in a whole plan.
    pub k: u64,
    pub stops: Listed<Stop>,
}

/// A plan of a fleet: the plan of each vehicle.
#[derive(Drop)]
pub struct FleetPlan {
    pub routes: Listed<RoutePlan>,
}
