//! The first steps of each job that reads an instance for a fleet.

ghost use Rattle.std.specs.Prelude.{IfErr, IfOk};
ghost use Rattle.fleet_steps.specs.FleetNetwork.{HasFleetNetwork, IsFleetEnded};
ghost use Rattle.job_frame.specs.Ended.{IsRuleOrMemory};

use instance_reader::{Instance, MOST_CUSTOMERS};
use job_frame::{Ended, limited_instance};
use refusal_lines::Refusal;
use std::alloc::Global;

/// The instance of the bytes for a fleet: with the limit of the words, and without too many
/// customers.
pub fn fleet_instance(alloc: Global, bytes: &[u8], limit: Option<u64>) -> Result<Instance, Ended>
    ensures ok { IfOk result (HasFleetNetwork limit bytes.now) }
    ensures rule { IfErr result IsRuleOrMemory }
    ensures ended { IfErr result (IsFleetEnded limit bytes.now) }
{
    let inst = limited_instance(alloc, bytes, limit)?;
    let count = inst.customers().len();
    if count > MOST_CUSTOMERS {
        return Err(Ended::Refused(Refusal::Customers(count)));
    }
    Ok(inst)
}
