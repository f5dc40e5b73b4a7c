//! The first steps of each job that reads an instance.

ghost use Rattle.std.specs.Prelude.{◌≢◌, ℕ, IfErr, IfOk, List, Option};
ghost use Rattle.instance_reader.specs.Faults.{IsFirstFault};
ghost use Rattle.job_frame.specs.Ended.{IsNetworkEnded, IsRuleOrMemory};
ghost use Rattle.job_frame.specs.LimitedNetwork.{HasNetwork};

use crate::answer::Ended;
use instance_reader::{Instance, ReadFault, read_instance};
use refusal_lines::Refusal;
use std::alloc::Global;

/// Why an instance isn't read. Want of memory is no rule.
fn unread(fault: ReadFault) -> Ended
    ensures rule { (bytes : List ℕ) → (fault ≢ ReadFault.Memory → IsFirstFault bytes fault)
        → IsRuleOrMemory result }
    ensures ended { (limit : Option ℕ) (bytes : List ℕ)
        → (fault ≢ ReadFault.Memory → IsFirstFault bytes fault)
        → IsNetworkEnded limit bytes result }
{
    match fault {
        ReadFault::Memory => Ended::Memory,
        _ => Ended::Refused(Refusal::Instance(fault)),
    }
}

/// The instance of the bytes, with the limit of the words in place of its own where they give one.
pub fn limited_instance(alloc: Global, bytes: &[u8], limit: Option<u64>) -> Result<Instance, Ended>
    ensures ok { IfOk result (HasNetwork limit bytes.now) }
    ensures rule { IfErr result IsRuleOrMemory }
    ensures ended { IfErr result (IsNetworkEnded limit bytes.now) }
{
    let inst = match read_instance(alloc, bytes) {
        Ok(inst) => inst,
        Err(fault) => return Err(unread(fault)),
    };
    let Some(limit) = limit else {
        return Ok(inst);
    };
    match inst.with_limit(limit) {
        Ok(inst) => Ok(inst),
        Err(fault) => Err(Ended::Refused(Refusal::Limit(fault.limit))),
    }
}
