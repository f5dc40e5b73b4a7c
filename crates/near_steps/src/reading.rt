//! The proofs of files.

ghost use Rattle.std.specs.Prelude.{◌≤◌, IfErr, IfOk, length};
ghost use Rattle.instance_reader.specs.Instance.{customer_nodes, most_customers};
ghost use Rattle.job_frame.specs.Ended.{IsRuleOrMemory};
ghost use Rattle.near_proof.specs.Ranges.{NearFits};
ghost use Rattle.near_steps.specs.NearFile.{HasNear, IsProofEnded};

use instance_reader::Instance;
use job_frame::Ended;
use near_proof::NearProof;
use near_text::{CertText, read_near};
use refusal_lines::Refusal;
use std::alloc::Global;

/// The proof of a file.
pub fn proof_of(alloc: Global, inst: &Instance, bytes: &[u8]) -> Result<NearProof, Ended>
    requires { length (customer_nodes inst.now) ≤ most_customers }
    ensures has { IfOk result (HasNear inst.now bytes.now) }
    ensures fits { IfOk result (NearFits inst.now) }
    ensures rule { IfErr result IsRuleOrMemory }
    ensures ended { IfErr result (IsProofEnded inst.now bytes.now) }
{
    match read_near(alloc, inst, bytes) {
        Ok(proof) => Ok(proof),
        Err(CertText::Memory) => Err(Ended::Memory),
        Err(fault) => Err(Ended::Refused(Refusal::Certificate(fault))),
    }
}
