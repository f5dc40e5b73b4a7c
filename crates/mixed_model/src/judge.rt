//! The judge of proofs for several kinds of vehicles.

ghost use Rattle.std.specs.Prelude.{◌≡◌, ◌≤◌, IfOk, length};
ghost use Rattle.instance_reader.specs.Instance.{customer_nodes, most_customers};
ghost use Rattle.mixed_model.specs.Kinds.{AreKinds, first_of};
ghost use Rattle.mixed_model.specs.Ranges.{MixedFits};
ghost use Rattle.mixed_model.specs.Truth.{IsTrueProof};
ghost use Rattle.mixed_model.specs.Verdicts.{IsVerdict};
ghost use Rattle.mixed_model.specs.declared.verdict.MixedVerdict.TheVariants.{Accepted};

use crate::kinds::kind_fault;
use crate::root::root_holds;
use crate::{MixedProof, MixedVerdict, accepted_roots_are_true};
use certificate_check::is_bounded;
use instance_reader::Instance;
use std::alloc::{AllocError, Global};

/// The verdict on a proof for several kinds of vehicles: that it is accepted, or the first rule
/// that it breaks. The only `Err` is want of memory.
///
/// The rules; 1 to 3 are tried kind by kind, each of a kind over all its labels before the next:
///
/// 1. Some label of the kind covers the start.
/// 2. Each step of a vehicle of the kind, from a label to a customer or a station, leads to a state
///    that some label of the kind covers.
/// 3. No step home of a vehicle of the kind takes, times the weight, less than the price sum of the
///    label's set.
/// 4. The bound is at most the price sum over the weight, rounded up; where the weight is 0, at
///    most 0, and any number if the price sum is above 0. Only then there may be none.
/// 5. The root holds. `None`: the weight is 0 and the price sum above 0. `Exact`: the plan of each
///    share is a feasible one from full for its kind, serves customers alone, one at least and each
///    once; the shares of each customer add up to `over`; and their cost, each as its kind drives
///    it, over `over` is the price sum over the weight, which is not 0. `Wide`: the columns are
///    such plans, and the basis over them, by their kinds' times, is past the caps of 2^40 and
///    2^84.
///
/// Where it is accepted, whoever wrote the proof, every plan of a fleet of these kinds in any
/// fraction of a unit of charge costs at least its bound, and there is none where it has no bound.
/// No fractional cover by routes of these kinds costs less than the price sum over the weight, in
/// any fraction of a unit; where the root is `Exact`, its shares are one that costs just that, and
/// where it is `None`, there is none.
///
/// Beside what [`closed_lists::check_closed`] takes for one kind at a time, a root takes a set and
/// a time for each of its routes.
pub fn check_mixed(
    alloc: Global,
    kinds: &[Instance],
    p: &MixedProof,
) -> Result<MixedVerdict, AllocError>
    requires kinds { AreKinds kinds.now }
    requires few { length (customer_nodes (first_of kinds.now)) ≤ most_customers }
    requires fits { MixedFits kinds.now p.now }
    ensures verdict { IfOk result (IsVerdict kinds.now p.now) }
    ensures truth { IfOk result (λ verdict. verdict ≡ Accepted → IsTrueProof kinds.now p.now) }
{
    if let Some(fault) = kind_fault(alloc, kinds, p)? {
        return Ok(fault);
    }
    if !is_bounded(p.weight, p.prices.as_slice(), p.bound) {
        return Ok(MixedVerdict::Bound);
    }
    if !root_holds(alloc, kinds, p)? {
        return Ok(MixedVerdict::Root);
    }
    accepted_roots_are_true();
    Ok(MixedVerdict::Accepted)
}
