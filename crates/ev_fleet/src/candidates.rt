//! The routes of which a fleet plan may be made.

ghost use Rattle.std.specs.Prelude.{◌<◌, ◌≤◌, IfSome, length};
ghost use Rattle.instance_reader.specs.Instance.{customer_nodes, most_customers};

use bound_certificate::Section;
use column_pool::ColumnPool;
use customer_sets::CustSet;
use instance_reader::Instance;
use route_plan::walk;
use set_partitioning::Candidate;
use std::alloc::{AllocError, Global};

/// The routes of the pool, by place: whom each serves, and as its excess its time times the weight,
/// less the prices of its customers. What is no route has the greatest excess. The only `Err` is
/// want of memory.
pub(crate) fn candidates_of(
    alloc: Global,
    inst: &Instance,
    pool: &ColumnPool,
    section: &Section,
) -> Result<Vec<Candidate>, AllocError>
    requires few { length (customer_nodes inst.now) ≤ most_customers }
{
    let mut candidates = Vec::new(alloc);
    for at in 0..pool.len() {
        candidates.push(match candidate_at(inst, pool, section, at) {
            Some(candidate) => candidate,
            None => Candidate {
                served: CustSet::empty(),
                excess: i128::MAX,
            },
        })?;
    }
    Ok(candidates)
}

/// The route at a place of the pool.
fn candidate_at(
    inst: &Instance,
    pool: &ColumnPool,
    section: &Section,
    at: usize,
) -> Option<Candidate>
    requires few { length (customer_nodes inst.now) ≤ most_customers }
{
    let (order, plan) = pool.route_at(at)?;
    let time = walk(inst, inst.max_q(), plan.stops.as_slice()).ok()?.time;
    let mut candidate = Candidate::at_cost(time, section.weight);
    for node in order {
        let number = number_of(inst, *node)?;
        candidate = candidate.serving(number, section.prices.as_slice());
    }
    Some(candidate)
}

/// The number of the customer at a node.
fn number_of(inst: &Instance, node: usize) -> Option<usize>
    requires few { length (customer_nodes inst.now) ≤ most_customers }
    ensures { IfSome result (λ number. number < 128) }
{
    if node >= inst.nodes() {
        return None;
    }
    inst.customer_number(node)
}
