//! Puts an instance together from fields that no rule refuses.

ghost use Rattle.std.specs.Prelude.{◌≡◌, ◌-◌, ◌++◌, ◌≤◌, IfOk, length, replicate};
ghost use Rattle.instance_reader.specs.Meaning.{network_of};
ghost use Rattle.instance_reader.specs.Parts.{AreParts};
ghost use Rattle.instance_reader.specs.Views.{contents_view};

use crate::curves::StationCurve;
use crate::customers::{Customers, numbered_customers};
use crate::fields::Fields;
use crate::instance::Instance;
use crate::stations::plug_times;
use std::alloc::{AllocError, Global};

/// The process times of all nodes: those that are missing are 0.
fn pad_with_zeros(mut process_times: Vec<u64>, nodes: usize) -> Result<Vec<u64>, AllocError>
    requires { length process_times.items ≤ nodes }
    ensures { IfOk result
        (λ v. v.items ≡ process_times.items ++ replicate (nodes - length process_times.items) 0) }
{
    for _node in process_times.len()..nodes {
        process_times.push(0)?;
    }
    Ok(process_times)
}

/// The instance of fields that no rule refuses, with the curves by number, the number of each
/// node's curve, the denominator and the limit.
pub(crate) fn build(
    alloc: Global,
    fields: Fields,
    curves: Vec<StationCurve>,
    curve_numbers: Vec<Option<usize>>,
    denominator: u64,
    limit: u64,
) -> Result<Instance, AllocError>
    requires { AreParts (contents_view fields) curves.items curve_numbers.items denominator limit }
    ensures { IfOk result
        (λ g. g ≡ record (network_of denominator (contents_view fields)) { limit = limit }) }
{
    let Customers { nodes, numbers } = numbered_customers(alloc, curve_numbers.as_slice())?;
    let plug_times = plug_times(alloc, fields.curves.as_slice(), curve_numbers.as_slice())?;
    let process_times = pad_with_zeros(fields.process_times, curve_numbers.len())?;
    Ok(Instance {
        max_q: fields.max_q,
        min_q: fields.min_q,
        home_q: fields.home_q,
        energies: fields.energies,
        times: fields.times,
        process_times,
        curves,
        curve_numbers,
        plug_times,
        customers: nodes,
        customer_numbers: numbers,
        denominator,
        limit,
    })
}
