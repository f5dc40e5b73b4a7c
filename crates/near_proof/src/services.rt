//! Whom a plan serves.

ghost use Rattle.std.specs.Prelude.{◌≡◌, ◌<◌, ◌≤◌, IfOk, length};
ghost use Rattle.std.specs.List.{All};
ghost use Rattle.ev_model.specs.Fleet.{times_in};
ghost use Rattle.fleet_model.specs.Places.{numbers_of};
ghost use Rattle.instance_reader.specs.Instance.{customer_nodes};
ghost use Rattle.plan_check.specs.Tallies.{AreKnown};

use instance_reader::Instance;
use route_plan::Stop;
use std::alloc::{AllocError, Global};

/// The numbers of the customers whom the stops serve, in order. The only `Err` is want of memory.
pub fn numbers_of(alloc: Global, inst: &Instance, stops: &[Stop]) -> Result<Vec<usize>, AllocError>
    requires known { AreKnown inst.now stops.now }
    ensures value { IfOk result (λ numbers. numbers.items ≡ numbers_of inst.now stops.now) }
    ensures within { IfOk result (λ numbers.
        All (λ c. c < length (customer_nodes inst.now)) numbers.items) }
{
    let mut numbers = Vec::new(alloc);
    for stop in stops {
        if stop.via {
            continue;
        }
        let Some(number) = inst.customer_number(stop.node) else {
            continue;
        };
        numbers.push(number)?;
    }
    Ok(numbers)
}

/// How often a number stands among others. It takes no memory.
pub fn times_in(numbers: &[usize], number: usize) -> usize
    ensures value { result ≡ times_in numbers.now number }
    ensures within { result ≤ length numbers.now }
{
    let mut times = 0;
    for other in numbers {
        if *other == number {
            times += 1;
        }
    }
    times
}
