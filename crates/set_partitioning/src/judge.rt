//! Whether candidates serve each customer once, within the room.

ghost use Rattle.std.specs.Prelude.{◌≡◌, ◌<◌, ◌≤◌, ◌<ℤ◌, true, IfOk, IfSome, IsTrue, length, map};
ghost use Rattle.std.specs.List.{All};
ghost use Rattle.set_partitioning.specs.Partitions.{AreApart, AreWhole, IsPartition, candidate_at, excess_of, times_served};

use crate::candidate::Candidate;
use std::alloc::{AllocError, Global};

/// Whether the candidates at these places together serve each of so many customers, no two of them
/// the same one, and their excesses come to less than `room`. A sum past 128 bits is refused.
pub(crate) fn is_partition(
    alloc: Global,
    candidates: &[Candidate],
    customers: usize,
    room: i128,
    places: &[usize],
) -> Result<bool, AllocError>
    requires { customers ≤ 128 }
    ensures { IfOk result (λ is. is ≡ true →
        IsPartition candidates.now customers room places.now) }
{
    if !are_places(candidates, places) {
        return Ok(false);
    }
    let taken = taken_at(alloc, candidates, places)?;
    Ok(serve_once(&taken, customers) && is_below(&taken, room))
}

/// Whether a candidate stands at each of the places.
fn are_places(candidates: &[Candidate], places: &[usize]) -> bool
    ensures { IsTrue result → All (λ at. at < length candidates.now) places.now }
{
    places.iter().all(|at| *at < candidates.len())
}

/// The candidates at the places.
fn taken_at(
    alloc: Global,
    candidates: &[Candidate],
    places: &[usize],
) -> Result<Vec<Candidate>, AllocError>
    requires { All (λ at. at < length candidates.now) places.now }
    ensures { IfOk result (λ taken. taken.items ≡ map (candidate_at candidates.now) places.now) }
{
    let mut taken = Vec::with_capacity(alloc, places.len())?;
    for at in places {
        taken.push(candidates[*at])?;
    }
    Ok(taken)
}

/// Whether each of so many customers is served by one of the candidates, and nobody by two.
fn serve_once(taken: &[Candidate], customers: usize) -> bool
    requires { customers ≤ 128 }
    ensures whole { IsTrue result → AreWhole customers taken.now }
    ensures apart { IsTrue result → AreApart taken.now }
{
    for c in 0..128 {
        let times = times_served(taken, c);
        if times > 1 || (c < customers && times == 0) {
            return false;
        }
    }
    true
}

/// How many of the candidates serve the customer.
fn times_served(taken: &[Candidate], c: usize) -> usize
    requires { c < 128 }
    ensures { result ≡ times_served taken.now c }
{
    let mut times = 0;
    for candidate in taken {
        if candidate.served.has(c) {
            times += 1;
        }
    }
    times
}

/// Whether the excesses of the candidates come to less than `room`.
fn is_below(taken: &[Candidate], room: i128) -> bool
    ensures { IsTrue result → excess_of taken.now <ℤ room }
{
    match excess_of(taken) {
        Some(excess) => excess < room,
        None => false,
    }
}

/// What the excesses of the candidates come to; `None` where a sum of theirs is past 128 bits.
fn excess_of(taken: &[Candidate]) -> Option<i128>
    ensures { IfSome result (λ excess. excess ≡ excess_of taken.now) }
{
    let mut excess = 0i128;
    for candidate in taken {
        let Some(sum) = excess.checked_add(candidate.excess) else {
            return None;
        };
        excess = sum;
    }
    Some(excess)
}
