//! The choice that is answered.

ghost use Rattle.std.specs.Prelude.{◌≤◌, IfOk, IfSome};
ghost use Rattle.set_partitioning.specs.Partitions.{IsPartition};

use crate::candidate::Candidate;
use crate::judge::is_partition;
use crate::search::search;
use std::alloc::{AllocError, Global};

/// The places of candidates that together serve each of so many customers, no two of them the same
/// one, and whose excesses come to less than `room`; of those that a search finds the last one,
/// which has the least excess.
///
/// The search looks at candidates `looks` times at the most, and passes over all but a few thousand
/// of the least excess. So `None` says nothing: there may be such a choice all the same. The only
/// `Err` is want of memory.
pub fn find_partition(
    alloc: Global,
    candidates: &[Candidate],
    customers: usize,
    room: i128,
    looks: u64,
) -> Result<Option<Vec<usize>>, AllocError>
    requires { customers ≤ 128 }
    ensures { IfOk result (λ found. IfSome found (λ places.
        IsPartition candidates.now customers room places.items)) }
{
    let places = search(alloc, candidates, customers, room, looks)?;
    if is_partition(alloc, candidates, customers, room, &places)? {
        Ok(Some(places))
    } else {
        Ok(None)
    }
}
