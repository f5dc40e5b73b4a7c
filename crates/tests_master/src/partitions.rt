//! The search for candidates that serve each of four customers once, of which nothing rests on what
//! it finds.

use crate::sets::set_of;
use set_partitioning::{Candidate, find_partition};
use std::alloc::Global;

/// A candidate: the bits of its set, and its excess.
type Drawn = (u64, i128);

/// The excess of the choice that is found below the room within so many looks, `None` inside where
/// none is; `None` where memory was refused.
fn found_in(alloc: Global, drawn: &[Drawn], room: i128, looks: u64) -> Option<Option<i128>> {
    let mut candidates = Vec::new(alloc);
    for (set, excess) in drawn {
        let served = set_of(*set);
        let excess = *excess;
        candidates.push(Candidate { served, excess }).ok()?;
    }
    let found = find_partition(alloc, &candidates, 4, room, looks).ok()?;
    let Some(places) = found else {
        return Some(None);
    };
    let mut sum = 0i128;
    for at in &places {
        sum = sum.saturating_add(drawn.get(*at)?.1);
    }
    Some(Some(sum))
}

/// Of three choices, with the excesses 10, 9 and 7, the last one.
const THREE_CHOICES: &[Drawn] = &[(15, 10), (3, 5), (12, 4), (5, 6), (10, 1), (7, 2)];

#[test]
fn the_least_excess_is_found_where_there_are_looks(rt: HostRuntime) {
    let alloc = rt.alloc();
    let cases: &[(&[Drawn], i128, u64, Option<i128>)] = &[
        (THREE_CHOICES, 100, 1000, Some(7)),
        (THREE_CHOICES, 7, 1000, None),
        (THREE_CHOICES, 100, 0, None),
        (&[(7, 1), (3, 1)], 100, 1000, None),
    ];
    for &(drawn, room, looks, wanted) in cases {
        assert_eq!(rt; found_in(alloc, drawn, room, looks), Some(wanted));
    }
}
