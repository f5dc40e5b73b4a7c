//! A table of three customers, with a column for each two of them: a pivot, its optimum, and a basis
//! of it that isn't too wide.

use crate::sets::set_of;
use bound_certificate::entries_of;
use certificate_parts::BasisEntry;
use master_simplex::{Lp, solve};
use master_table::{Caps, ListedRoute, Table, is_too_wide};
use std::alloc::Global;
use std::process::Abort;

/// The customers of each column, by their bits.
const PAIRS: [u64; 3] = [3, 6, 5];

/// The table, with the first column in the basis.
fn each_two(rt: &impl Abort, alloc: Global) -> Table {
    let caps = Caps {
        body: 1 << 40,
        cost: 1 << 84,
    };
    let mut table = Table::new(alloc, 3, caps).expect(rt, "memory");
    for &bits in &PAIRS {
        table.add_column(set_of(bits), 11).expect(rt, "memory");
    }
    assert!(rt; table.rows() == 3 && table.columns() == 6);
    assert!(rt; table.entry(0, 3) != 0);
    assert!(rt; table.pivot(0, 3).is_ok());
    table
}

/// What the optimum says: the weight, the price sum, what the shares are over, and how many there
/// are.
fn said(lp: &Lp) -> (u64, i128, u64, usize) {
    let mut sum: i128 = 0;
    for price in &lp.prices {
        sum = sum.saturating_add(*price);
    }
    (lp.weight, sum, lp.over, lp.shares.len())
}

#[test]
fn three_pairs_cover_by_halves(rt: HostRuntime) {
    let alloc = rt.alloc();
    let mut table = each_two(&rt, alloc);
    match solve(alloc, &mut table) {
        Ok(lp) => assert_eq!(rt; said(&lp), (2, 33, 2, 3)),
        Err(_) => panic!(rt; "no answer"),
    }
}

/// Whether the basis of all columns is too wide, and how many entries are listed.
fn listed(alloc: Global) -> Option<(bool, usize)> {
    let routes = [
        ListedRoute {
            set: set_of(3),
            time: 11,
        },
        ListedRoute {
            set: set_of(6),
            time: 11,
        },
        ListedRoute {
            set: set_of(5),
            time: 11,
        },
    ];
    let is_wide = is_too_wide(alloc, 3, &routes, &[3, 4, 5]).ok()?;
    let entries = entries_of(alloc, 3, &[3, 1, 5]).ok()?;
    let is_helper = matches!(entries.as_slice().get(1), Some(BasisEntry::Helper(1)));
    if is_helper {
        Some((is_wide, entries.len()))
    } else {
        None
    }
}

#[test]
fn small_bases_are_not_too_wide(rt: HostRuntime) {
    assert_eq!(rt; listed(rt.alloc()), Some((false, 3)));
}
