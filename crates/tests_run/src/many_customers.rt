//! Fleets of many customers.

use crate::files::{assert_run, run_with, shelf_with};
use ev_outside::MemoryShelf;
use evroute_run::Status;
use std::alloc::{AllocError, Global};
use std::process::Abort;

/// How many customers the greatest fleet has whose bound is sought.
const CUSTOMERS: usize = 128;

/// A plan file that holds no plan.
const NONE: &str = "evroute plan 1\nnone\n";

/// So many customers, and how far it is from the depot or to it, between the nodes 1 and 2, 3 and
/// 4, and so on, who are partners, and between any other two customers.
#[derive(Clone, Copy)]
struct Ways {
    customers: usize,
    home: u64,
    partners: u64,
    others: u64,
}

impl Ways {
    /// How far it is from one node to another.
    fn between(self, from: usize, to: usize) -> u64 {
        if from == to {
            0
        } else if from == 0 || to == 0 {
            self.home
        } else if from.saturating_add(1) / 2 == to.saturating_add(1) / 2 {
            self.partners
        } else {
            self.others
        }
    }

    /// How far it is from a node to each.
    fn row(self, alloc: Global, from: usize) -> Result<Vec<u64>, AllocError> {
        let mut row = Vec::new(alloc);
        for to in 0..self.customers.saturating_add(1) {
            row.push(self.between(from, to))?;
        }
        Ok(row)
    }

    /// How far it is from each node to each.
    fn matrix(self, alloc: Global) -> Result<Vec<Vec<u64>>, AllocError> {
        let mut rows = Vec::new(alloc);
        for from in 0..self.customers.saturating_add(1) {
            rows.push(self.row(alloc, from)?)?;
        }
        Ok(rows)
    }

    /// An instance without stations, where these are the times of the ways, each takes one unit of
    /// charge, and a visit to the first customer takes so long.
    fn text(self, alloc: Global, visit: u64) -> Result<String, AllocError> {
        let times = self.matrix(alloc)?;
        let units = Ways {
            home: 1,
            partners: 1,
            others: 1,
            ..self
        };
        let energies = units.matrix(alloc)?;
        let head = format!(in alloc;
            "\"max_q\":10,\"css\":[],\"breakpoints_by_type\":[],\"process_times\":[0,{visit}]"
        )?;
        format!(in alloc; "{{{head},\"energy_matrix\":{energies:?},\"time_matrix\":{times:?}}}")
    }
}

/// Customers between any two of whom it is as far as over the depot. So no route beats those of its
/// customers alone, and each set of routes is a best one.
const ALONE: Ways = Ways {
    customers: CUSTOMERS,
    home: 1,
    partners: 2,
    others: 2,
};

/// Customers of whom two partners are best served by one route, in a time of 9. Whom else a route
/// serves changes nothing.
const IN_PAIRS: Ways = Ways {
    customers: CUSTOMERS,
    home: 4,
    partners: 1,
    others: 8,
};

/// The root of a certificate that lists the routes over three customers each, the customer with
/// this number, the next and the third behind, as far as they are there, as a basis. It is too
/// wide.
fn wide_root(alloc: Global) -> Result<String, AllocError> {
    let mut text = format!(in alloc; "root wide {CUSTOMERS}\n")?;
    for first in 1..CUSTOMERS + 1 {
        text.push_str("column 0")?;
        for customer in [first, first + 1, first + 3] {
            if customer <= CUSTOMERS {
                let stop = format!(in alloc; " {customer}")?;
                text.push_str(stop.as_str())?;
            }
        }
        text.push_str(" 0\n")?;
    }
    text.push_str("basis")?;
    for column in 0..CUSTOMERS {
        let entry = format!(in alloc; " {column}")?;
        text.push_str(entry.as_str())?;
    }
    text.push_str("\n")?;
    Ok(text)
}

/// The certificate under `Q` gets a wide root. `None` where it isn't one.
fn widen(alloc: Global, shelf: &mut MemoryShelf) -> Result<Option<()>, AllocError> {
    let Some(bytes) = shelf.get("Q") else {
        return Ok(None);
    };
    let Ok(text) = str::from_utf8(bytes) else {
        return Ok(None);
    };
    let Some((_, sections)) = text.split_once("\nsections ") else {
        return Ok(None);
    };
    let root = wide_root(alloc)?;
    let certificate = format!(in alloc;
        "evroute certificate 1\nbound 256\n{root}sections {sections}"
    )?;
    shelf.set("Q", certificate.as_bytes())?;
    Ok(Some(()))
}

#[test]
fn a_fleet_of_128_customers_is_planned_and_judged(rt: HostRuntime) {
    let alloc = rt.alloc();
    let instance = ALONE.text(alloc, 0).expect(&rt, "memory");
    let mut shelf = shelf_with(alloc, instance.as_str(), "", &[]).expect(&rt, "memory");
    let report = "cost 256/1\nbound 256/1\ngap 0/1\n";
    let planned = format!(in alloc; "{report}root exact 256/1\n").expect(&rt, "memory");
    let accepted = format!(in alloc; "accepted\n{report}").expect(&rt, "memory");
    let ended = run_with(alloc, "fleet A P Q", &mut shelf, &[]).expect(&rt, "memory");
    assert_eq!(rt; ended.0, Status::Done);
    assert_eq!(rt; ended.1.as_slice(), planned.as_bytes());
    let ended = run_with(alloc, "check A P Q", &mut shelf, &[]).expect(&rt, "memory");
    assert_eq!(rt; ended.1.as_slice(), accepted.as_bytes());
    let widened = widen(alloc, &mut shelf).expect(&rt, "memory");
    assert!(rt; widened.is_some());
    let ended = run_with(alloc, "check A P Q", &mut shelf, &[]).expect(&rt, "memory");
    assert_eq!(rt; ended.1.as_slice(), accepted.as_bytes());
}

/// Appends the line of a route over a node and the next but one.
fn push_crossed(alloc: Global, text: &mut String, node: usize) -> Result<(), AllocError> {
    let other = node.saturating_add(2);
    let route = format!(in alloc; "route 0 {node} {other} 0\n")?;
    text.push_str(route.as_str())
}

/// A plan file with a route for each two customers, none of whom are partners: the nodes 1 and 3, 2
/// and 4, 5 and 7, 6 and 8, and so on.
fn crossed_plan(alloc: Global, customers: usize) -> Result<String, AllocError> {
    let mut text = format!(in alloc; "evroute plan 1\nroutes {}\n", customers / 2)?;
    for four in 0..customers / 4 {
        let first = four.saturating_mul(4).saturating_add(1);
        push_crossed(alloc, &mut text, first)?;
        push_crossed(alloc, &mut text, first.saturating_add(1))?;
    }
    Ok(text)
}

/// So many customers are served in pairs once their plan is improved, which puts so, and the plan
/// that is written isn't made cheaper; or the test fails.
fn assert_in_pairs(
    rt: &impl Abort,
    alloc: Global,
    customers: usize,
    plan: &str,
    put: &str,
    again: &str,
) {
    let ways = Ways {
        customers,
        ..IN_PAIRS
    };
    let instance = ways.text(alloc, 0).expect(rt, "memory");
    let mut shelf = shelf_with(alloc, instance.as_str(), plan, &[]).expect(rt, "memory");
    assert_run(rt, alloc, "improve A P O", &mut shelf, Status::Done, put);
    assert_run(rt, alloc, "improve A O R", &mut shelf, Status::Done, again);
}

#[test]
fn a_fleet_of_more_than_128_customers_is_improved_from_no_plan(rt: HostRuntime) {
    let (put, again) = ("cost 584/1\nwas none\n", "cost 584/1\nwas 584/1\n");
    assert_in_pairs(&rt, rt.alloc(), 129, NONE, put, again);
}

#[test]
fn a_plan_of_more_than_128_customers_is_improved_to_its_end(rt: HostRuntime) {
    let alloc = rt.alloc();
    let plan = crossed_plan(alloc, 132).expect(&rt, "memory");
    let (put, again) = ("cost 594/1\nwas 1056/1\n", "cost 594/1\nwas 594/1\n");
    assert_in_pairs(&rt, alloc, 132, plan.as_str(), put, again);
}

#[test]
fn an_instance_of_150_customers_is_made_and_told_the_same_twice(rt: HostRuntime) {
    let alloc = rt.alloc();
    for _ in 0..2 {
        let mut shelf = shelf_with(alloc, "", NONE, &[]).expect(&rt, "memory");
        let made = "nodes 151\ndenominator 136\ninfeasible\n";
        assert_run(
            &rt,
            alloc,
            "make 7 150 0 A",
            &mut shelf,
            Status::Negative,
            made,
        );
        assert_run(
            &rt,
            alloc,
            "improve A P O",
            &mut shelf,
            Status::Negative,
            "alone 2\n",
        );
    }
}

#[test]
fn one_of_65_customers_who_cannot_be_served_leaves_no_bound(rt: HostRuntime) {
    let alloc = rt.alloc();
    let ways = Ways {
        customers: 65,
        ..IN_PAIRS
    };
    let instance = ways.text(alloc, 100).expect(&rt, "memory");
    let mut shelf = shelf_with(alloc, instance.as_str(), "", &[]).expect(&rt, "memory");
    for &(line, status, put) in &[
        (
            "bound A O --near 2 --limit 100",
            Status::Negative,
            "infeasible\n",
        ),
        (
            "check-bound A O --limit 100",
            Status::Done,
            "accepted\nbound none\n",
        ),
    ] {
        assert_run(&rt, alloc, line, &mut shelf, status, put);
    }
}
