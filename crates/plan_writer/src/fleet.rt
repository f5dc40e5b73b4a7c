//! The text of `fleet`.

ghost use Rattle.std.specs.Prelude.{◌≡◌, ◌≢◌, ◌*◌, ◌^◌, ◌≤◌, ◌++◌, OnErr, OnOk};
ghost use Rattle.ev_text.specs.Scans.{IsPrefixOf};
ghost use Rattle.plan_writer.specs.FleetText.{AreOutcomes, IsExactLine, IsLowestLine, fleet_text, nodes_line, root_line};

use instance_reader::Instance;
use report_lines::{
    Fraction, lowest_terms, push_bounds, push_fraction, push_infeasible, push_number_line,
    push_word,
};
use std::alloc::{AllocError, Global};

/// What the root of a search shows, as a line tells it.
#[derive(Clone, Copy, Debug, Drop, PartialEq, Eq)]
pub enum RootLine {
    /// That there is no fractional cover: no line.
    Empty,
    /// The linear optimum `p / q` in units of time, in lowest terms.
    Exact { p: i128, q: u128 },
    /// That the numbers of a basis are too wide to go on.
    Wide,
}

impl RootLine {
    /// The line of an exact root: the price sum of its section over the product of the section's
    /// weight and the instance's denominator, both divided by their greatest common divisor. It
    /// takes no memory.
    pub fn exact(price_sum: i128, weight: u64, inst: &Instance) -> RootLine
        requires some { 1 ≤ weight }
        requires small { weight ≤ 2 ^ 40 }
        ensures value { IsExactLine price_sum (weight * inst.now.denominator) result }
        ensures lowest { IsLowestLine result }
        ensures shown { result ≢ RootLine.Empty }
    {
        let product = u128::from(weight) * u128::from(inst.denominator());
        let Fraction { p, q } = lowest_terms(price_sum, product);
        RootLine::Exact { p, q }
    }
}

/// What a search for the cheapest fleet plan ends with.
#[derive(Clone, Copy, Debug, Drop, PartialEq, Eq)]
pub struct Outcomes {
    /// The scaled cost of the plan that is held.
    pub cost: Option<u128>,
    /// The scaled bound on the cost of every fleet plan; `None` where there is no fleet plan.
    pub bound: Option<u128>,
    /// What the root shows.
    pub root: RootLine,
    /// How many nodes were looked at, where the budget ended the search.
    pub stopped: Option<u64>,
}

/// Appends what `fleet` puts: the scaled cost, the scaled bound, and the bound taken from the cost,
/// each over the instance's denominator, never reduced, or `none` where no plan is held; what the
/// root shows; and where the budget ended the search, how many nodes were looked at. Where there is
/// no bound it is `infeasible` alone.
///
/// After an `Err` `out` has kept its old bytes as a prefix.
pub fn push_fleet_report(
    alloc: Global,
    out: &mut Vec<u8>,
    inst: &Instance,
    outcomes: &Outcomes,
) -> Result<(), AllocError>
    requires { AreOutcomes outcomes.now }
    ensures ok { OnOk result
        (out.new.items ≡ out.old.items ++ fleet_text inst.now.denominator outcomes.now) }
    ensures err { OnErr result (IsPrefixOf out.old.items out.new.items) }
{
    match outcomes.bound {
        Some(bound) => {
            push_bounds(alloc, out, outcomes.cost, Some(bound), inst.denominator())?;
            push_root(alloc, out, &outcomes.root)?;
            push_nodes(alloc, out, outcomes.stopped)
        }
        None => push_infeasible(out),
    }
}

/// Appends the line of a root.
fn push_root(alloc: Global, out: &mut Vec<u8>, root: &RootLine) -> Result<(), AllocError>
    ensures ok { OnOk result (out.new.items ≡ out.old.items ++ root_line root.now) }
    ensures err { OnErr result (IsPrefixOf out.old.items out.new.items) }
{
    match root {
        RootLine::Empty => Ok(()),
        RootLine::Exact { p, q } => push_exact(alloc, out, *p, *q),
        RootLine::Wide => push_word(out, b"root wide\n"),
    }
}

/// Appends the line of an exact root.
fn push_exact(alloc: Global, out: &mut Vec<u8>, p: i128, q: u128) -> Result<(), AllocError>
    ensures ok { OnOk result (out.new.items ≡ out.old.items ++ root_line (RootLine.Exact p q)) }
    ensures err { OnErr result (IsPrefixOf out.old.items out.new.items) }
{
    out.extend_from_slice(b"root exact ")?;
    push_fraction(alloc, out, Fraction { p, q })?;
    out.extend_from_slice(b"\n")
}

/// Appends the line of the nodes that were looked at, where the budget ended the search.
fn push_nodes(alloc: Global, out: &mut Vec<u8>, stopped: Option<u64>) -> Result<(), AllocError>
    ensures ok { OnOk result (out.new.items ≡ out.old.items ++ nodes_line stopped) }
    ensures err { OnErr result (IsPrefixOf out.old.items out.new.items) }
{
    match stopped {
        Some(nodes) => push_number_line(alloc, out, b"nodes ", nodes as u128),
        None => Ok(()),
    }
}
