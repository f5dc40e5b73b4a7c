//! What is answered at the end of a search.

ghost use Rattle.std.specs.Prelude.{◌≡◌, ◌≢◌, ◌<◌, ◌≤◌, length, false, IfOk, IfSome, IsTrue, None, [], ◌∷◌};
ghost use Rattle.std.specs.List.{All};
ghost use Rattle.bound_certificate.specs.Limits.{greatest_bound};
ghost use Rattle.instance_reader.specs.Instance.{customer_nodes, most_customers};
ghost use Rattle.ev_fleet.specs.Answers.{shares_in};
ghost use Rattle.ev_fleet.specs.Held.{cost_at};
ghost use Rattle.ev_fleet.specs.LeafNames.{IsLeastFrom, IsLesserAt, IsSummable, NameSections, leaf_names, lesser};
ghost use Rattle.ev_fleet.specs.Searching.{IsOutcomeOf, IsSearching, ShowsRoot, plan_at};
ghost use Rattle.ev_fleet.specs.Whole.{TakesShares};

use crate::held::Held;
use crate::kept::know_sections;
use crate::outcome::Outcome;
use crate::section_bound::bound_of;
use crate::state::FleetSearch;
use crate::taking::cost_of;
use bound_certificate::{Certificate, Root, Section, TreeLine};
use certificate_check::accepted_bounds_are_true;
use ev_list::Listed;
use instance_reader::Instance;
use route_plan::FleetPlan;
use std::alloc::{AllocError, Global};

/// The outcome of a search, with what shows the bound of its root.
pub(crate) fn outcome_of(
    alloc: Global,
    inst: &Instance,
    search: FleetSearch,
    root: Root,
) -> Result<Outcome, AllocError>
    requires few { length (customer_nodes inst.now) ≤ most_customers }
    requires searching { IsSearching inst.now search }
    requires root { ShowsRoot inst.now search.sections.items root }
    requires taken { TakesShares inst.now (shares_in root) (cost_at search.held) }
    ensures { IfOk result (IsOutcomeOf inst.now search) }
{
    let _ = inst.nodes();
    accepted_bounds_are_true();
    let FleetSearch {
        tree,
        sections,
        held,
        ..
    } = search;
    let lines = tree.lines(alloc)?;
    let bound = least_bound(sections.as_slice(), lines.as_slice());
    let nodes = sections.len() as u64;
    let cost = cost_of(&held);
    let stopped = differ(cost, bound);
    know_sections(sections.as_slice());
    Ok(Outcome {
        plan: plan_of(held),
        cost,
        certificate: Certificate {
            bound,
            root,
            sections: Listed::from_vec(sections),
            tree: Listed::from_vec(lines),
        },
        nodes,
        stopped,
    })
}

/// The plan that is held.
fn plan_of(held: Option<Held>) -> Option<FleetPlan>
    ensures { result ≡ plan_at held }
{
    match held {
        Some(held) => Some(held.plan),
        None => None,
    }
}

/// Whether the cost is another than the bound.
fn differ(cost: Option<u128>, bound: Option<u128>) -> bool
    ensures other { IsTrue result → cost ≢ bound }
    ensures same { result ≡ false → cost ≡ bound }
{
    cost != bound
}

/// The least bound of the sections that the leaves name.
fn least_bound(sections: &[Section], lines: &[TreeLine]) -> Option<u128>
    requires sums { All IsSummable sections.now }
    requires names { NameSections sections.now lines.now }
    ensures least { IsLeastFrom sections.now None lines.now result }
    ensures small { IfSome result (λ bound. bound ≤ greatest_bound) }
{
    let mut least = None;
    for line in lines {
        least = lesser_at(sections, line, least);
    }
    least
}

/// The lesser of a bound and that of the section that the line names, if it is a leaf.
fn lesser_at(sections: &[Section], line: &TreeLine, before: Option<u128>) -> Option<u128>
    requires sums { All IsSummable sections.now }
    requires names { NameSections sections.now (line.now ∷ []) }
    requires small { IfSome before (λ bound. bound ≤ greatest_bound) }
    ensures lesser { IsLesserAt sections.now before line.now result }
    ensures small { IfSome result (λ bound. bound ≤ greatest_bound) }
{
    match *line {
        TreeLine::Split { .. } => before,
        TreeLine::Leaf { section } => lesser(before, bound_of(&sections[section])),
    }
}

/// The lesser of two bounds; `None` is above every number.
fn lesser(first: Option<u128>, second: Option<u128>) -> Option<u128>
    ensures { result ≡ lesser first second }
{
    match (first, second) {
        (Some(first), Some(second)) => Some(first.min(second)),
        (Some(_), None) => first,
        (None, _) => second,
    }
}
