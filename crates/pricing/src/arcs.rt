//! Which steps a label can't make: those are left out before anything is made of them. No clause
//! rests on it.

ghost use Rattle.std.specs.Prelude.{◌<◌, ◌≡◌};
ghost use Rattle.ev_model.specs.Network.{node_count};

use crate::completion::next_of;
use closed_lists::Question;
use customer_sets::CustSet;
use dominance::LabelValue;
use label_steps::drive_time;
use piece_fn::Label;
use std::alloc::{AllocError, Global};

/// What the step from a node to another takes.
#[derive(Clone, Copy, Drop)]
struct Arc {
    /// The scaled time of the arc and the visit at its end.
    time: u64,
    /// The level that a vehicle has to have.
    level: u64,
    /// The number of the customer at its end; `None` where there is a station.
    customer: Option<usize>,
}

/// What the steps between nodes take, and who may be served next.
#[derive(Drop)]
pub(crate) struct Arcs {
    /// The scaled limit.
    limit: u64,
    /// The steps from a node, by both nodes.
    all: Vec<Vec<Arc>>,
    /// Who may be served behind a last customer's node, by the node.
    next: Vec<CustSet>,
}

/// A label that steps are made from.
#[derive(Clone, Copy, Drop)]
pub(crate) struct Leaving {
    node: usize,
    /// The greatest level.
    top: u64,
    /// The scaled time that is left.
    left: u64,
    /// The customers that were served.
    set: CustSet,
    /// Who may be served next.
    next: CustSet,
}

impl Arcs {
    /// The steps of an instance.
    pub(crate) fn new(alloc: Global, question: &Question<'_>) -> Result<Arcs, AllocError> {
        let mut all = Vec::new(alloc);
        let mut next = Vec::new(alloc);
        for from in 0..question.instance().nodes() {
            all.push(arcs_from(alloc, question, from)?)?;
            next.push(next_of(question, from))?;
        }
        Ok(Arcs {
            limit: question.scaled_limit(),
            all,
            next,
        })
    }

    /// What the steps from a label have in common.
    pub(crate) fn leaving(&self, label: &Label) -> Leaving {
        let (_, time) = label.value.least();
        let points = label.value.points();
        let (top, _) = points[points.len() - 1];
        Leaving {
            node: label.node,
            top,
            left: self.limit.saturating_sub(time),
            set: label.set,
            next: self
                .next
                .get(label.last)
                .copied()
                .unwrap_or(CustSet::empty()),
        }
    }

    /// Whether a step to a node may be made.
    pub(crate) fn may_lead(&self, from: &Leaving, node: usize) -> bool {
        let Some(row) = self.all.get(from.node) else {
            return false;
        };
        let Some(arc) = row.get(node) else {
            return false;
        };
        if arc.level > from.top || arc.time > from.left {
            return false;
        }
        match arc.customer {
            Some(number) => number < 128 && from.next.has(number) && !from.set.has(number),
            None => true,
        }
    }
}

/// The steps from a node, by the node to which they lead.
fn arcs_from(alloc: Global, question: &Question<'_>, from: usize) -> Result<Vec<Arc>, AllocError>
    requires { from < node_count question.now.network }
{
    let mut arcs = Vec::new(alloc);
    for to in 0..question.instance().nodes() {
        arcs.push(arc_of(question, from, to))?;
    }
    Ok(arcs)
}

/// The step from a node to another. To the node itself, and to one that is neither a customer's nor
/// a station's, none may be made.
fn arc_of(question: &Question<'_>, from: usize, to: usize) -> Arc
    requires from { from < node_count question.now.network }
    requires to { to < node_count question.now.network }
{
    let inst = question.instance();
    let customer = question.customer_number(to);
    let is_end = customer.is_some() || inst.curve_at(to).is_some();
    let level = if is_end && from != to {
        inst.energy(from, to).saturating_add(inst.min_q())
    } else {
        u64::MAX
    };
    Arc {
        time: drive_time(inst, from, to),
        level,
        customer,
    }
}
