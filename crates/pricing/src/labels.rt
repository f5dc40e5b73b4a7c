//! The labels of free routes: who was served, and after whom.

ghost use Rattle.std.specs.Prelude.{◌≡◌, ◌<◌, ◌≤◌, ◌^◌, [], All, IfOk, length, unsigned_abs};
ghost use Rattle.ev_model.specs.Network.{node_count};
ghost use Rattle.closed_lists.specs.Sections.{IsLabelOf};
ghost use Rattle.instance_reader.specs.Instance.{customer_nodes, most_customers};

use crate::arcs::{Arcs, Leaving};
use crate::priced::PricedRoute;
use closed_lists::{ClosedFault, Question, check_closed, price_sum};
use completion_bounds::Completion;
use customer_sets::{CustSet, Pairs};
use dominance::LabelValue;
use instance_reader::Instance;
use label_search::{Care, ListFault, Resources, fastest_along};
use label_steps::drive_time;
use piece_fn::{Label, PieceFn};
use std::alloc::{AllocError, Global};
use std::marker::Model;

/// Labels under forbidden pairs, a weight and prices, on an instance. Contracts see these.
#[derive(Drop)]
pub(crate) struct RouteLabels<'a> {
    inst: &'a Instance,
    pairs: &'a Pairs,
    question: Question<'a>,
    /// By which steps are left out that can't be made.
    arcs: Arcs,
}

impl<'a> Model for RouteLabels<'a> {
    ghost use Rattle.closed_lists.specs.Questions.{Question};
    ghost use Rattle.pricing.specs.Inside.{IsSoundInside};

    ghost Value = { Question };

    ghost view = { λ r. r.question };

    ghost invariant = { IsSoundInside };
}

impl<'a> RouteLabels<'a> {
    /// The labels of a question.
    pub(crate) fn new(
        alloc: Global,
        inst: &'a Instance,
        pairs: &'a Pairs,
        weight: u64,
        prices: &'a [i128],
    ) -> Result<RouteLabels<'a>, AllocError>
        requires few { length (customer_nodes inst.now) ≤ most_customers }
        requires pairs { pairs.now.customers ≡ length (customer_nodes inst.now) }
        requires weight { weight ≤ 2 ^ 40 }
        requires one_price { length prices.now ≡ length (customer_nodes inst.now) }
        requires small_prices { All (λ price. unsigned_abs price ≤ 2 ^ 84) prices.now }
        ensures { IfOk result (λ r. r ≡ record {
          network = inst.now;
          pairs = pairs.now;
          weight = weight;
          prices = prices.now;
          labels = [];
        }) }
    {
        let question = Question::new(alloc, inst, pairs, weight, prices, &[])?;
        let arcs = Arcs::new(alloc, &question)?;
        Ok(RouteLabels {
            inst,
            pairs,
            question,
            arcs,
        })
    }

    /// What is asked.
    pub(crate) fn question(&self) -> &Question<'a>
        ensures { result.now ≡ self.now }
    {
        &self.question
    }

    /// Whether a label, which has earned so much, may earn more than a way home from it takes, by
    /// its least time and that of the arc home.
    fn may_earn(&self, label: &Label, earned: i128) -> bool
        requires { label.now.node < node_count self.now.network }
    {
        let (_, time) = label.value.least();
        let home = drive_time(self.inst, label.node, 0);
        let owed = u128::from(self.question.weight()) * u128::from(time.saturating_add(home));
        earned > 0 && owed < earned.unsigned_abs()
    }

    /// What is paid for at a node, by what was paid for before it; 0 where that is past 2^91, which
    /// prices in their ranges never add up to.
    fn paid_at(&self, paid: i128, node: usize) -> i128
        requires { node < node_count self.now.network }
        ensures { unsigned_abs result ≤ 2 ^ 91 }
    {
        let prices = self.question.prices();
        let sum = match self.question.customer_number(node) {
            Some(number) => paid.saturating_add(prices.get(number).copied().unwrap_or(0)),
            None => paid,
        };
        if sum.unsigned_abs() > 1 << 91 { 0 } else { sum }
    }
}

/// Where a step leads: the last customer's node, the customers served behind it, and what is paid
/// for them.
#[derive(Clone, Copy, Drop)]
pub(crate) struct Target {
    pub(crate) last: usize,
    pub(crate) set: CustSet,
    pub(crate) paid: i128,
}

impl Resources for RouteLabels<'_> {
    type Label = Label;

    type Target = Target;

    type Leaving = Leaving;

    type Route = PricedRoute;

    ghost use Rattle.pricing.specs.Labels.{route_space};

    ghost space = { route_space };

    fn instance(&self) -> &Instance {
        self.inst
    }

    fn weight(&self) -> u64 {
        self.question.weight()
    }

    fn start(&self, alloc: Global) -> Label {
        Label {
            last: 0,
            node: 0,
            set: CustSet::empty(),
            value: PieceFn::point(alloc, self.inst.max_q(), 0),
        }
    }

    fn copy(&self, alloc: Global, label: &Label) -> Result<Label, AllocError> {
        Ok(Label {
            last: label.last,
            node: label.node,
            set: label.set,
            value: PieceFn::from_points(alloc, label.value.points())?,
        })
    }

    fn node(&self, label: &Label) -> usize {
        label.node
    }

    fn value<'b>(&self, label: &'b Label) -> &'b PieceFn {
        &label.value
    }

    fn memory(&self, label: &Label) -> CustSet {
        label.set
    }

    fn customers(&self) -> usize {
        self.question.prices().len()
    }

    fn groups(&self) -> usize {
        self.inst.nodes() * self.inst.nodes()
    }

    fn group(&self, label: &Label) -> usize {
        label.last * self.inst.nodes() + label.node
    }

    fn least_level(&self, table: &Completion, label: &Label) -> u64 {
        table.need(label.node)
    }

    /// Those that were found first, since most labels that are asked for are needless.
    fn latest_first(&self) -> bool {
        false
    }

    fn covers(&self, _care: Care, _own: &Label, _other: &Label) -> bool {
        true
    }

    fn leaving(&self, label: &Label, _budget: u64) -> Leaving {
        self.arcs.leaving(label)
    }

    fn may_lead(&self, _table: &Completion, _from: &Label, leaving: &Leaving, node: usize) -> bool {
        self.arcs.may_lead(leaving, node)
    }

    /// To a station, or to a customer who isn't served yet and may follow the last one.
    fn target(&self, from: &Label, earned: i128, node: usize) -> Option<Target> {
        if node == from.node {
            return None;
        }
        if self.inst.curve_at(node).is_some() {
            return Some(Target {
                last: from.last,
                set: from.set,
                paid: earned,
            });
        }
        let Some(customer) = self.question.customer_number(node) else {
            return None;
        };
        if from.set.has(customer) {
            return None;
        }
        if !self.question.allows(from.last, node) {
            return None;
        }
        Some(Target {
            last: node,
            set: from.set.with(customer),
            paid: self.paid_at(earned, node),
        })
    }

    fn target_memory(&self, target: &Target) -> CustSet {
        target.set
    }

    fn target_earned(&self, target: &Target) -> i128 {
        if target.paid.unsigned_abs() > 1 << 91 {
            0
        } else {
            target.paid
        }
    }

    fn label(&self, target: &Target, node: usize, value: PieceFn) -> Label {
        Label {
            last: target.last,
            node,
            set: target.set,
            value,
        }
    }

    /// Each number is the same here: all routes are kept.
    fn gain(&self, label: &Label, earned: i128) -> Result<Option<u128>, AllocError> {
        if !self.may_earn(label, earned) {
            return Ok(None);
        }
        let paid = price_sum(self.question.prices(), label.set);
        if !self.question.earns_at_home(label, paid)? {
            return Ok(None);
        }
        Ok(Some(0))
    }

    fn keeps(&self, _gain: u128, _best: u128) -> bool {
        true
    }

    fn route(&self, alloc: Global, order: Vec<usize>) -> Result<PricedRoute, AllocError> {
        let Some(plan) = fastest_along(alloc, self.inst, &order)? else {
            unreachable!();
        };
        Ok(PricedRoute { plan, order })
    }

    fn first_fault(
        &self,
        alloc: Global,
        labels: &[Label],
    ) -> Result<Option<ListFault>, AllocError> {
        let (weight, prices) = (self.question.weight(), self.question.prices());
        match check_closed(alloc, self.inst, self.pairs, weight, prices, labels) {
            Ok(()) => Ok(None),
            Err(ClosedFault::Start) => Ok(Some(ListFault::Start)),
            Err(ClosedFault::Step { label, node }) => Ok(Some(ListFault::Step { label, node })),
            Err(ClosedFault::End { label }) => Ok(Some(ListFault::End { label })),
            Err(ClosedFault::Memory) => Err(AllocError),
        }
    }

    fn goes_on(&self) -> bool {
        true
    }
}
