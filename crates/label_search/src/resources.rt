//! What labels are to a search.

ghost use Rattle.std.specs.Prelude.{◌≡◌, ◌<◌, ◌≤◌, ◌^◌, ℕ, All, IfNone, IfOk, IfSome, List, unsigned_abs};
ghost use Rattle.charge_curve.specs.Points.{ArePoints};
ghost use Rattle.ev_model.specs.Network.{node_count};
ghost use Rattle.label_search.specs.Answers.{TellsFault};
ghost use Rattle.label_search.specs.Laws.{IsLawful};
ghost use Rattle.label_search.specs.Space.{Space};
ghost use Rattle.label_search.specs.Steps.{IsInRange, IsListed, IsStart, Leads};

use completion_bounds::Completion;
use customer_sets::CustSet;
use instance_reader::Instance;
use piece_fn::PieceFn;
use std::alloc::{AllocError, Global};

/// When a label may make another needless that falls into the same group.
#[derive(Clone, Copy, Debug, PartialEq, Eq)]
pub enum Care {
    /// Whoever is remembered. Few labels are kept, and better routes may be missed.
    Quick,
    /// Only where it remembers no other customer.
    Exact,
    /// Only where it covers the other's states besides.
    Certain,
}

/// What listed labels lack. They are counted from 0.
#[derive(Clone, Copy, Debug, PartialEq, Eq)]
pub enum ListFault {
    /// The start.
    Start,
    /// What the step of the label to the node leads to.
    Step { label: usize, node: usize },
    /// Nothing: a way home from the label earns.
    End { label: usize },
}

/// What labels are to a search: what they remember and have earned, which steps may be made from
/// them, when one makes another needless, and which may be left out.
///
/// Clauses are owed where what is found has to be true. What spares a search steps and labels (the
/// calls on a table, on groups, on who is remembered) has none: were it wrong, a search would find
/// less, and its list of labels would be mended.
pub trait Resources {
    /// What a search compares.
    type Label: Drop;
    /// What the labels behind a step have in common.
    type Target: Drop;
    /// What the steps from a label have in common. No clause speaks of it.
    type Leaving: Drop;
    /// A route that earns.
    type Route: Drop;

    // what labels, targets and routes are
    ghost space: { Self → Space Self.Label Self.Target Self.Route };

    /// The instance. It takes no memory.
    fn instance(&self) -> &Instance
        ensures same { result.now ≡ (space self.now).network }
        ensures lawful { IsLawful (space self.now) };

    /// The weight of a unit of scaled time. It takes no memory.
    fn weight(&self) -> u64;

    /// The label at the depot, with a full battery at time 0.
    fn start(&self, alloc: Global) -> Self::Label
        ensures { IsStart (space self.now) result };

    /// A label with the same numbers.
    fn copy(&self, alloc: Global, label: &Self::Label) -> Result<Self::Label, AllocError>
        ensures same { IfOk result (λ copy. copy ≡ label.now) }
        ensures valid { IfOk result (λ copy. ArePoints ((space self.now).value copy)) };

    /// The node of a label. It takes no memory.
    fn node(&self, label: &Self::Label) -> usize
        ensures { result ≡ (space self.now).node label.now };

    /// The value of a label. It takes no memory.
    fn value<'b>(&self, label: &'b Self::Label) -> &'b PieceFn
        ensures { result.now ≡ (space self.now).value label.now };

    /// The customers who are remembered. It takes no memory.
    fn memory(&self, label: &Self::Label) -> CustSet;

    /// How many customers are told apart, 128 at the most. It takes no memory.
    fn customers(&self) -> usize;

    /// Into how many groups labels fall. It takes no memory.
    fn groups(&self) -> usize
        ensures { result ≡ (space self.now).groups };

    /// The group of a label: labels of other groups don't make it needless. It takes no memory.
    fn group(&self, label: &Self::Label) -> usize
        requires { IsInRange (space self.now) label.now }
        ensures { result < (space self.now).groups };

    /// The level of a label below which none counts, by a table of ways home. It takes no memory.
    fn least_level(&self, table: &Completion, label: &Self::Label) -> u64;

    /// Whether of a group the labels that were found last are looked at first.
    fn latest_first(&self) -> bool;

    /// Whether a label may make another one needless by all that isn't its group, its level, its
    /// time, what it has earned and whom it remembers. It takes no memory.
    fn covers(&self, care: Care, own: &Self::Label, other: &Self::Label) -> bool;

    /// What the steps from a label have in common, with what a table of ways home says of its
    /// value. It takes no memory.
    fn leaving(&self, label: &Self::Label, budget: u64) -> Self::Leaving;

    /// Whether the step from a label to a node may pay, as far as can be told at once. It takes no
    /// memory.
    fn may_lead(
        &self,
        table: &Completion,
        from: &Self::Label,
        leaving: &Self::Leaving,
        node: usize,
    ) -> bool
        requires { node < node_count (space self.now).network };

    /// Where the step from a label, which has earned so much, to a node leads, if one may be made.
    /// It takes no memory.
    fn target(&self, from: &Self::Label, earned: i128, node: usize) -> Option<Self::Target>
        requires label { IsInRange (space self.now) from.now }
        requires node { node < node_count (space self.now).network }
        ensures leads { IfSome result (λ t. (value : List (ℕ × ℕ)) →
            Leads (space self.now) from.now ((space self.now).label t node value)) }
        ensures none { IfNone result ((space self.now).can_step from.now node → ⊥) };

    /// The customers who are remembered behind a step. It takes no memory.
    fn target_memory(&self, target: &Self::Target) -> CustSet;

    /// What is earned behind a step. It takes no memory.
    fn target_earned(&self, target: &Self::Target) -> i128
        ensures { unsigned_abs result ≤ 2 ^ 91 };

    /// The label behind a step, at a node with a value. It takes no memory.
    fn label(&self, target: &Self::Target, node: usize, value: PieceFn) -> Self::Label
        ensures { result ≡ (space self.now).label target.now node value };

    /// What a label, which has earned so much, earns at home beyond what it takes, or any other
    /// number; `None` where it doesn't earn.
    fn gain(&self, label: &Self::Label, earned: i128) -> Result<Option<u128>, AllocError>
        requires { IsInRange (space self.now) label.now }
        ensures { IfOk result (λ gain. IfSome gain (λ _. (space self.now).earns label.now)) };

    /// Whether the route of a label that earns is kept, where the best one before has so much gain.
    /// It takes no memory.
    fn keeps(&self, gain: u128, best: u128) -> bool;

    /// The route that serves the customers at these nodes in this order.
    fn route(&self, alloc: Global, order: Vec<usize>) -> Result<Self::Route, AllocError>
        requires { (space self.now).has_route order.items }
        ensures { IfOk result (space self.now).is_route };

    /// What listed labels lack; `None` where they show that no route earns.
    fn first_fault(
        &self,
        alloc: Global,
        labels: &[Self::Label],
    ) -> Result<Option<ListFault>, AllocError>
        requires { All (IsListed (space self.now)) labels.now }
        ensures { IfOk result (TellsFault (space self.now) labels.now) };

    /// Whether a search is to go on: it is asked between two labels.
    fn goes_on(&self) -> bool;
}
