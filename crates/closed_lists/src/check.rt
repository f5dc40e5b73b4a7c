//! The test of a whole list.

ghost use Rattle.std.specs.Prelude.{◌≡◌, ◌^◌, ◌≤◌, All, IfErr, IfOk, false, length, true, unsigned_abs};
ghost use Rattle.fleet_model.specs.ClosedList.{IsClosed};
ghost use Rattle.fleet_model.specs.Coverage.{IsCovered};
ghost use Rattle.fleet_model.specs.Steps.{start};
ghost use Rattle.instance_reader.specs.Instance.{customer_nodes, most_customers};
ghost use Rattle.closed_lists.specs.Questions.{section};
ghost use Rattle.closed_lists.specs.Sections.{IsLabelOf, section_of};
ghost use Rattle.closed_lists.specs.Verdicts.{HasNoBadEnd, HasNoBadStep, IsFirstEnd, IsFirstStep, IsTold};

use crate::coverage::Target;
use crate::fault::ClosedFault;
use crate::question::Question;
use customer_sets::{CustSet, Pairs};
use instance_reader::Instance;
use label_steps::covers_all;
use piece_fn::{Label, PieceFn};
use std::alloc::Global;

/// Tests whether a list of labels is closed: `Ok` where it is, else the first broken rule.
///
/// A label stands for the states (last customer, node, set, level, time) at its levels; what it has
/// paid is the price sum of its set. It covers a state at the same node after the same customer
/// where its set is within the state's and it has a level at least as high, at a time no later,
/// whose weight times time less what it has paid is no more than the state's. `prices` are by
/// customer number, `weight` is that of time.
///
/// 1. The start is covered: the depot with a full battery at time 0, before any customer.
/// 2. Each step from a label to a customer or a station leads to a covered state. A step keeps the
///    reserve and the limit on the route's time; a customer isn't in the label's set and may follow
///    its last customer; at a station the vehicle charges any whole amount, and pays the time to
///    plug in where that isn't 0.
/// 3. No step home takes, times the weight, less than the label has paid. It is made after a
///    customer whom the depot may follow, and keeps the level at home besides.
///
/// The rules are tried in this order, each over all labels before the next.
pub fn check_closed(
    alloc: Global,
    inst: &Instance,
    pairs: &Pairs,
    weight: u64,
    prices: &[i128],
    labels: &[Label],
) -> Result<(), ClosedFault>
    requires few { length (customer_nodes inst.now) ≤ most_customers }
    requires pairs { pairs.now.customers ≡ length (customer_nodes inst.now) }
    requires weight { weight ≤ 2 ^ 40 }
    requires one_price { length prices.now ≡ length (customer_nodes inst.now) }
    requires small_prices { All (λ price. unsigned_abs price ≤ 2 ^ 84) prices.now }
    requires labels { All (IsLabelOf inst.now) labels.now }
    ensures closed { IfOk result
        (λ _. IsClosed inst.now (section_of pairs.now weight prices.now labels.now)) }
    ensures broken { IfErr result
        (IsTold inst.now (section_of pairs.now weight prices.now labels.now)) }
{
    let question = Question::new(alloc, inst, pairs, weight, prices, labels)?;
    if !question.covers_start(alloc) {
        return Err(ClosedFault::Start);
    }
    match question.check_steps(alloc) {
        Ok(()) => question.check_ends(),
        Err(fault) => Err(fault),
    }
}

impl Question<'_> {
    /// Whether the start is covered.
    fn covers_start(&self, alloc: Global) -> bool
        ensures covered { result ≡ true → IsCovered (section self.now) (start self.now.network) }
        ensures missed { result ≡ false →
            IsCovered (section self.now) (start self.now.network) → ⊥ }
    {
        let target = Target {
            last: 0,
            node: 0,
            set: CustSet::empty(),
            paid: 0,
        };
        let full = PieceFn::point(alloc, self.inst.max_q(), 0);
        covers_all(&self.asked(&target, 0), &full)
    }

    /// The first step to a customer or a station that leads to a state that is not covered, if
    /// there is one.
    fn check_steps(&self, alloc: Global) -> Result<(), ClosedFault>
        ensures good { IfOk result (λ _. HasNoBadStep self.now.network (section self.now)) }
        ensures bad { IfErr result (IsFirstStep self.now.network (section self.now)) }
    {
        for number in 0..self.labels.len() {
            let (label, paid) = (self.label(number), self.paid(number));
            if let Some(node) = self.uncovered_node(alloc, label, paid)? {
                return Err(ClosedFault::Step {
                    label: number,
                    node,
                });
            }
        }
        Ok(())
    }

    /// The first label from which a step home earns more than it takes, if there is one.
    fn check_ends(&self) -> Result<(), ClosedFault>
        ensures good { IfOk result (λ _. HasNoBadEnd self.now.network (section self.now)) }
        ensures bad { IfErr result (IsFirstEnd self.now.network (section self.now)) }
    {
        for number in 0..self.labels.len() {
            let (label, paid) = (self.label(number), self.paid(number));
            if self.earns_at_home(label, paid)? {
                return Err(ClosedFault::End { label: number });
            }
        }
        Ok(())
    }
}
