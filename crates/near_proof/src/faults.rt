//! Whether labels are closed under the steps of near routes, and where not.

ghost use Rattle.std.specs.Prelude.{◌≡◌, ◌≤◌, IfOk, length};
ghost use Rattle.std.specs.List.{All};
ghost use Rattle.instance_reader.specs.Instance.{customer_nodes, most_customers};
ghost use Rattle.near_proof.specs.Ranges.{NearLabelFits, SetsFit};
ghost use Rattle.near_proof.specs.Faults.{TellsFault, terms_in};
ghost use Rattle.near_proof.specs.Judging.{IsJudge, TellsBadEnd, TellsBadStep, judged};

use crate::NearLabel;
use crate::coverage::{Served, looks_of};
use crate::ends::earns_at_home;
use crate::judge::Judge;
use crate::links::ByNode;
use crate::looks::Looks;
use customer_sets::CustSet;
use instance_reader::Instance;
use label_index::entries;
use std::alloc::{AllocError, Global};

/// What near routes are judged by.
#[derive(Clone, Copy)]
pub struct NearTerms<'a> {
    /// The weight of a unit of scaled time: 1, or 0.
    pub weight: u64,
    /// The price of each customer, by number.
    pub prices: &'a [u64],
    /// The near set of each customer, by number: whom a vehicle that serves the customer goes on to
    /// remember.
    pub sets: &'a [CustSet],
}

/// Where labels are not closed. Labels are counted from 0.
#[derive(Clone, Copy, Debug, PartialEq, Eq)]
pub enum NearLabelFault {
    /// No label covers the start: the depot with a full battery at time 0, before any service.
    Start,
    /// A step from a level of the label to the node, a customer or a station, leads to a state that
    /// no label covers.
    Step { label: usize, node: usize },
    /// A step home from a level of the label takes, times the weight, less than the label has
    /// earned.
    End { label: usize },
}

/// The first place where labels are not closed; `None` where they are. The only `Err` is want of
/// memory.
///
/// The start comes before all steps, and these before the steps home; of the steps, those of the
/// least label, and then that to the least node. See [`crate::check_near`] for when a label covers
/// a state and what the steps are.
pub fn first_fault(
    alloc: Global,
    inst: &Instance,
    terms: NearTerms<'_>,
    labels: &[NearLabel],
) -> Result<Option<NearLabelFault>, AllocError>
    requires few { length (customer_nodes inst.now) ≤ most_customers }
    requires weight { terms.weight ≤ 1 }
    requires one_price { length terms.prices.now ≡ length (customer_nodes inst.now) }
    requires sets { SetsFit (length (customer_nodes inst.now)) terms.sets.now }
    requires labels { All (NearLabelFits inst.now) labels.now }
    ensures { IfOk result (TellsFault inst.now (record {
      terms = terms_in terms.entry;
      labels = labels.now;
    })) }
{
    let entries = entries(alloc, &ByNode, labels)?;
    let judge = Judge {
        inst,
        terms,
        labels,
        entries: entries.as_slice(),
    };
    if !judge.covers_start(alloc) {
        return Ok(Some(NearLabelFault::Start));
    }
    let mut looks = looks_of(alloc, terms.weight, inst.nodes(), labels)?;
    if let Some((label, node)) = judge.bad_step(alloc, &mut looks)? {
        return Ok(Some(NearLabelFault::Step { label, node }));
    }
    match judge.bad_end()? {
        Some(label) => Ok(Some(NearLabelFault::End { label })),
        None => Ok(None),
    }
}

impl Judge<'_> {
    /// The first step to a customer or a station that leads to a state that is not covered, by its
    /// label's number and the node.
    fn bad_step(
        &self,
        alloc: Global,
        looks: &mut Looks<Served>,
    ) -> Result<Option<(usize, usize)>, AllocError>
        requires { IsJudge self.now }
        ensures { IfOk result (TellsBadStep self.now.inst.now (judged self.now)) }
    {
        let labels = self.labels;
        for (number, label) in labels.iter().enumerate() {
            if let Some(node) = self.uncovered_node(alloc, looks, label)? {
                return Ok(Some((number, node)));
            }
        }
        Ok(None)
    }

    /// The number of the first label from which a step home earns more than it takes.
    fn bad_end(&self) -> Result<Option<usize>, AllocError>
        requires { IsJudge self.now }
        ensures { IfOk result (TellsBadEnd self.now.inst.now (judged self.now)) }
    {
        let labels = self.labels;
        for (number, label) in labels.iter().enumerate() {
            if earns_at_home(self.inst, self.terms.weight, label)? {
                return Ok(Some(number));
            }
        }
        Ok(None)
    }
}
