//! Whether the labels of a leaf are closed under the steps of near routes, and where not.

ghost use Rattle.std.specs.Prelude.{IfOk};
ghost use Rattle.near_tree.specs.Judging.{IsJudge, TellsBadHome, TellsBadStep, TellsFault};
ghost use Rattle.near_tree.specs.Sites.{IsSite, leaf_of};

use crate::judge::Judge;
use crate::links::ByNode;
use crate::looking::Known;
use crate::site::Site;
use label_index::entries;
use near_proof::Looks;
use std::alloc::{AllocError, Global};

/// Where the labels of a leaf are not closed. Labels are counted from 0.
#[derive(Clone, Copy)]
pub(crate) enum LeafFault {
    /// No label covers the start.
    Start,
    /// A step from the label to the node leads to a state that no label covers.
    Step { label: usize, node: usize },
    /// A step home takes, times the weight, less than the label has earned.
    Home { label: usize },
}

/// The first place where the labels of a leaf are not closed; `None` where they are.
pub(crate) fn first_fault(alloc: Global, site: &Site<'_>) -> Result<Option<LeafFault>, AllocError>
    requires { IsSite site.now }
    ensures { IfOk result (TellsFault site.now.inst.now (leaf_of site.now)) }
{
    let may = site.may_rows(alloc)?;
    let stands = site.stand_rows(alloc, &may)?;
    let entries = entries(alloc, &ByNode, site.section.labels.as_slice())?;
    let judge = Judge {
        site: *site,
        may: may.as_slice(),
        stands: stands.as_slice(),
        entries: entries.as_slice(),
    };
    judge.first_fault(alloc)
}

impl Judge<'_> {
    /// The first place where the labels are not closed; `None` where they are.
    fn first_fault(&self, alloc: Global) -> Result<Option<LeafFault>, AllocError>
        requires { IsJudge self.now }
        ensures { IfOk result (TellsFault self.now.site.inst.now (leaf_of self.now.site)) }
    {
        if !self.covers_start(alloc) {
            return Ok(Some(LeafFault::Start));
        }
        let mut looks = self.looks(alloc)?;
        if let Some((label, node)) = self.bad_step(alloc, &mut looks)? {
            return Ok(Some(LeafFault::Step { label, node }));
        }
        match self.bad_home()? {
            Some(label) => Ok(Some(LeafFault::Home { label })),
            None => Ok(None),
        }
    }

    /// The first step to a customer or a station that leads to a state that is not covered, by its
    /// label's number and the node.
    fn bad_step(
        &self,
        alloc: Global,
        looks: &mut Looks<Known>,
    ) -> Result<Option<(usize, usize)>, AllocError>
        requires { IsJudge self.now }
        ensures { IfOk result (TellsBadStep self.now.site.inst.now (leaf_of self.now.site)) }
    {
        let labels = self.site.section.labels.as_slice();
        for (number, label) in labels.iter().enumerate() {
            if let Some(node) = self.uncovered_node(alloc, looks, label)? {
                return Ok(Some((number, node)));
            }
        }
        Ok(None)
    }

    /// The number of the first label from which a step home earns more than it takes.
    fn bad_home(&self) -> Result<Option<usize>, AllocError>
        requires { IsJudge self.now }
        ensures { IfOk result (TellsBadHome self.now.site.inst.now (leaf_of self.now.site)) }
    {
        let labels = self.site.section.labels.as_slice();
        for (number, label) in labels.iter().enumerate() {
            if self.earns_at_home(label)? {
                return Ok(Some(number));
            }
        }
        Ok(None)
    }
}
