//! Labels under judgement.

ghost use Rattle.std.specs.Prelude.{◌≡◌};
ghost use Rattle.near_proof.specs.Judging.{IsJudge};

use crate::NearLabel;
use crate::coverage::{Asked, Target};
use crate::faults::NearTerms;
use instance_reader::Instance;
use label_index::Entry;

/// Labels on an instance, with their entries and what near routes are judged by.
#[derive(Clone, Copy)]
pub(crate) struct Judge<'a> {
    pub(crate) inst: &'a Instance,
    pub(crate) terms: NearTerms<'a>,
    pub(crate) labels: &'a [NearLabel],
    pub(crate) entries: &'a [Entry<()>],
}

impl<'a> Judge<'a> {
    /// The states of a target, asked of the labels.
    pub(crate) fn asked(&self, target: Target) -> Asked<'a>
        requires { IsJudge self.now }
        ensures { result ≡ record {
          weight = self.now.terms.weight;
          labels = self.now.labels.now;
          target = target;
        } }
    {
        Asked::new(self.terms.weight, self.labels, self.entries, target)
    }
}
