//! What pricing of near routes is asked.

ghost use Rattle.std.specs.Prelude.{◌≡◌, ◌≤◌, IfOk, length};
ghost use Rattle.std.specs.List.{All};
ghost use Rattle.instance_reader.specs.Instance.{customer_nodes, most_customers};
ghost use Rattle.near_proof.specs.Faults.{TellsFault, terms_in};
ghost use Rattle.near_proof.specs.Ranges.{NearLabelFits, SetsFit};
ghost use Rattle.near_pricing.specs.Questions.{IsQuestion, most_price};

use instance_reader::Instance;
use near_proof::{NearLabel, NearLabelFault, NearTerms, first_fault};
use std::alloc::{AllocError, Global};
use std::marker::Model;

/// What near routes are judged by, on an instance. Contracts see these.
#[derive(Drop)]
pub(crate) struct Question<'a> {
    pub(crate) inst: &'a Instance,
    pub(crate) terms: NearTerms<'a>,
}

impl<'a> Model for Question<'a> {
    ghost use Rattle.near_pricing.specs.Questions.{Question};
    ghost use Rattle.near_pricing.specs.Inside.{IsSoundQuestion, question};

    ghost Value = { Question };

    ghost view = { question };

    ghost invariant = { IsSoundQuestion };
}

impl<'a> Question<'a> {
    /// The question.
    pub(crate) fn new(inst: &'a Instance, terms: NearTerms<'a>) -> Question<'a>
        requires few { length (customer_nodes inst.now) ≤ most_customers }
        requires weight { terms.weight ≤ 1 }
        requires one_price { length terms.prices.now ≡ length (customer_nodes inst.now) }
        requires sets { SetsFit (length (customer_nodes inst.now)) terms.sets.now }
        requires small { All (λ price. price ≤ most_price) terms.prices.now }
        ensures { result ≡ record { network = inst.now; terms = terms_in terms.entry } }
    {
        // That the instance's network is one is told by its calls.
        let _nodes = inst.nodes();
        Question { inst, terms }
    }

    /// The instance.
    pub(crate) fn instance(&self) -> &'a Instance
        ensures same { result.now ≡ self.now.network }
        ensures question { IsQuestion self.now }
    {
        self.inst
    }

    /// The weight of time, prices and near sets.
    pub(crate) fn terms(&self) -> NearTerms<'a>
        ensures same { terms_in result ≡ self.now.terms }
        ensures question { IsQuestion self.now }
    {
        self.terms
    }

    /// The first place where labels are not closed.
    pub(crate) fn first_fault(
        &self,
        alloc: Global,
        labels: &[NearLabel],
    ) -> Result<Option<NearLabelFault>, AllocError>
        requires { All (NearLabelFits self.now.network) labels.now }
        ensures { IfOk result (TellsFault self.now.network (record {
          terms = self.now.terms;
          labels = labels.now;
        })) }
    {
        first_fault(alloc, self.inst, self.terms, labels)
    }
}
