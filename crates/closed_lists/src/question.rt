//! What a list of labels is tested for.

ghost use Rattle.std.specs.Prelude.{◌≡◌, ◌*◌, ◌+ℤ◌, ◌<◌, ◌^◌, ◌≤◌, All, IfOk, IfSome, length, slice_index_or, unsigned_abs};
ghost use Rattle.ev_model.specs.Network.{node_count, scaled_limit};
ghost use Rattle.customer_sets.specs.Pairs.{allows_of};
ghost use Rattle.fleet_model.specs.Places.{place_of};
ghost use Rattle.fleet_model.specs.Prices.{price_of, price_sum};
ghost use Rattle.instance_reader.specs.Instance.{customer_nodes, IsCustomerNumber};
ghost use Rattle.piece_fn.specs.declared.label.Label.{Label};
ghost use Rattle.closed_lists.specs.Links.{AreEntries};
ghost use Rattle.closed_lists.specs.Sections.{IsLabelOf};
ghost use Rattle.closed_lists.specs.Questions.{IsQuestion};

use crate::links::{ByNodes, Kept};
use crate::paid::price_sum;
use crate::places::Places;
use customer_sets::Pairs;
use instance_reader::Instance;
use label_index::{Entry, entries};
use piece_fn::Label;
use std::alloc::{AllocError, Global};
use std::marker::Model;

/// Labels under a weight, prices by customer number, and forbidden pairs, on an instance. Contracts
/// see these.
///
/// Without labels it tells the steps of a search for labels.
#[derive(Drop)]
pub struct Question<'a> {
    pub(crate) inst: &'a Instance,
    pub(crate) pairs: &'a Pairs,
    pub(crate) weight: u64,
    pub(crate) prices: &'a [i128],
    pub(crate) labels: &'a [Label],
    pub(crate) entries: Vec<Entry<Kept>>,
    pub(crate) places: Places,
}

impl<'a> Model for Question<'a> {
    ghost use Rattle.closed_lists.specs.Inside.{IsSoundQuestion, question};
    ghost use Rattle.closed_lists.specs.Questions.{Question};

    ghost Value = { Question };

    ghost view = { question };

    ghost invariant = { IsSoundQuestion };
}

impl<'a> Question<'a> {
    /// The question with its labels linked.
    pub fn new(
        alloc: Global,
        inst: &'a Instance,
        pairs: &'a Pairs,
        weight: u64,
        prices: &'a [i128],
        labels: &'a [Label],
    ) -> Result<Question<'a>, AllocError>
        requires { IsQuestion (record {
          network = inst.now;
          pairs = pairs.now;
          weight = weight;
          prices = prices.now;
          labels = labels.now;
        }) }
        ensures { IfOk result (λ s. s ≡ record {
          network = inst.now;
          pairs = pairs.now;
          weight = weight;
          prices = prices.now;
          labels = labels.now;
        }) }
    {
        let indexing = ByNodes {
            nodes: inst.nodes(),
            prices,
        };
        let entries = entries(alloc, &indexing, labels)?;
        let places = Places::new(alloc, prices.len(), entries.as_slice(), labels)?;
        Ok(Question {
            inst,
            pairs,
            weight,
            prices,
            labels,
            entries,
            places,
        })
    }

    /// The instance. It takes no memory.
    pub fn instance(&self) -> &Instance
        ensures { result.now ≡ self.now.network }
    {
        self.inst
    }

    /// The weight of time. It takes no memory.
    pub fn weight(&self) -> u64
        ensures { result ≡ self.now.weight }
    {
        self.weight
    }

    /// The prices, by customer number. It takes no memory.
    pub fn prices(&self) -> &[i128]
        ensures value { result.now ≡ self.now.prices }
        ensures few { length result.now ≤ 128 }
        ensures small { All (λ price. unsigned_abs price ≤ 2 ^ 84) result.now }
    {
        self.prices
    }

    /// The limit on the scaled time of a route. It takes no memory.
    pub fn scaled_limit(&self) -> u64
        ensures value { result ≡ scaled_limit self.now.network }
        ensures small { result ≤ 10 ^ 18 }
    {
        self.inst.scaled_limit()
    }

    /// The label with a number.
    pub(crate) fn label(&self, number: usize) -> &Label
        requires { number < length self.now.labels }
        ensures value { (d : Label) → result.now ≡ slice_index_or self.now.labels number d }
        ensures label { IsLabelOf self.now.network result.now }
    {
        let labels = self.labels;
        &labels[number]
    }

    /// What the label with a number has paid: the price sum of its set.
    pub(crate) fn paid(&self, number: usize) -> i128
        requires { number < length self.now.labels }
        ensures value { (d : Label) → result
            ≡ price_sum self.now.prices (slice_index_or self.now.labels number d).set }
        ensures small { unsigned_abs result ≤ 2 ^ 91 }
    {
        price_sum(self.prices, self.label(number).set)
    }

    /// The entries of the labels.
    pub(crate) fn entries(&self) -> &[Entry<Kept>]
        ensures are { AreEntries (node_count self.now.network) self.now.prices self.now.labels
            result.now }
        ensures labels { All (IsLabelOf self.now.network) self.now.labels }
    {
        self.entries.as_slice()
    }

    /// Which entries are looked at first.
    pub(crate) fn places(&self) -> &Places {
        &self.places
    }

    /// The reserve. It takes no memory.
    pub fn reserve(&self) -> u64
        ensures value { result ≡ self.now.network.reserve }
        ensures small { result ≤ 10 ^ 9 }
    {
        self.inst.min_q()
    }

    /// The number of the customer at a node; `None` exactly where the node is no customer. It takes
    /// no memory.
    pub fn customer_number(&self, node: usize) -> Option<usize>
        requires { node < node_count self.now.network }
        ensures value { IsCustomerNumber self.now.network node result }
        ensures within { IfSome result (λ number.
            number < length (customer_nodes self.now.network)) }
        ensures small { IfSome result (λ number. number < 128) }
    {
        self.inst.customer_number(node)
    }

    /// Whether a node may follow a last customer's node on a route. It takes no memory.
    pub fn allows(&self, last: usize, node: usize) -> bool
        requires last { last < node_count self.now.network }
        requires node { node < node_count self.now.network }
        ensures { result ≡ allows_of self.now.pairs (place_of self.now.network last)
            (place_of self.now.network node) }
    {
        let before = self.inst.place_of(last);
        let next = self.inst.place_of(node);
        self.pairs.allows(before, next)
    }

    /// What is paid when a customer is served besides.
    pub(crate) fn paid_with(&self, paid: i128, customer: usize) -> i128
        requires small { unsigned_abs paid ≤ 2 ^ 91 }
        requires customer { customer < length (customer_nodes self.now.network) }
        ensures value { result ≡ price_of self.now.prices customer +ℤ paid }
        ensures small { unsigned_abs result ≤ 2 ^ 92 }
    {
        let prices = self.prices;
        prices[customer] + paid
    }
}
