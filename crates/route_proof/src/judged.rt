//! Labels under test.

ghost use Rattle.std.specs.Prelude.{◌≡◌, ◌-◌, ◌<◌, IfOk, Some, length, slice_get, slice_index};
ghost use Rattle.std.specs.List.{All};
ghost use Rattle.ev_model.specs.Network.{node_count};
ghost use Rattle.ev_model.specs.Route.{IsRoute};
ghost use Rattle.route_proof.specs.Ranges.{RouteLabelFits};
ghost use Rattle.route_proof.specs.Links.{AreEntries};
ghost use Rattle.route_proof.specs.Questions.{IsQuestion};

use crate::RouteLabel;
use crate::links::{ByPlace, entries_at, key_of};
use instance_reader::Instance;
use label_index::{Entry, entries};
use route_steps::Place;
use std::alloc::{AllocError, Global};
use std::marker::Model;

/// The labels of a route under a bar, on an instance, and the charge that the vehicle starts with.
/// Contracts see these.
#[derive(Drop)]
pub(crate) struct Judged<'a> {
    inst: &'a Instance,
    route: &'a [usize],
    start: u64,
    bar: u64,
    labels: &'a [RouteLabel],
    entries: Vec<Entry<()>>,
    /// Of the labels with a full battery.
    full: Vec<Entry<()>>,
}

impl<'a> Model for Judged<'a> {
    ghost use Rattle.route_proof.specs.Inside.{IsJudged, question};
    ghost use Rattle.route_proof.specs.Questions.{Question};

    ghost Value = { Question };

    ghost view = { question };

    ghost invariant = { IsJudged };
}

impl<'a> Judged<'a> {
    /// The labels, linked.
    pub(crate) fn new(
        alloc: Global,
        inst: &'a Instance,
        route: &'a [usize],
        start: u64,
        bar: u64,
        labels: &'a [RouteLabel],
    ) -> Result<Judged<'a>, AllocError>
        requires is_route { IsRoute inst.now route.now }
        requires labels { All (RouteLabelFits inst.now route.now) labels.now }
        ensures { IfOk result (λ judged. judged ≡ record {
          journey = record { network = inst.now; route = route.now; start = start };
          bar = bar;
          labels = labels.now;
        }) }
    {
        let places = ByPlace {
            nodes: inst.nodes(),
        };
        let entries = entries(alloc, &places, labels)?;
        let full = entries_at(alloc, inst.nodes(), inst.max_q(), labels)?;
        Ok(Judged {
            inst,
            route,
            start,
            bar,
            labels,
            entries,
            full,
        })
    }

    /// The instance.
    pub(crate) fn instance(&self) -> &Instance
        ensures value { result.now ≡ self.now.journey.network }
        ensures ranges { IsQuestion self.now }
    {
        self.inst
    }

    /// The route.
    pub(crate) fn route(&self) -> &[usize]
        ensures { result.now ≡ self.now.journey.route }
    {
        self.route
    }

    /// The index in the route of its end.
    pub(crate) fn end(&self) -> usize
        ensures { result ≡ length self.now.journey.route - 1 }
    {
        self.route.len().saturating_sub(1)
    }

    /// The node of the route with an index.
    pub(crate) fn node_at(&self, index: usize) -> usize
        requires { index < length self.now.journey.route }
        ensures value { result ≡ slice_index self.now.journey.route index }
        ensures known { result < node_count self.now.journey.network }
    {
        let route = self.route;
        route[index]
    }

    /// The charge that the vehicle starts with.
    pub(crate) fn start(&self) -> u64
        ensures { result ≡ self.now.journey.start }
    {
        self.start
    }

    /// The bar.
    pub(crate) fn bar(&self) -> u64
        ensures { result ≡ self.now.bar }
    {
        self.bar
    }

    /// How many labels there are.
    pub(crate) fn count(&self) -> usize
        ensures { result ≡ length self.now.labels }
    {
        self.labels.len()
    }

    /// The label with a number.
    pub(crate) fn label(&self, number: usize) -> &RouteLabel
        requires { number < length self.now.labels }
        ensures value { slice_get self.now.labels number ≡ Some result.now }
        ensures fits { RouteLabelFits self.now.journey.network self.now.journey.route result.now }
    {
        let labels = self.labels;
        &labels[number]
    }

    /// The entries of the labels.
    pub(crate) fn entries(&self) -> &[Entry<()>]
        ensures { AreEntries (node_count self.now.journey.network) self.now.labels result.now }
    {
        self.entries.as_slice()
    }

    /// The number of a label that may have a full battery at a place, the earliest of such.
    pub(crate) fn first_full(&self, place: Place) -> Option<usize> {
        let key = key_of(self.inst.nodes(), place.passed, place.node);
        let at = self.full.partition_point(|entry| entry.key < key);
        match self.full.get(at) {
            Some(entry) => Some(entry.number),
            None => None,
        }
    }
}
