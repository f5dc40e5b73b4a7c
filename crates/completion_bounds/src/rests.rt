//! What ways home earn, by node and by layer.

use crate::legs::{End, Leg, Legs};
use crate::terms::is_in;
use customer_sets::CustSet;
use std::alloc::{AllocError, Global};

/// What a vehicle loses that has no way home any more: more than any way earns.
const STRANDED: i128 = -(1 << 92);

/// The most that ways home earn: the prices of their customers, less their cost times the weight.
#[derive(Clone, Copy, Debug, PartialEq, Eq)]
pub struct HomeEarnings {
    pub best: i128,
    /// The number of the first customer of a way that earns most; `None` where it has none.
    pub first: Option<usize>,
    /// The most that a way with another first customer earns.
    pub second: i128,
}

impl HomeEarnings {
    /// No way.
    fn stranded() -> HomeEarnings {
        HomeEarnings {
            best: STRANDED,
            first: None,
            second: STRANDED,
        }
    }

    /// Whether some way that earns most begins with a customer of a set.
    pub fn begins_in(&self, set: CustSet) -> bool {
        match self.first {
            Some(customer) => is_in(Some(&set), customer),
            None => false,
        }
    }

    /// The most that a way earns whose first customer isn't in a set, or more.
    pub fn without(&self, set: CustSet) -> i128 {
        if self.begins_in(set) {
            self.second
        } else {
            self.best
        }
    }

    /// Reckons with a further way.
    fn offer(&mut self, first: Option<usize>, gain: i128) {
        if first == self.first {
            self.best = self.best.max(gain);
        } else if gain > self.best {
            self.second = self.best;
            self.best = gain;
            self.first = first;
        } else {
            self.second = self.second.max(gain);
        }
    }

    /// Reckons with ways whose first customers aren't known.
    fn offer_any(&mut self, gain: i128) {
        self.best = self.best.max(gain);
        self.second = self.second.max(gain);
    }

    /// Reckons with the ways over an arc to a customer, who is served first.
    fn offer_customer(
        &mut self,
        own: Option<usize>,
        leg: &Leg,
        customer: usize,
        after: &HomeEarnings,
    ) {
        let is_back = own.is_some() && after.first == own && leg.is_remembered;
        let rest = if is_back { after.second } else { after.best };
        self.offer(Some(customer), leg.gain.saturating_add(rest));
    }

    /// Reckons with the ways over an arc to a station. No way goes back to the customer just left.
    fn offer_station(&mut self, own: Option<usize>, leg: &Leg, after: &HomeEarnings) {
        let second = leg.gain.saturating_add(after.second);
        if own.is_none() || after.first != own {
            self.offer(after.first, leg.gain.saturating_add(after.best));
        }
        self.offer_any(second);
    }
}

/// What ways home earn, by node and by layer.
pub(crate) fn all_rests(
    alloc: Global,
    legs: &[Legs],
    layers: u64,
) -> Result<Vec<Vec<HomeEarnings>>, AllocError> {
    let mut rests = Vec::new(alloc);
    for _ in 0..legs.len() {
        rests.push(Vec::new(alloc))?;
    }
    for layer in 0..layers {
        push_layer(&mut rests)?;
        settle_stations(&mut rests, legs, layer);
        raise_all(&mut rests, legs, layer, false);
    }
    Ok(rests)
}

/// Appends a layer with the ways of the one before it.
fn push_layer(rests: &mut Vec<Vec<HomeEarnings>>) -> Result<(), AllocError> {
    for row in rests.iter_mut() {
        let before = row.last().copied().unwrap_or(HomeEarnings::stranded());
        row.push(before)?;
    }
    Ok(())
}

/// Reckons with the ways on from all stations, until none of them earns more. An arc between
/// stations may stay in the layer; charging earns nothing.
fn settle_stations(rests: &mut Vec<Vec<HomeEarnings>>, legs: &[Legs], layer: u64) {
    for _ in 0..legs.len() {
        if !raise_all(rests, legs, layer, true) {
            break;
        }
    }
}

/// Reckons with the ways on from all stations, or from all other nodes. Whether a node's ways earn
/// more.
fn raise_all(
    rests: &mut Vec<Vec<HomeEarnings>>,
    legs: &[Legs],
    layer: u64,
    are_stations: bool,
) -> bool {
    let mut is_raised = false;
    for (node, from) in legs.iter().enumerate() {
        if from.is_station == are_stations {
            is_raised = raise(rests, from, node, layer) || is_raised;
        }
    }
    is_raised
}

/// Reckons with the ways on from a node. Whether they earn more.
fn raise(rests: &mut Vec<Vec<HomeEarnings>>, from: &Legs, node: usize, layer: u64) -> bool {
    let Some(before) = rest_at(rests, node, layer) else {
        return false;
    };
    let after = raised(rests, from, before, layer);
    if after == before {
        return false;
    }
    if let Some(row) = rests.get_mut(node) {
        if let Some(rest) = row.get_mut(layer as usize) {
            *rest = after;
        }
    }
    true
}

/// What ways home earn from a node in a layer, by those already reckoned with.
fn raised(
    rests: &[Vec<HomeEarnings>],
    from: &Legs,
    before: HomeEarnings,
    layer: u64,
) -> HomeEarnings {
    let mut rest = before;
    for leg in &from.all {
        let Some(below) = layer.checked_sub(leg.down) else {
            continue;
        };
        if leg.end == End::Home {
            rest.offer(None, leg.gain);
        } else if let Some(after) = rest_at(rests, leg.to, below) {
            match leg.end {
                End::Customer(customer) => {
                    rest.offer_customer(from.customer, leg, customer, &after)
                }
                End::Home | End::Station => rest.offer_station(from.customer, leg, &after),
            }
        }
    }
    rest
}

/// What ways home earn from a node in a layer, if that is reckoned already.
pub(crate) fn rest_at(
    rests: &[Vec<HomeEarnings>],
    node: usize,
    layer: u64,
) -> Option<HomeEarnings> {
    rests.get(node)?.get(layer as usize).copied()
}
