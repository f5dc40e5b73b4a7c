//! The table by which a search leaves out what can't earn.

ghost use Rattle.std.specs.Prelude.{◌<◌};
ghost use Rattle.ev_model.specs.Network.{node_count};

use closed_lists::Question;
use completion_bounds::{Completion, Terms, Turns};
use customer_sets::CustSet;
use std::alloc::{AllocError, Global};

/// A table has about so many layers.
const LAYERS: u64 = 150;

/// The table of a section: customers are served once, and keep its pairs.
pub(crate) fn table_of(alloc: Global, question: &Question<'_>) -> Result<Completion, AllocError> {
    let sets = everybody_each(alloc, question)?;
    let found = turns_of(alloc, question)?;
    let turns = Some(&found);
    let asked = Terms {
        inst: question.instance(),
        weight: question.weight(),
        prices: question.prices(),
        sets: sets.as_slice(),
        turns,
        horizon: horizon(question),
        layers: LAYERS,
    };
    Completion::new(alloc, &asked)
}

/// The last scaled time at which a route can earn: the limit, or the time that all prices pay for.
fn horizon(question: &Question<'_>) -> u64 {
    let mut paid = 0u128;
    for price in question.prices() {
        paid = paid.saturating_add((*price).max(0).unsigned_abs());
    }
    let time = paid
        .checked_div(u128::from(question.weight()))
        .unwrap_or(u128::MAX);
    u64::try_from(time)
        .unwrap_or(u64::MAX)
        .min(question.scaled_limit())
}

/// All customers, for each of them.
fn everybody_each(alloc: Global, question: &Question<'_>) -> Result<Vec<CustSet>, AllocError> {
    let mut everybody = CustSet::empty();
    for number in 0..question.prices().len() {
        if number < 128 {
            everybody = everybody.with(number);
        }
    }
    vec![in alloc; everybody; question.prices().len()]
}

/// Who may be served where.
fn turns_of(alloc: Global, question: &Question<'_>) -> Result<Turns, AllocError> {
    let mut next = Vec::new(alloc);
    let mut last = CustSet::empty();
    for node in 0..question.instance().nodes() {
        if let Some(number) = question.customer_number(node) {
            next.push(next_of(question, node))?;
            if question.allows(node, 0) {
                last = last.with(number);
            }
        }
    }
    let first = next_of(question, 0);
    Ok(Turns { first, next, last })
}

/// Who may be the next behind the node of a last customer, or behind the depot.
pub(crate) fn next_of(question: &Question<'_>, last: usize) -> CustSet
    requires { last < node_count question.now.network }
{
    let mut next = CustSet::empty();
    for node in 0..question.instance().nodes() {
        if let Some(number) = question.customer_number(node) {
            if question.allows(last, node) {
                next = next.with(number);
            }
        }
    }
    next
}
