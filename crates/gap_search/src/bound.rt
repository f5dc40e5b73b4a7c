//! The search for a proof of a bound, and for routes of which plans may be made. No clause rests on
//! this: what it finds is judged.

mod candidates;
mod growing;
mod pace;
mod question;
mod reach;
mod routes;
mod sections;

use crate::clock::{GapClock, Until};
use crate::first::FirstPlan;
use crate::watcher::GapWatcher;
use candidates::{candidates, candidates_of_none};
pub(crate) use growing::{Root, grow_tree};
use instance_reader::Instance;
use near_completion::Ground;
use near_prices::{NearPrices, PriceSearch};
pub(crate) use pace::bound_milliseconds;
use pace::{Pace, list_milliseconds};
use question::question;
use reach::section_of_nobody;
use route_improve::Improved;
pub(crate) use routes::NearOrder;
use routes::{dives, orders};
use std::alloc::{AllocError, Global};
use tree_text::BoundProof;

/// So much of the time that is left for a proof prices may take until they are closed, in per cent.
const CLOSING: u64 = 50;

/// What a search for a bound found. Nothing is promised of it.
#[derive(Drop)]
pub(crate) struct BoundFound {
    /// Proofs that may be accepted, the best first.
    pub(crate) candidates: Vec<BoundProof>,
    /// The price of each customer, by number, in scaled time; none where nothing was priced.
    pub(crate) prices: Vec<i64>,
    /// Routes of which plans may be made.
    pub(crate) orders: Vec<NearOrder>,
    /// Routes that may make plans together, plan by plan: no two of a plan serve the same customer.
    pub(crate) dives: Vec<Vec<NearOrder>>,
    /// What a tree may be grown from.
    pub(crate) root: Root,
}

/// Looks for a proof of a high bound, and for routes of which a good plan may be made.
///
/// Where no plan is held, it is looked first whether some customer is on no route at all. Then
/// prices of the linear optimum over near routes are found, which begin with the routes that are
/// known, and closed labels are made for them. The only `Err` is want of memory.
///
/// The clock stops the rounds of the search for prices but the first, some time before it is up,
/// and the search for routes for plans. What makes a proof of the prices at hand ends some seconds
/// behind it.
pub(crate) fn search_bound<C: GapClock, W: GapWatcher>(
    alloc: Global,
    inst: &Instance,
    first: &FirstPlan,
    clock: &mut C,
    watcher: &mut W,
) -> Result<BoundFound, AllocError> {
    let ground = Ground::new(alloc, inst)?;
    if let Improved::Alone(_) = &first.plan {
        if let Some(section) = section_of_nobody(alloc, inst, &ground)? {
            return Ok(only(alloc, candidates_of_none(alloc, inst, section)?));
        }
    }
    let list = list_milliseconds(ground.customers(), &first.plan);
    let pace = Pace::of(list, clock);
    let asked = question(alloc, inst, &ground, first, pace)?;
    let mut search = PriceSearch::new(alloc, inst, &ground, asked)?;
    search.set_effort(pace.effort());
    let kept = pace.kept_back(list);
    let end = search.run(alloc, &mut Until::before(clock, kept), watcher)?;
    let mut closing = Until::part_of_proof(clock, CLOSING);
    let found = search.finish(alloc, end, &mut closing)?;
    let candidates = candidates(alloc, inst, &ground, &found, list, clock)?;
    let orders = orders(alloc, &ground, &found.routes)?;
    let dives = dives(alloc, &ground, &mut search, clock)?;
    let NearPrices {
        prices,
        near,
        routes,
        ..
    } = found;
    Ok(BoundFound {
        candidates,
        prices,
        orders,
        dives,
        root: Root { near, routes },
    })
}

/// Candidates alone.
fn only(alloc: Global, candidates: Vec<BoundProof>) -> BoundFound {
    BoundFound {
        candidates,
        prices: Vec::new(alloc),
        orders: Vec::new(alloc),
        dives: Vec::new(alloc),
        root: Root {
            near: Vec::new(alloc),
            routes: Vec::new(alloc),
        },
    }
}
