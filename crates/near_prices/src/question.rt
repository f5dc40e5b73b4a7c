//! What prices are sought for. No clause rests on this.

use customer_sets::LargeSet;
use near_completion::Follow;

/// An order of customers that is known.
#[derive(Drop)]
pub struct KnownRoute {
    /// The customers, by number and in order.
    pub order: Vec<usize>,
    /// What a route takes that serves them so, in scaled time.
    pub time: u64,
}

/// A set whose entries are counted: steps to one of its customers from outside.
#[derive(Clone, Copy, Debug, PartialEq, Eq)]
pub struct EntryRange {
    pub set: LargeSet,
    /// So many entries a plan has at the least.
    pub least: u32,
    /// So many at the most.
    pub most: u32,
}

/// What prices are sought for.
#[derive(Drop)]
pub struct PriceQuestion {
    /// Who may come next after whom. No set is counted.
    pub follow: Follow,
    /// The sets whose entries are counted.
    pub entries: Vec<EntryRange>,
    /// Whether customers are served just once, so that prices may have either sign; else once or
    /// more, and no price is below 0.
    pub serves_once: bool,
    /// The near sets to begin with, by customer; where one isn't told, it has the three nearest.
    pub near: Vec<LargeSet>,
    /// The routes of a plan that is held; none where there is none.
    pub plan: Vec<KnownRoute>,
    /// Other routes that are known.
    pub seen: Vec<KnownRoute>,
    /// About so many layers the tables have of what ways home earn: 240 is a good number.
    pub layers: usize,
    /// So often near sets grow at the most.
    pub most_growths: usize,
    /// The weight of a unit of scaled time: prices are whole in so small parts of one. Where it is
    /// 0 routes cost nothing, and prices bound more than 0 only where no plan is left.
    pub weight: u32,
    /// What it costs to serve a customer once without a route, in scaled time; where it isn't told,
    /// more than the plan that is held, if there is one, or as much as the longest route.
    pub dearest: Option<u64>,
    /// Whether rounds go on until no route earns at all, however little.
    pub is_exact: bool,
}

/// Routes that are known from other searches, and which of them are columns at once: those whose
/// reduced cost by these prices is at most the bar.
#[derive(Drop)]
pub struct Handed {
    pub routes: Vec<KnownRoute>,
    /// What serving each customer earns, by number.
    pub prices: Vec<i64>,
    /// What entering each counted set earns; 0 where it isn't told.
    pub entry_prices: Vec<i64>,
    pub bar: i64,
}
