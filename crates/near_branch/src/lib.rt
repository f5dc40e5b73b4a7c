//! Trees over near routes, grown by branch and price (Barnhart, Johnson, Nemhauser, Savelsbergh,
//! Vance 1998): nodes are split by who comes next after whom, and by how often routes enter a set
//! of customers, the leaf of least bound first. No clause rests on this: it promises nothing but to
//! be safe and to end; what it finds is judged by others.
#![tactic(auto)]

mod candidates;
mod clock;
mod dearest;
mod fork;
mod growing;
mod growth;
mod listing;
mod lowering;
mod node;
mod numbers;
mod prices;
mod pricing;
mod question;
mod scores;
mod site;
mod splitting;
mod tree;
mod watcher;

pub use clock::BranchClock;
pub use growing::branch;
pub use near_prices::{KnownRoute, PricesProgress, PricesWatcher};
pub use near_search::SearchClock;
pub use question::{BranchQuestion, Branched};
pub use watcher::{BranchProgress, BranchWatcher};
