//! What is listed: routes, by what the master problem sees of them.

use customer_sets::CustSet;

/// A listed route: the customers that it serves, and its time.
#[derive(Clone, Copy, Debug, PartialEq, Eq)]
pub struct ListedRoute {
    pub set: CustSet,
    pub time: u64,
}
