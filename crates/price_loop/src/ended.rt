//! How the price loop ends.

use master_simplex::Lp;

/// Where a master problem stands at the end of the price loop.
#[derive(Drop)]
pub enum LoopEnd<R: Drop, C: Drop> {
    /// The routes' optimum, or their ray, beside which no further route earns. `basis` has the
    /// numbers of its columns: first the customers' helpers, then the routes.
    Closed {
        lp: Lp,
        routes: Vec<R>,
        basis: Vec<usize>,
        closing: C,
    },
    /// The numbers of a basis over the routes are past the caps. `basis` has the numbers of its
    /// columns: first the customers' helpers, then the routes.
    Wide {
        routes: Vec<R>,
        basis: Vec<usize>,
    },
}
