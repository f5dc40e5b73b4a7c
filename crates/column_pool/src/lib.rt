//! The bound of a node of branch and price: the routes of a pool as columns of the master problem,
//! and the loop that prices further ones in (column generation: Desaulniers, Desrosiers, Solomon
//! 2005).
#![tactic(auto)]

mod bound;
mod by_loop;
mod decided;
mod earners;
mod estimate;
mod exact;
mod laws;
mod node;
mod pricing_problem;
mod route;
mod section;
mod taking;
mod wide;

pub use bound::NodeBound;
pub use estimate::estimate_node;
pub use laws::sections_of_nodes_are_strong;
pub use node::bound_node;
pub use route_pool::ColumnPool;
