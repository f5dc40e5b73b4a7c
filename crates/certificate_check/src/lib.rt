//! The judge of certificates: whether a certificate shows that no fleet plan costs less than its
//! bound, and that the bound of its first section is the linear optimum; or the first rule that it
//! breaks. What prices over a weight of time bound, rounded up.
#![tactic(auto)]

mod basis;
mod bound;
mod cover;
mod judge;
mod labels;
mod laws;
mod leaves;
mod product;
mod root;
mod rounding;
mod routes;
mod sections;
mod shares;
mod verdict;
mod wide;

pub use basis::is_wide_basis;
pub use bound::{bound_of, is_bounded, price_total};
pub use cover::{SharedRoute, cover_exactly};
pub use judge::check_certificate;
pub use labels::check_labels;
pub use laws::{
    accepted_bounds_are_true, accepted_where_no_rule_is_broken, exact_roots_are_least_covers,
};
pub use master_table::ListedRoute;
pub use rounding::{rounded_up, unsigned_total};
pub use routes::fleet_route;
pub use verdict::Verdict;
