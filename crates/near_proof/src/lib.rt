//! Proofs of lower bounds by near routes, on which a customer may be served again once it is
//! forgotten (the ng-route relaxation: Baldacci, Mingozzi, Roberti 2011): what such a proof is,
//! when it is accepted, and what it shows then; their judge ([`check_near`], in `check.rt` and the
//! files that it stands on), which knows nothing of a search; the near sets of an instance.
#![tactic(auto)]

mod asking;
mod bound;
mod check;
mod coverage;
mod earnings;
mod ends;
mod faults;
mod judge;
mod laws;
mod links;
mod looks;
mod margins;
mod memory;
mod nearby;
mod proof;
mod services;
mod steps;
mod tight;
mod verdict;

pub use asking::{OneByOne, covers_value};
pub use check::check_near;
pub use earnings::{earned_by, price_total};
pub use ends::earns_at_home;
pub use faults::{NearLabelFault, NearTerms, first_fault};
pub use laws::{
    a_near_route_pays_its_prices, accepted_bounds_are_true, accepted_prices_cannot_be_raised,
    accepted_proofs_break_no_rule,
};
pub use looks::{Brief, Compared, Looks, Sought};
pub use margins::margin;
pub use memory::remembered;
pub use nearby::near_sets;
pub use proof::{NearLabel, NearProof};
pub use services::{numbers_of, times_in};
pub use verdict::NearVerdict;
