//! Lower bounds on fleets by near routes (the ng-route relaxation: Baldacci, Mingozzi, Roberti
//! 2011), each with a proof: the prices of customers are raised one by one, from 0 or from prices
//! that are lowered before where they have to be. It hands on the calls for such proofs: near sets,
//! pricing, the judge and the text.
#![tactic(auto)]

mod bound;
mod kept;
mod laws;
mod limits;
mod lowering;
mod met;
mod raising;
mod setting;
mod watcher;

pub use bound::{near_bound, near_bound_from, near_bound_watched};
pub use laws::routes_of_fleet_plans_are_near_routes;
pub use near_pricing::{NearPriced, Prices, near_price};
pub use near_proof::{NearLabel, NearProof, NearVerdict, check_near, near_sets};
pub use near_text::{CertText, push_near, push_near_bound, push_near_verdict, read_near};
pub use watcher::{PriceProgress, PriceWatcher};
