//! Reading parts of a certificate.

mod basis;
mod label;
mod nodes;
mod numbers;
mod plan;
mod prices;
mod version;

pub use basis::take_basis;
pub use label::{Point, Points, take_labels, take_points, take_set};
pub use nodes::{Place, take_customer, take_node, take_place};
pub use numbers::{take_bound, take_own, take_weight};
pub use plan::take_plan;
pub use prices::take_prices;
pub use version::begins_another;
