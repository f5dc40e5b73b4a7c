//! Writing parts of a certificate.

mod basis;
mod label;
mod nodes;
mod number;
mod plan;
mod prices;

pub use basis::write_basis;
pub use label::{write_labels, write_points, write_set};
pub use nodes::{customer_node, place_node};
pub use plan::{write_bound, write_plan};
pub use prices::write_prices;
