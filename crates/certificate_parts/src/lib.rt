//! The parts that texts of certificates have in common: their values, their ranges, and their
//! texts, both ways.
#![tactic(auto)]

mod cert_text;
mod entry;
mod ranges;
mod reading;
mod writing;

pub use cert_text::CertText;
pub use entry::BasisEntry;
pub use ranges::{
    GREATEST_WEIGHT, MOST_BYTES, are_prices, basis_fits, bound_fits, is_weight, labels_fit,
    stands_in, stops_fit,
};
pub use reading::{
    Place, Point, Points, begins_another, take_basis, take_bound, take_customer, take_labels,
    take_node, take_own, take_place, take_plan, take_points, take_prices, take_set, take_weight,
};
pub use writing::{
    customer_node, place_node, write_basis, write_bound, write_labels, write_plan, write_points,
    write_prices, write_set,
};
