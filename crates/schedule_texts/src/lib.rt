//! The schedule of a fleet plan as texts: a table to read, a picture of the levels of the
//! batteries over time, a map, one JSON text, and CSV for spreadsheets.
//!
//! Each text is a function of the schedule and of the names of places, where they are given; it is in
//! UTF-8, in ASCII where they are, and ends with a line feed. Decimals have two
//! digits, rounded to the nearest hundredth, a half up. With a [`Clock`] moments are times of day,
//! rounded to the nearest second, a half up.
#![tactic(auto)]

mod clock;
mod decimals;
mod json;
mod labels;
mod latest;
mod laws;
mod map;
mod picture;
mod spreadsheet;
mod table;

pub use clock::Clock;
pub use json::schedule_json;
pub use laws::{cells_are_read_back, no_cell_is_a_formula, no_name_opens_an_element};
pub use map::schedule_map;
pub use picture::schedule_picture;
pub use spreadsheet::schedule_csv;
pub use table::schedule_table;
