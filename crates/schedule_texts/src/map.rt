//! The routes of a schedule as lines between their places, in SVG.
//!
//! Lengths are in tenths of a pixel, so that all of them are whole.

mod page;
mod place;
mod route;
mod scale;
mod sign;

pub use page::schedule_map;
