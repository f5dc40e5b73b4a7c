//! The schedule as a picture: the levels of the batteries over time, a panel a route.
//!
//! Lengths are in tenths of a pixel, so that all of them are whole.

mod axis;
mod frame;
mod line;
mod names;
mod page;
mod panel;
mod scale;
mod stops;

pub(crate) use page::push_size;
pub use page::schedule_picture;
pub(crate) use stops::push_place;
