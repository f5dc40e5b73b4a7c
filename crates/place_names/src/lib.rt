//! Reads the places of an instance: by node a name, and maybe where it is, from the bytes of a JSON
//! file, as `tools/evimport` writes it beside an instance.
//!
//! [`read_places`] answers the places that the bytes mean, or the first rule that they break.
#![tactic(auto)]

mod characters;
mod entry;
mod faults;
mod laws;
mod place;
mod read;

pub use faults::{EntryFault, PlacesEnded, PlacesFault};
pub use laws::places_break_no_rule;
pub use place::{Place, PlaceName, Point, name_at};
pub use read::{MOST_BYTES, read_places};
