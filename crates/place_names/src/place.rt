//! A place, and the place of a node.

ghost use Rattle.std.specs.Prelude.{◌≡◌, IfOk};
ghost use Rattle.place_names.specs.Places.{name_at};

use std::alloc::{AllocError, Global};
use std::marker::Model;

/// Where a place is in a plane, in a unit of the file's own: `x` to the right, `y` upwards.
#[derive(Clone, Copy, Debug, PartialEq, Eq)]
pub struct Point {
    pub x: u64,
    pub y: u64,
}

/// A name. Contracts see its bytes, as UTF-8.
#[derive(Drop)]
pub struct PlaceName {
    text: String,
}

impl Model for PlaceName {
    ghost use Rattle.std.specs.Prelude.{List, ℕ, string_bytes};

    ghost Value = { List ℕ };

    ghost view = { λ name. string_bytes name.text };
}

impl PlaceName {
    /// A name of this text.
    pub fn new(alloc: Global, text: &str) -> Result<PlaceName, AllocError>
        ensures { IfOk result (λ name. name ≡ text.now) }
    {
        let text = String::from_str(alloc, text)?;
        Ok(PlaceName { text })
    }

    /// The text of the name. It takes no memory.
    pub fn as_str(&self) -> &str
        ensures { result.now ≡ self.now }
    {
        self.text.as_str()
    }
}

/// A place: its name, and where it is, if the file says so.
#[derive(Drop)]
pub struct Place {
    pub name: PlaceName,
    pub point: Option<Point>,
}

/// The name of a node, whose places stand in the order of nodes; no text where it has none. It
/// takes no memory.
pub fn name_at(places: &[Place], node: usize) -> &str
    ensures { result.now ≡ name_at places.now node }
{
    match places.get(node) {
        Some(place) => place.name.as_str(),
        None => "",
    }
}
