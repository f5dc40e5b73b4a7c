//! Locations on a plane and their distances.
ghost use Rattle.std.specs.Prelude.{◌≡◌, ◌<◌, ◌≤◌, IfOk};
ghost use Rattle.instance_maker.specs.Locations.{distance_between, locations_of};

use super::generator::{Generator, MODULUS};
use std::alloc::{AllocError, Global};

/// A location in the plane.
#[derive(Clone, Copy)]
pub(crate) struct Location {
    x: u32,
    y: u32,
}

impl Location {
    /// The Manhattan distance: the distance in x and the distance in y together.
    pub(crate) fn distance_to(&self, other: &Location) -> u64
        ensures { result ≡ distance_between self.now other.now }
    {
        u64::from(self.x.abs_diff(other.x)) + u64::from(self.y.abs_diff(other.y))
    }
}

/// The locations of so many nodes, each drawn as its x and then its y.
pub(crate) fn draw_locations(
    alloc: Global,
    seed: u64,
    nodes: u64,
) -> Result<Vec<Location>, AllocError>
    requires { seed < MODULUS }
    ensures { IfOk result (λ locations. locations.items ≡ locations_of seed nodes) }
{
    let mut generator = Generator::new(seed);
    let mut locations = Vec::new(alloc);
    for node in 0..nodes {
        let x = generator.draw();
        let y = generator.draw();
        locations.push(Location { x, y })?;
    }
    Ok(locations)
}
