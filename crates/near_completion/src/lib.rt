//! What near routes can still earn on their ways home: the places of an instance, who may come next
//! after whom, what serving earns, and a table of bounds by place and time left (completion bounds,
//! as in Baldacci, Mingozzi, Roberti 2011). No clause rests on this: it promises nothing but to be
//! safe and to end; what is found by it is judged by others.
#![tactic(auto)]

mod cells;
mod follow;
mod ground;
mod legs;
mod nearest;
mod needs;
mod plan;
mod rate;
mod table;
mod terms;

pub use follow::Follow;
pub use ground::{Arc, Ground};
pub use nearest::nearest_sets;
pub use rate::Rate;
pub use table::{HomeCost, WayTable};
pub use terms::{Last, NearTerms};
