//! Tests of the table of a master problem, of the simplex method on it, and of the test of wide
//! bases; of pricing, of the price loop and its rising prices, of pools of routes, of the search for
//! candidates that serve each customer once, and of the bound of a node and its estimate: each call
//! that takes memory once. They stand here so that the crates that they run aren't proved once more
//! with them. Drawn fleets are compared by `tools/drawn_runs`, bases on both sides of what is too wide
//! by `tools/text_runs`.
#![tactic(auto)]

#[cfg(test)]
mod instances;
#[cfg(test)]
mod nodes;
#[cfg(test)]
mod partitions;
#[cfg(test)]
mod pools;
#[cfg(test)]
mod prices;
#[cfg(test)]
mod sets;
#[cfg(test)]
mod shared_rides;
#[cfg(test)]
mod tables;
