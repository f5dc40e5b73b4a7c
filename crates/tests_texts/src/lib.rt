//! Tests of the texts that are read and written: each call that takes memory once. They stand here so
//! that the crates that they run aren't proved once more with them. What each text is, and where one
//! that is none breaks off, is compared by `tools/text_runs`.
#![tactic(auto)]

#[cfg(test)]
mod asserting;
#[cfg(test)]
mod certificates;
#[cfg(test)]
mod proofs;
#[cfg(test)]
mod reports;
#[cfg(test)]
mod routes;
#[cfg(test)]
mod trees;
#[cfg(test)]
mod units;
