//! Tests of `evgap` over files and outputs in memory: worked instances, edges, and drawn instances
//! beside a plain enumeration. They stand here so that the program isn't proved once more with
//! them.
#![tactic(auto)]

#[cfg(test)]
mod accepted;
#[cfg(test)]
mod candidates;
#[cfg(test)]
mod clocks;
#[cfg(test)]
mod drawn;
#[cfg(test)]
mod edges;
#[cfg(test)]
mod effort;
#[cfg(test)]
mod files;
#[cfg(test)]
mod judged;
#[cfg(test)]
mod planned;
#[cfg(test)]
mod recreated;
#[cfg(test)]
mod words;
