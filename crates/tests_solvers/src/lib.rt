//! Tests that both solvers of one route, by a table of whole levels and by labels, agree on worked
//! instances: whether there is a plan, and how long a fastest one takes; that proofs of routes are
//! accepted; and of fleet plans that are made cheaper, by moves and by ruin and recreate. Drawn instances are compared by
//! `tools/drawn_runs`, changed proofs by `judge/compare.py`.
#![tactic(auto)]

#[cfg(test)]
mod both;
#[cfg(test)]
mod improved;
#[cfg(test)]
mod proving;
#[cfg(test)]
mod recreated;
#[cfg(test)]
mod worked;
