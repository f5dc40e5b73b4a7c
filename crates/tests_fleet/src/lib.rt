//! Tests of the search for the cheapest plan of a fleet, of one kind of vehicles or of several: each
//! call that takes memory once, on worked instances. They stand here so that the crates that they run
//! aren't proved once more with them. Drawn instances are compared by `tools/drawn_runs`, texts, and
//! as many customers as may be, by `tools/text_runs`, changed proofs by `judge/compare.py`.
#![tactic(auto)]

#[cfg(test)]
mod kinds;
#[cfg(test)]
mod mixed;
#[cfg(test)]
mod search;
