//! Tests of bounds by near routes on worked instances: by rising prices, also from start prices, and
//! prices of a linear optimum; of prices and amounts that cover, on problems whose optima are
//! known; and of closed lists of labels. They stand here so that what they run isn't proved once more
//! with them. Drawn instances are compared by `tools/drawn_runs`, changed proofs by
//! `judge/compare.py`.
#![tactic(auto)]

#[cfg(test)]
mod covers;
#[cfg(test)]
mod listed;
#[cfg(test)]
mod priced;
#[cfg(test)]
mod searched;
#[cfg(test)]
mod told;
#[cfg(test)]
mod worked;
