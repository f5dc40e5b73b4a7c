//! Tests of the parts that know nothing of vehicles, of label values as rows of times and by few
//! points, of made instances, of plans and their texts, and of the rounding law: what takes memory,
//! once, where no test of a higher floor runs it, and what files and output of the system do. They
//! stand here so that the crates that they run aren't proved once more with them.
#![tactic(auto)]

#[cfg(test)]
mod curves;
#[cfg(test)]
mod files;
#[cfg(test)]
mod made;
#[cfg(test)]
mod outputs;
#[cfg(test)]
mod plans;
#[cfg(test)]
mod points;
#[cfg(test)]
mod rows;
