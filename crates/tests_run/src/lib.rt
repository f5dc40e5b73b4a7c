//! Tests of the program over files and outputs in memory, and over those of the system. They stand
//! here so that the program isn't proved once more with them.
#![tactic(auto)]

#[cfg(test)]
mod bounds;
#[cfg(test)]
mod certificates;
#[cfg(test)]
mod commands;
#[cfg(test)]
mod failing;
#[cfg(test)]
mod files;
#[cfg(test)]
mod fleets;
#[cfg(test)]
#[cfg(test)]
mod improved;
#[cfg(test)]
mod instances;
#[cfg(test)]
mod jobs;
#[cfg(test)]
mod long_files;
#[cfg(test)]
mod many_customers;
#[cfg(test)]
mod mixed;
#[cfg(test)]
mod proved;
#[cfg(test)]
mod sure;
#[cfg(test)]
mod system;
#[cfg(test)]
mod watched;
#[cfg(test)]
mod words;
