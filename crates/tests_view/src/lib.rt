//! Tests of `evview` over files and outputs in memory. They stand here so that the program isn't
//! proved once more with them.
#![tactic(auto)]

#[cfg(test)]
mod files;
#[cfg(test)]
mod maps;
#[cfg(test)]
mod named;
#[cfg(test)]
mod pictures;
#[cfg(test)]
mod refused;
#[cfg(test)]
mod shown;
#[cfg(test)]
mod words;
