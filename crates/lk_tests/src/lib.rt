//! Tests of the library crates through their public interfaces. They live here because a crate with tests is proved
//! twice.
#![tactic(auto)]

#[cfg(test)]
mod clocks;
#[cfg(test)]
mod faltering;
#[cfg(test)]
mod files;
#[cfg(test)]
mod platform;
#[cfg(test)]
mod replicas;
#[cfg(test)]
mod three_servers;
#[cfg(test)]
mod turns;
