//! The guarantee: everything that holds of the lock service in every simulated world, stated a second time in few
//! definitions.
#![tactic(auto)]

pub mod laws;
mod world;

pub use world::{Replicas, apply, begin, run};
