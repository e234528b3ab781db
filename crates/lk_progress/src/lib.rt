//! Progress: which steps bring a cluster on, as laws about what a node's step does by its contract. That a cluster gets
//! on is not promised.
#![tactic(auto)]

pub mod laws;
