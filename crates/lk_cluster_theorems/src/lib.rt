//! Theorems about clusters: nodes of the lock table that run as processes meet the guarantee of a simulated world. It
//! also proves that the program runs such a node.
#![tactic(auto)]

pub mod clients;
pub mod laws;
pub mod running;
pub mod turning;
