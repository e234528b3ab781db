//! Prints what the disks of the nodes hold when the world of a script ends (`locks sim --state`).
#![tactic(auto)]

pub mod node_state;
