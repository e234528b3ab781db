//! Whether a cluster is healthy: probes several nodes at once, collects their reports and judges them.
#![tactic(auto)]

pub mod asking;
pub mod change;
pub mod look;
pub mod measure;
pub mod states;
pub mod target;
pub mod verdict;
