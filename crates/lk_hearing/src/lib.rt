//! Whom a node hears: which members have lately replied to its probes, and whether these are a majority.
#![tactic(auto)]

pub mod hearing;
pub mod laws;
pub mod token_source;
