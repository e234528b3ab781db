//! Why requests may not be answered: the lines `why: ..` of `locks status`.
#![tactic(auto)]

pub mod node_reason;
mod state_reason;
pub mod why;
