//! Agreement in Multi-Paxos: definitions of what was sent, promised, accepted and chosen, and laws by which chosen
//! lists agree.
#![tactic(auto)]

pub mod laws;
mod party;

pub use party::Party;
