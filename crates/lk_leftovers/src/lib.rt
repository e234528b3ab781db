//! Leftovers: a leader to which votes of earlier ballots are reported proposes them again, one position after another,
//! and is then ready for a request.
#![tactic(auto)]

pub mod laws;
