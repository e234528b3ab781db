//! Leftovers in worlds: votes of earlier ballots that the promises of a majority report are proposed again, one
//! position after another, and then a request is answered.
#![tactic(auto)]

pub mod laws;
