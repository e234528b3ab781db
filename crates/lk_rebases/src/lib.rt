//! Rebases: a node whose store was rebased does what it would have done otherwise with requests, promises and
//! acceptances, with a Prepare or an Accept of later positions, and at a tick without a term.
#![tactic(auto)]

pub mod laws;
