//! Feeding in worlds: a node that has executed less than another catches up by exchanges with it. That a node asks, or
//! that its datagrams arrive, is not promised.
#![tactic(auto)]

pub mod laws;
