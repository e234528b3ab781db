//! Progress in worlds: an event that goes well is a step of its node, and so what is proved of a node's steps holds of
//! runs of events. That a world gets on is not promised.
#![tactic(auto)]

pub mod laws;
