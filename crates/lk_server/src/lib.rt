//! A node that runs on a socket: the server, its turns, and its replies to probes. Folders and files belong to
//! the crates above.
#![tactic(auto)]

mod barring;
mod gathering;
pub mod group_fault;
pub mod ignored;
mod joining;
pub mod laws;
mod neighbourhood;
mod pausing;
mod probing;
mod rehosting;
pub mod server;
mod socket_input;
mod state_digests;
pub mod turn_events;
mod unopened;
mod watch_handling;
