//! A node of the cluster: what it holds in memory, and how it handles a tick, a nudge or a datagram. It has no access
//! to a disk, socket or clock.
#![tactic(auto)]

mod asking;
mod catching_up;
mod deciding;
mod executing;
mod installing;
pub mod laws;
mod leading;
mod learning;
mod node;
mod nudging;
mod rebasing;
mod reminding;
mod responding;
mod sending;
mod showing;
mod step;
mod ticking;

pub use node::Node;
