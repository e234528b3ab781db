//! Restarts a node from its store, and keeps the store short: reads again what a stop has left, and replaces what is
//! executed by a Base, a checkpoint.
#![tactic(auto)]

mod base;
mod fault;
mod relearning;
mod renewing;
mod restart;

pub use base::{is_rebase_due, write_base};
pub use fault::ReviveFault;
pub use renewing::renew;
pub use restart::{RestartedNode, restart_node};
