//! A replica: a node on a store. It saves each promise and vote before it sends anything that rests on it, and restarts
//! from what a stop has left.
#![tactic(auto)]

mod compacting;
mod datagram;
mod delivering;
mod grouping;
mod in_memory;
mod memory_post;
mod memory_replica;
mod replica;
mod reviving;
mod taken;
mod together;

pub use datagram::Datagram;
pub use grouping::Group;
pub use memory_replica::{MemoryReplica, Revived};
pub use replica::Replica;
pub use taken::{Step, Taken, TakenAll};
