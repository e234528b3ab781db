//! A socket in memory, for tests.
#![tactic(auto)]

mod memory_socket;

pub use memory_socket::{MemoryDatagram, MemorySocket};
