//! A simulated disk: a device in memory, exact to the byte, which can be made to fail; and a file in memory, as proof
//! that a file can be honest.
#![tactic(auto)]

mod disk_bytes;
mod memory_disk;
mod memory_file;
mod metering;

pub use memory_disk::MemoryDisk;
pub use memory_file::MemoryFile;
