//! The durable log of a node, in two files: what it promised, voted and learned, as entries after a Base, read back
//! after any stop.
//!
//! One of them is live. A Base has a generation, and each later Base of a store a greater one.
//! - **Opening** (`opening`): 1. read A, then B, each up to its last whole entry (`file`); 2. the live file is the one
//!   of the greater generation, and damage after the whole entries of the other one does not matter (`verdict`); 3. cut
//!   off what follows the live file's last whole entry: the start of an entry that a stop tore; 4. sync it, so that
//!   everything that was read stays; 5. replay its entries into a standing, the recovered state (`replaying`). If
//!   neither file has a Base, the first one is written over A.
//! - **Adding** (`adding`): append to the live file, and sync it if the caller will send something that depends on the
//!   entries.
//! - **Rebasing** (`rebasing`): cut the other file to nothing, append the new Base to it, sync it, and only then cut
//!   the live file to nothing. A stop between any two of these calls leaves the old live file whole, or the new Base.
#![tactic(auto)]

mod adding;
mod fault;
mod file;
pub mod laws;
mod opening;
mod rebasing;
mod reopening;
mod replaying;
mod store;
mod verdict;

pub use fault::{OpenFault, ReopenFault, StoreFault};
pub use reopening::{LiveFile, Reopened, look, reopen};
pub use store::Store;
