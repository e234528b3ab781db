//! The lock table, a state machine: what clients ask of it, its answers, and its packed text.
#![tactic(auto)]

mod body;
mod entry;
pub mod laws;
mod lock_entry;
mod machine;
mod name;
mod sharers;
mod table;
mod transition;
mod transitions;

pub use body::Body;
pub use lock_entry::{Holders, LockEntry};
pub use name::Name;
pub use sharers::Sharers;
pub use table::LockTable;
