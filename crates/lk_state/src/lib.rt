//! The state that a node reaches by executing the list of commands: roster, sessions and a machine.
#![tactic(auto)]

pub mod laws;
mod machine;
mod packing;
mod session;
mod unpacking;
mod whole;

pub use machine::{Machine, UnpackFault};
pub use session::Session;
pub use whole::{Ran, Seen, Whole};
