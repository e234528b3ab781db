//! The members of each of the next positions, after the joins and leaves of the list of commands, and the majorities of
//! a set of members.
#![tactic(auto)]

pub mod laws;
mod majority;
mod nodes;
mod roster;
mod set;
mod window;

pub use majority::is_majority;
pub use nodes::{is_among, nodes_of};
pub use roster::Roster;
pub use window::{Window, WindowSet};
