//! Prints what a store holds (`locks dump`, `locks inspect`): its live file, its members, how far it is, and its
//! names, with who holds them and their last fences; and checks its sums (`locks scrub`).
#![tactic(auto)]

pub mod dump;
pub mod inspect;
pub mod inspection;
pub mod lines;
pub mod scrub;
mod state;
