//! The lines of a script of `locks sim`: how each is read, and how an event is printed as one.
#![tactic(auto)]

pub mod event_line;
mod event_verb;
pub mod fault;
pub mod genesis_line;
pub mod hex_line;
mod input_words;
pub mod instruction;
pub mod lines;
pub mod world_line;
mod world_words;
