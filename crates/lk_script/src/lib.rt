//! Runs scripts of `locks sim`: in table mode against one lock table, in world mode against a simulated world.
#![tactic(auto)]

mod buffers;
pub mod ending;
pub mod laws;
pub mod mode;
pub mod printing;
pub mod script;
pub mod table_run;
pub mod world_run;
