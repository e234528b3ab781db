//! Random schedules (`locks fuzz`): draws events from a seed, executes them in a world of three nodes, and prints the
//! result or a script of them.
#![tactic(auto)]

mod draws;
mod event_kind;
pub mod fuzzing;
pub mod plan;
mod request;
mod schedule;
pub mod transcript;
