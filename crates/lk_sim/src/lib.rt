//! The simulator: a world of replicas with disks in memory, whose events the caller chooses: what is delivered, lost,
//! repeated, injected or stopped.
#![tactic(auto)]

mod client;
mod compacting;
mod copied_input;
mod datagrams;
mod delivery;
mod end;
mod event;
mod giving;
mod group;
mod happening;
pub mod laws;
mod lives;
mod world;
mod world_parts;

pub use end::RunEnd;
pub use event::{Event, GroupInput};
pub use lk_sim_nodes::{End, LeftNode, Refused};
pub use world::World;
