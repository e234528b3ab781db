//! The nodes of a simulated world, up or down, with disks in memory: what each call of one notes and sends, and how it
//! may end the node.
#![tactic(auto)]

mod calls;
mod end;
mod finding;
mod group;
mod left;
mod notes;
mod outcome;
mod refused;
mod sim_node;

pub use calls::{compact_node, revive, step};
pub use end::End;
pub use finding::{find, find_down, find_up};
pub use group::{GroupOutcome, step_all};
pub use left::{LeftNode, all_left};
pub use notes::add_notes;
pub use outcome::{Outcome, carry_out_stop};
pub use refused::Refused;
pub use sim_node::{RunState, SimNode, lengths, set_trap, stop};
