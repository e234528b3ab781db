//! The leader's part of a node: which command its ballot proposes at which position, when a position is decided, and
//! which requests wait. It has no access to a disk, a socket or bytes, and only `ask`, `promise` and `yet_to_accept`
//! take memory.
#![tactic(auto)]

pub mod laws;
mod leader;
mod promised_vote;
mod proposal;
mod received_promise;
mod term;
mod waiting;

pub use leader::{Leader, Open};
pub use proposal::yet_to_accept;
