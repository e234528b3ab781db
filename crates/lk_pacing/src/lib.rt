//! The pace of a server: when a tick is due, by a clock or by datagrams, and how long it waits for more before a sync.
//! It knows no replica and no socket.
#![tactic(auto)]

pub mod pace;
pub mod sync_pause;
pub mod tick_timer;
pub mod turn_input;
