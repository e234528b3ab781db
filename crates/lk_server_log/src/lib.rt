//! The log lines of a server: what its replica counted and executed, and what else changes in a turn.
#![tactic(auto)]

mod changes;
mod notes;

pub use changes::{
    log_apart, log_catch_up, log_changes, log_moved, log_port, log_sends, log_start, log_stranger,
    log_unopened, log_unusable,
};
pub use notes::log_notes;
