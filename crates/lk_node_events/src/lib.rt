//! The events of a node, for an operator: which changes between turns are events, how many of them are logged, and the
//! line of each.
#![tactic(auto)]

pub mod event;
pub mod line;
pub mod observation;
pub mod rate_limit;
pub mod rate_limits;
pub mod story;
pub mod timers;
pub mod watch;
