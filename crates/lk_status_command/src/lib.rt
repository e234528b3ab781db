//! `locks status`: what the nodes of a cluster report, printed in lines, as JSON or as metrics.
#![tactic(auto)]

mod field;
mod json_object;
mod lines;
mod prometheus;
mod state_metric;
pub mod status;
pub mod withheld;
