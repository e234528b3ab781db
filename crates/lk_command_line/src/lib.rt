//! The program's subcommands and their options: how `clap` reads them, and what their values mean.
#![tactic(auto)]

pub mod admins;
pub mod argument_error;
pub mod asking;
pub mod commands;
pub mod operation;
pub mod status_plan;
pub mod targets;
pub mod values;
