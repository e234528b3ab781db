//! Parsers of the words of command lines and scripts: numbers, nodes, ports, members, a genesis, and a client's
//! operation.
#![tactic(auto)]

pub mod alpha;
pub mod command_line;
pub mod genesis;
pub mod member;
pub mod number;
pub mod operation;
mod verb;
pub mod word;
