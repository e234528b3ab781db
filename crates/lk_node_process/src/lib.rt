//! `locks node`, `locks init` and `locks demo`, over files and sockets: begins the store of a node, starts the node on
//! what it runs on, does its turns, and reports them.
#![tactic(auto)]

mod another_genesis;
pub mod demo;
pub mod first_store;
pub mod node_end;
pub mod observing;
pub mod running;
