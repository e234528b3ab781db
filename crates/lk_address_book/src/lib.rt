//! The address book of a node: from where each client and node last wrote, where nodes live, whom the node hears, and
//! whose datagrams it drops. It sends and receives nothing.
#![tactic(auto)]

pub mod addresses;
pub mod admins;
pub mod arrival;
mod filtering;
pub mod hosts;
mod inquiries;
pub mod kinds;
pub mod laws;
mod listening;
pub mod network;
mod outsiders;
pub mod prober_records;
mod sender_records;
