//! What a node of `locks node` runs on: the network and the keys that the options name, its socket and its files, and
//! whether it is heard at its port; and the keys that `locks client-key` prints.
#![tactic(auto)]

pub mod client_key;
pub mod digest;
mod host_file;
pub mod host_watch;
pub mod network;
pub mod platform;
pub mod port_reminder;
pub mod resources;
mod self_probe;
pub mod system;
pub mod text_files;
