//! Sends and receives a node's datagrams over UDP: the socket and its receive buffer, the post that frames and sends
//! the envelopes of a replica to the addresses of its book, and the probes by which nodes compare geneses.
#![tactic(auto)]

mod answering;
mod filtering;
mod inquiring;
mod listening;
mod noticing;
pub mod post;
pub mod receive_buffer;
pub mod received_probe;
pub mod received_watch;
pub mod socket;
pub mod unopened;
