//! A client of the service: it sends one request, resends it to the nodes that Elsewhere replies name, and returns the
//! reply. One that waits for a lock asks again with further requests, and watches, so that nodes tell when it is free.
#![tactic(auto)]

mod attempts;
pub mod destination;
mod holder;
mod notices;
pub mod question;
pub mod reply;
mod schedule;
mod waiter;
pub mod waiting;
pub mod wanted;
mod watcher;
