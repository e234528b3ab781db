//! The messages of the protocol as values, and the grammar of datagrams: each message has one spelling. Promises and
//! parts of snapshots can also be read in place, in the bytes of a datagram; `lk_wire` reads whole messages so.
#![tactic(auto)]

mod decided;
pub mod laws;
mod message;
mod part;
mod promise;

pub use decided::Decided;
pub use message::{Answered, Content, Elsewhere, Message, Nack, NodeMessage, Passed, Want};
pub use part::{Part, PartRef};
pub use promise::{Promise, PromiseRef, Votes};
