//! Datagrams as bytes: `write` appends the one spelling of a message, and `view` and `read` accept exactly these
//! spellings, the one in place and the other into memory.
#![tactic(auto)]

mod datagram;
mod fault;
mod viewing;
mod writing;

pub use datagram::Datagram;
pub use fault::{Bad, ReadFault};
pub use lk_messages::{
    Answered, Content, Decided, Elsewhere, Message, Nack, NodeMessage, Part, PartRef, Passed,
    Promise, PromiseRef, Votes, Want,
};
pub use viewing::command::{RequestRef, VoteRef};
pub use viewing::decided::{Commands, DecidedRef};
pub use viewing::message::{ContentRef, MessageRef, NodeMessageRef};
pub use viewing::{read, view};
pub use writing::write;
