//! The values of `locks`: numbers in their ranges, ballots, commands, votes, answers, members and the genesis. The
//! type of each value keeps it in its range, and no call takes memory.
#![tactic(auto)]

mod answer;
mod ballot;
mod client;
mod command;
mod entry;
mod executed;
mod fence;
mod genesis;
mod last_fence;
pub mod limits;
mod member;
mod memory;
mod node;
mod port;
mod position;
mod request_number;
mod round;
mod sharer_count;
mod vote;

pub use answer::Answer;
pub use ballot::{Ballot, RealBallot};
pub use client::ClientNo;
pub use command::{Command, Op, Payload, Request};
pub use entry::Entry;
pub use executed::Executed;
pub use fence::Fence;
pub use genesis::{Genesis, GenesisFault};
pub use last_fence::LastFence;
pub use member::{Member, Members};
pub use memory::NoMemory;
pub use node::NodeNo;
pub use port::Port;
pub use position::Position;
pub use request_number::RequestNumber;
pub use round::Round;
pub use sharer_count::SharerCount;
pub use vote::Vote;
