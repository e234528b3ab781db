//! The acceptor's part of Paxos: which ballot is promised, which votes are kept, and the responses to a Prepare and an
//! Accept (Lamport 2001, section 2.2).
#![tactic(auto)]

mod acceptor;
pub mod laws;
mod response;
mod votes;

pub use acceptor::Acceptor;
pub use response::Response;
pub use votes::votes_above;
