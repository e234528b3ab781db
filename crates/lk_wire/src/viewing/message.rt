ghost use Rattle.std.specs.Prelude.{◌≡◌, IfOk};
ghost use Rattle.lk_wire.specs.Shown.{shown_node, shown_content, shown};

use crate::viewing::command::{RequestRef, VoteRef};
use crate::viewing::decided::DecidedRef;
use lk_messages::{
    Answered, Content, Elsewhere, Message, Nack, NodeMessage, PartRef, Passed, PromiseRef, Want,
};
use lk_types::{Executed, NoMemory, NodeNo, Position, RealBallot};
use std::alloc::Global;

/// A `NodeMessage` read in place: its votes, commands and bytes are slices of the datagram.
#[derive(Drop)]
pub enum NodeMessageRef<'a> {
    Prepare(RealBallot, Position),
    Promise(PromiseRef<'a>),
    Accept(VoteRef<'a>),
    Accepted(VoteRef<'a>),
    Nack(Nack),
    Decided(DecidedRef<'a>),
    Want(Want),
    Part(PartRef<'a>),
    Answer(Answered),
    Elsewhere(Elsewhere),
    Passed(Passed),
    Lead(RealBallot, Executed),
}

/// The content of a datagram, read in place, and its sender.
#[derive(Drop)]
pub enum ContentRef<'a> {
    /// A client's request, which names no node as its sender.
    Request(RequestRef<'a>),
    /// A message of that node.
    Node(NodeNo, NodeMessageRef<'a>),
}

/// A whole datagram, read in place: the number of its cluster, and its content.
#[derive(Drop)]
pub struct MessageRef<'a> {
    pub cluster: u64,
    pub content: ContentRef<'a>,
}

impl<'a> NodeMessageRef<'a> {
    /// Copies it, with its slices, into memory of its own.
    pub fn copy(&self, alloc: Global) -> Result<NodeMessage, NoMemory>
        ensures { IfOk result (λ m. m ≡ shown_node self.now) }
    {
        Ok(match self {
            NodeMessageRef::Prepare(ballot, first) => NodeMessage::Prepare(*ballot, *first),
            NodeMessageRef::Promise(promise) => NodeMessage::Promise(promise.copy(alloc)?),
            NodeMessageRef::Accept(vote) => NodeMessage::Accept(vote.vote()),
            NodeMessageRef::Accepted(vote) => NodeMessage::Accepted(vote.vote()),
            NodeMessageRef::Nack(nack) => NodeMessage::Nack(*nack),
            NodeMessageRef::Decided(decided) => NodeMessage::Decided(decided.copy(alloc)?),
            NodeMessageRef::Want(want) => NodeMessage::Want(*want),
            NodeMessageRef::Part(part) => NodeMessage::Part(part.copy(alloc)?),
            NodeMessageRef::Answer(answered) => NodeMessage::Answer(*answered),
            NodeMessageRef::Elsewhere(elsewhere) => NodeMessage::Elsewhere(*elsewhere),
            NodeMessageRef::Passed(passed) => NodeMessage::Passed(*passed),
            NodeMessageRef::Lead(ballot, executed) => NodeMessage::Lead(*ballot, *executed),
        })
    }
}

impl<'a> ContentRef<'a> {
    /// Copies it, with its slices, into memory of its own.
    pub fn copy(&self, alloc: Global) -> Result<Content, NoMemory>
        ensures { IfOk result (λ c. c ≡ shown_content self.now) }
    {
        Ok(match self {
            ContentRef::Request(request) => Content::Request(request.request()),
            ContentRef::Node(node, message) => Content::Node(*node, message.copy(alloc)?),
        })
    }
}

impl<'a> MessageRef<'a> {
    /// Copies it, with its slices, into memory of its own.
    pub fn copy(&self, alloc: Global) -> Result<Message, NoMemory>
        ensures { IfOk result (λ m. m ≡ shown self.now) }
    {
        let content = self.content.copy(alloc)?;
        Ok(Message {
            cluster: self.cluster,
            content,
        })
    }
}
