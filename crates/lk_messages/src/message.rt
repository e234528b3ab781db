ghost use Rattle.std.specs.Prelude.{◌≡◌, ◌<◌, ◌≤◌, ◌↔◌, IsSome, IfSome};
ghost use Rattle.lk_types.specs.Limits.{max_base};
ghost use Rattle.lk_messages.specs.Values.{IsPassed, IsWant};

use crate::decided::Decided;
use crate::part::Part;
use crate::promise::Promise;
use lk_types::limits::MAX_BASE;
use lk_types::{
    Answer, Ballot, ClientNo, Executed, Member, NodeNo, Position, RealBallot, Request,
    RequestNumber, Vote,
};
use std::marker::Model;

/// What a node that is behind asks for: the commands from a position on, or, if these are gone, a snapshot from an
/// offset on.
#[derive(Clone, Copy, Debug)]
pub struct Want {
    first: Position,
    offset: u32,
}

impl Model for Want {
    ghost use Rattle.lk_messages.specs.Values.{WantValue, IsWant};

    ghost Value = { WantValue };

    ghost view = { λ w. record { first = w.first; offset = w.offset } };

    ghost invariant = { λ w. IsWant (record { first = w.first; offset = w.offset }) };

    ghost inverse = { λ w. record { first = w.first; offset = w.offset } };
}

impl Want {
    /// The value, or `None` if the offset is above 65,536.
    pub fn of(first: Position, offset: u32) -> Option<Want>
        ensures some { IsSome result ↔ (offset ≤ max_base) }
        ensures value { IfSome result (λ w. w ≡ record { first = first; offset = offset }) }
    {
        let _ = first.get();
        if offset as usize > MAX_BASE {
            return None;
        }
        Some(Want { first, offset })
    }

    /// The first position that is wanted.
    pub fn first(self) -> Position
        ensures { result ≡ self.first }
    {
        self.first
    }

    /// How many bytes of a snapshot the node has already.
    pub fn offset(self) -> u32
        ensures { result ≡ self.offset }
    {
        self.offset
    }

    /// Shows the prover that each part is in its range. Does nothing at run time.
    pub fn facts(self)
        ensures { IsWant self }
    {}
}

/// The reply to a request whose number is below its client's last one.
#[derive(Clone, Copy, Debug)]
pub struct Passed {
    client: ClientNo,
    number: RequestNumber,
    last: RequestNumber,
}

impl Model for Passed {
    ghost use Rattle.lk_messages.specs.Values.{PassedValue, IsPassed};

    ghost Value = { PassedValue };

    ghost view = { λ p. record { client = p.client; number = p.number; last = p.last } };

    ghost invariant = { λ p. IsPassed (record { client = p.client; number = p.number; last = p.last }) };

    ghost inverse = { λ p. record { client = p.client; number = p.number; last = p.last } };
}

impl Passed {
    /// The value for that client and number, or `None` if the last number is not above it.
    pub fn of(client: ClientNo, number: RequestNumber, last: RequestNumber) -> Option<Passed>
        ensures some { IsSome result ↔ (number < last) }
        ensures value { IfSome result (λ p. p ≡ record { client = client; number = number; last = last }) }
    {
        let _ = client.get();
        if number.get() >= last.get() {
            return None;
        }
        Some(Passed {
            client,
            number,
            last,
        })
    }

    /// The client.
    pub fn client(self) -> ClientNo
        ensures { result ≡ self.client }
    {
        self.client
    }

    /// The number of the rejected request.
    pub fn number(self) -> RequestNumber
        ensures { result ≡ self.number }
    {
        self.number
    }

    /// The client's last number.
    pub fn last(self) -> RequestNumber
        ensures { result ≡ self.last }
    {
        self.last
    }

    /// Shows the prover that each part is in its range and the last number above the other. Does nothing at run time.
    pub fn facts(self)
        ensures { IsPassed self }
    {}
}

/// A rejection: the rejected ballot, the promised one, and how many positions its sender has executed.
#[derive(Clone, Copy, Debug)]
pub struct Nack {
    pub ballot: RealBallot,
    pub promised: Ballot,
    pub executed: Executed,
}

/// The answer to a client's request.
#[derive(Clone, Copy, Debug)]
pub struct Answered {
    pub client: ClientNo,
    pub number: RequestNumber,
    pub answer: Answer,
}

/// The reply of a node that does not lead: the member that the client should ask instead.
#[derive(Clone, Copy, Debug)]
pub struct Elsewhere {
    pub client: ClientNo,
    pub number: RequestNumber,
    pub member: Member,
}

/// A node's message.
#[derive(Debug, Drop)]
pub enum NodeMessage {
    /// It asks for promises of a ballot, from a position on (Lamport 2001, section 2.2, phase 1a).
    Prepare(RealBallot, Position),
    Promise(Promise),
    /// It proposes a command for a position in a ballot (phase 2a).
    Accept(Vote),
    /// It voted for that (phase 2b).
    Accepted(Vote),
    Nack(Nack),
    Decided(Decided),
    Want(Want),
    Part(Part),
    Answer(Answered),
    Elsewhere(Elsewhere),
    Passed(Passed),
    /// It leads in this ballot, and has executed this many positions.
    Lead(RealBallot, Executed),
}

/// The content of a datagram, and its sender.
#[derive(Debug, Drop)]
pub enum Content {
    /// A client's request, which names no node as its sender.
    Request(Request),
    /// A message of that node.
    Node(NodeNo, NodeMessage),
}

/// A whole datagram: the number of its cluster, and its content.
#[derive(Debug, Drop)]
pub struct Message {
    pub cluster: u64,
    pub content: Content,
}

impl NodeMessage {
    ghost use Rattle.lk_messages.specs.Grammar.{IsNodeMessage};

    /// Shows the prover that each part is in its range. Does nothing at run time.
    pub fn facts(&self)
        ensures { IsNodeMessage self.now }
    {
        match self {
            NodeMessage::Prepare(ballot, first) => {
                let _ = (ballot.get(), first.get());
            }
            NodeMessage::Promise(promise) => promise.facts(),
            NodeMessage::Accept(vote) | NodeMessage::Accepted(vote) => vote.facts(),
            NodeMessage::Nack(nack) => {
                let _ = (nack.ballot.get(), nack.promised.node(), nack.executed.get());
            }
            NodeMessage::Decided(decided) => decided.facts(),
            NodeMessage::Want(want) => want.facts(),
            NodeMessage::Part(part) => part.facts(),
            NodeMessage::Answer(answered) => {
                let _ = (answered.client.get(), answered.number.get());
                answered.answer.facts();
            }
            NodeMessage::Elsewhere(elsewhere) => {
                let _ = (elsewhere.client.get(), elsewhere.number.get());
                elsewhere.member.facts();
            }
            NodeMessage::Passed(passed) => passed.facts(),
            NodeMessage::Lead(ballot, executed) => {
                let _ = (ballot.get(), executed.get());
            }
        }
    }
}

impl Content {
    ghost use Rattle.lk_messages.specs.Grammar.{IsContent};

    /// Shows the prover that each part is in its range. Does nothing at run time.
    pub fn facts(&self)
        ensures { IsContent self.now }
    {
        match self {
            Content::Request(request) => request.facts(),
            Content::Node(node, message) => {
                let _ = node.get();
                message.facts();
            }
        }
    }
}

impl Message {
    ghost use Rattle.lk_messages.specs.Grammar.{IsMessage};

    /// Shows the prover that each part is in its range. Does nothing at run time.
    pub fn facts(&self)
        ensures { IsMessage self.now }
    {
        let _cluster = self.cluster;
        self.content.facts();
    }
}
