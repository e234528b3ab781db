ghost use Rattle.std.specs.Prelude.{◌≡◌, ◌≤◌, ◌↔◌, ℕ, List, length, IsSome, IfSome};
ghost use Rattle.lk_types.specs.Payloads.{IsPayload};
ghost use Rattle.lk_types.specs.Commands.{IsOp, IsRequest, IsCommand};

use crate::client::ClientNo;
use crate::limits::MAX_PAYLOAD;
use crate::node::NodeNo;
use crate::port::Port;
use crate::request_number::RequestNumber;
use arrayvec::ArrayVec;
use std::marker::Model;

/// The body of a request to the state machine: 1 to 64 bytes, which only that machine parses.
#[derive(Clone, Debug, PartialEq, Eq, Drop)]
pub struct Payload {
    bytes: ArrayVec<u8, MAX_PAYLOAD>,
}

impl Model for Payload {
    ghost use Rattle.std.specs.Prelude.{ℕ, List};
    ghost use Rattle.lk_types.specs.Payloads.{IsPayload};

    ghost Value = { List ℕ };

    ghost view = { λ b. b.bytes.items };

    ghost invariant = { λ b. IsPayload b.bytes.items };

    ghost inverse = { λ xs. record { bytes = record { items = xs } } };
}

impl Payload {
    /// The payload, or `None` if there are not 1 to 64 bytes.
    pub fn of(bytes: &[u8]) -> Option<Payload>
        ensures some { IsSome result ↔ IsPayload bytes.now }
        ensures value { IfSome result (λ b. b ≡ bytes.now) }
    {
        if bytes.is_empty() {
            return None;
        }
        let bytes = ArrayVec::try_from(bytes).ok()?;
        Some(Payload { bytes })
    }

    /// The bytes.
    pub fn as_slice(&self) -> &[u8]
        ensures value { result.now ≡ self.now }
        ensures fits { IsPayload self.now }
    {
        self.bytes.as_slice()
    }

    /// The same payload. Takes no memory.
    pub fn copy(&self) -> Payload
        ensures { result ≡ self.now }
    {
        let bytes = self.bytes.clone().unwrap();
        Payload { bytes }
    }
}

/// What a request asks for.
#[derive(Debug, PartialEq, Eq, Drop)]
pub enum Op {
    /// An operation on the state machine (the lock table), as bytes.
    Table(Payload),
    /// Makes a node a member, which is reached at this UDP port.
    Join(NodeNo, Port),
    /// Removes a node from the members.
    Leave(NodeNo),
    /// Raises the machine: from then on it has the operations of its second version.
    Raise,
}

/// A client's request. It takes effect only if its number is above all earlier ones of its client, so at most once.
#[derive(Debug, PartialEq, Eq, Drop)]
pub struct Request {
    pub client: ClientNo,
    pub number: RequestNumber,
    pub op: Op,
}

/// An entry of the replicated list of commands.
#[derive(Debug, PartialEq, Eq, Drop)]
pub enum Command {
    /// Does nothing; fills a gap in the list.
    Noop,
    Request(Request),
}

impl Op {
    /// The same op. Takes no memory.
    pub fn copy(&self) -> Op
        ensures { result ≡ self.now }
    {
        match self {
            Op::Table(payload) => Op::Table(payload.copy()),
            Op::Join(node, port) => Op::Join(*node, *port),
            Op::Leave(node) => Op::Leave(*node),
            Op::Raise => Op::Raise,
        }
    }

    /// Shows the prover that each part is in its range. Does nothing at run time.
    pub fn facts(&self)
        ensures { IsOp self.now }
    {
        match self {
            Op::Table(payload) => {
                let _ = payload.as_slice();
            }
            Op::Join(node, port) => {
                let _ = node.get();
                let _ = port.get();
            }
            Op::Leave(node) => {
                let _ = node.get();
            }
            Op::Raise => {}
        }
    }
}

impl Request {
    /// The same request. Takes no memory.
    pub fn copy(&self) -> Request
        ensures { result ≡ self.now }
    {
        Request {
            client: self.client,
            number: self.number,
            op: self.op.copy(),
        }
    }

    /// Shows the prover that each part is in its range. Does nothing at run time.
    pub fn facts(&self)
        ensures { IsRequest self.now }
    {
        let _ = self.client.get();
        let _ = self.number.get();
        self.op.facts();
    }
}

impl Command {
    /// The same command. Takes no memory.
    pub fn copy(&self) -> Command
        ensures { result ≡ self.now }
    {
        match self {
            Command::Noop => Command::Noop,
            Command::Request(request) => Command::Request(request.copy()),
        }
    }

    /// Shows the prover that each part is in its range. Does nothing at run time.
    pub fn facts(&self)
        ensures { IsCommand self.now }
    {
        if let Command::Request(request) = self {
            request.facts();
        }
    }
}
