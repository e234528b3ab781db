//! What arrived at a server, for its log.

ghost use Rattle.std.specs.Prelude.{◌≡◌, Some};
ghost use Rattle.lk_address_book.specs.Arrivals.{sender};
ghost use Rattle.lk_address_book.specs.Senders.{IsSentBy};

use lk_types::{ClientNo, NodeNo};
use lk_wire::{ContentRef, Datagram, NodeMessageRef};
use std::fmt;

/// What arrived at a server, as far as it could be parsed.
#[derive(Clone, Copy)]
pub enum Arrival {
    /// Some time has passed.
    Tick,
    /// A datagram that does not parse.
    Bad,
    /// A datagram of another cluster.
    Foreign,
    /// A request of a client.
    Request(ClientNo),
    /// A node's Want: it asks for what it has missed.
    Want(NodeNo),
    /// Any other message of a node, by its name.
    Said(&'static str, NodeNo),
}

/// The name of a node's message.
pub fn name_of(message: &NodeMessageRef<'_>) -> &'static str {
    match message {
        NodeMessageRef::Prepare(_, _) => "Prepare",
        NodeMessageRef::Promise(_) => "Promise",
        NodeMessageRef::Accept(_) => "Accept",
        NodeMessageRef::Accepted(_) => "Accepted",
        NodeMessageRef::Nack(_) => "Nack",
        NodeMessageRef::Decided(_) => "Decided",
        NodeMessageRef::Want(_) => "Want",
        NodeMessageRef::Part(_) => "Part",
        NodeMessageRef::Answer(_) => "Answer",
        NodeMessageRef::Elsewhere(_) => "Elsewhere",
        NodeMessageRef::Passed(_) => "Passed",
        NodeMessageRef::Lead(_, _) => "Lead",
    }
}

impl Arrival {
    /// Classifies an envelope of a node of that cluster to itself; `Bad` if it is no message of a node.
    pub fn of_envelope(cluster: u64, datagram: &Datagram<'_>) -> Arrival
        ensures sent { IsSentBy cluster datagram.now (sender result) }
    {
        let Ok(message) = datagram.message() else {
            return Arrival::Bad;
        };
        if message.cluster != cluster {
            return Arrival::Foreign;
        }
        match &message.content {
            ContentRef::Request(_) => Arrival::Bad,
            ContentRef::Node(node, said) => Arrival::said(*node, said),
        }
    }

    /// Returns the node that sent it, if a node did.
    pub fn node(&self) -> Option<NodeNo>
        ensures { result ≡ sender self.now }
    {
        match self {
            Arrival::Want(node) | Arrival::Said(_, node) => Some(*node),
            Arrival::Tick | Arrival::Bad | Arrival::Foreign | Arrival::Request(_) => None,
        }
    }

    /// Classifies a message of a node.
    pub fn said(node: NodeNo, message: &NodeMessageRef<'_>) -> Arrival
        ensures { sender result ≡ Some node }
    {
        match message {
            NodeMessageRef::Want(_) => Arrival::Want(node),
            _ => Arrival::Said(name_of(message), node),
        }
    }
}

impl fmt::Display for Arrival {
    fn fmt<W: fmt::Write>(&self, f: &mut fmt::Formatter<W>) -> fmt::Result {
        match self {
            Arrival::Tick => f.write_str("a tick"),
            Arrival::Bad | Arrival::Foreign => f.write_str("a datagram"),
            Arrival::Request(client) => write!(f, "a request of client {}", client.get()),
            Arrival::Want(node) => write!(f, "Want of node {}", node.get()),
            Arrival::Said(name, node) => write!(f, "{name} of node {}", node.get()),
        }
    }
}
