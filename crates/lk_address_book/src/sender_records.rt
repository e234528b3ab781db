//! Records the address of whoever sent a datagram, and classifies the datagram for the log.

ghost use Rattle.std.specs.Prelude.{◌≡◌};
ghost use Rattle.lk_wire.specs.Shown.{shown_node};
ghost use Rattle.lk_address_book.specs.Addresses.{IsSameFilter};
ghost use Rattle.lk_address_book.specs.Arrivals.{sender};
ghost use Rattle.lk_address_book.specs.Senders.{IsSentBy, RecordsSender, is_binding};

use crate::addresses::Addresses;
use crate::arrival::Arrival;
use lk_wire::{ContentRef, Datagram, NodeMessageRef};
use std::net::SocketAddr;

// Returns whether a node that accepts this message follows its sender: its ballot, its leader or its decisions.
fn is_binding(message: &NodeMessageRef<'_>) -> bool
    ensures { result ≡ is_binding (shown_node message.now) }
{
    matches!(
        message,
        NodeMessageRef::Prepare(_, _)
            | NodeMessageRef::Accept(_)
            | NodeMessageRef::Decided(_)
            | NodeMessageRef::Lead(_, _)
    )
}

impl Addresses {
    /// Records the source of a datagram of the cluster if it is a client's request or a node's message, and ignores
    /// everything else. Returns what arrived, for the log.
    pub fn record_sender(
        &mut self,
        cluster: u64,
        datagram: &Datagram<'_>,
        from: SocketAddr,
    ) -> Arrival
        ensures heard { RecordsSender cluster datagram.now from self.old self.new }
        ensures sent { IsSentBy cluster datagram.now (sender result) }
        ensures network { IsSameFilter self.old self.new }
    {
        let Ok(message) = datagram.message() else {
            return Arrival::Bad;
        };
        if message.cluster != cluster {
            return Arrival::Foreign;
        }
        match &message.content {
            ContentRef::Request(request) => {
                let client = request.request().client;
                self.record_client(client, from);
                Arrival::Request(client)
            }
            ContentRef::Node(node, said) => {
                self.record_node(*node, from, is_binding(said));
                Arrival::said(*node, said)
            }
        }
    }
}
