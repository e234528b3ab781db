//! The post of a node: sends a replica's envelopes over a socket, in frames if there are keys.

ghost use Rattle.std.specs.Prelude.{◌≡◌, ◌≢◌, ◌↔◌, ◌++◌, ◌∷◌, ℕ, [], Some, None, true, false, is_ok, OnOk, OnErr, IfOk};
ghost use Rattle.std.specs.Prelude.{IsErr, IfSome, IsNone};
ghost use Rattle.lk_types.specs.Ranges.{IsClient};
ghost use Rattle.lk_disk.specs.Disk.{HasCause, one_more};
ghost use Rattle.lk_address_book.specs.Addresses.{client_at, node_at, IsSameFilter};
ghost use Rattle.lk_transport.specs.Streams.{Receives};
ghost use Rattle.lk_auth.specs.Seals.{heard};
ghost use Rattle.lk_hearing.specs.Probes.{nothing_sent};
ghost use Rattle.lk_address_book.specs.Arrivals.{sender};
ghost use Rattle.lk_address_book.specs.Senders.{IsSentBy, RecordsSender};
ghost use Rattle.lk_transport.specs.Posts.{IsRoute, IsBoundFor, Becomes};
ghost use Rattle.lk_transport.specs.Posts.{send_state_of, frame_of, keys_for};
ghost use Rattle.lk_transport.specs.Watches.{BringsWatch};

use crate::receive_buffer::ReceiveBuffer;
use crate::received_watch::ReceivedWatch;
use crate::socket::DatagramSocket;
use lk_address_book::addresses::Addresses;
use lk_address_book::arrival::Arrival;
use lk_address_book::hosts::Hosts;
use lk_address_book::network::Network;
use lk_auth::{DIGEST, Seals};
use lk_node_interface::{Envelope, Post, SendFault, To};
use lk_types::{NoMemory, NodeNo};
use lk_wire::Datagram;
use std::alloc::{AllocError, Global};
use std::collections::VecDeque;
use std::io;
use std::marker::Model;
use std::net::SocketAddr;
use std::time::Duration;

// The offset of a datagram's kind, and the kind of a Want.
const KIND: usize = 3;

const WANT: u8 = 7;

/// A socket, and the addresses of those who wrote to it.
///
/// An envelope for a client goes to the address of its last request. An envelope for a node goes to its port at its
/// host, or, if that is not known, to the address from which the node last wrote. An envelope with no known address is
/// dropped. An envelope for this node is queued here; only if memory runs out it goes through the socket.
#[derive(Drop)]
pub struct SocketPost<S: DatagramSocket + Drop> {
    alloc: Global,
    pub(crate) node: NodeNo,
    pub(crate) socket: S,
    pub(crate) addresses: Addresses,
    // the last frame sent, if there are keys
    pub(crate) frame: Vec<u8>,
    // the queue of envelopes of the node to itself
    loopback: VecDeque<Envelope>,
    // envelopes of this group that could not be sent
    failures: u64,
    // the last node that was sent a Want in this group
    wanted: Option<NodeNo>,
    // the last node to which a send failed in it
    unsent: Option<NodeNo>,
}

/// Summarises the sends of a group, for the log.
#[derive(Clone, Copy)]
pub struct SendSummary {
    /// How many envelopes could not be sent: a send failed, or memory ran out for a frame.
    pub lost: u64,
    /// The last node that was sent a Want, if one was.
    pub wanted: Option<NodeNo>,
    /// The last node to which an envelope could not be sent, if there is one.
    pub unsent: Option<NodeNo>,
}

impl SendSummary {
    /// Nothing has been sent.
    pub const NOTHING: SendSummary = SendSummary {
        lost: 0,
        wanted: None,
        unsent: None,
    };
}

impl<S: DatagramSocket + Drop> Model for SocketPost<S> {
    ghost use Rattle.lk_transport.specs.Posts.{SocketPostValue};

    ghost Value = { SocketPostValue };

    ghost view = { λ p. record {
      node = p.node;
      addresses = p.addresses;
      loopback = p.loopback.items;
      sent = S.sent p.socket;
      socket_failures = S.failures p.socket;
      failures = p.failures;
      incoming = S.incoming p.socket;
    } };
}

// Returns the address to which an envelope goes, if one is known. Port 0 means that the node's port is unknown.
pub(crate) fn route(addresses: &Addresses, to: &To) -> Option<SocketAddr>
    ensures { IsRoute addresses.now to.now result }
{
    match to {
        To::Client(client) => addresses.client(*client),
        To::Node(node, 0) => addresses.node(*node),
        To::Node(node, port) => match addresses.host(*node) {
            Some(address) => Some(SocketAddr::from((address, *port))),
            None => addresses.node(*node),
        },
    }
}

// Returns the bytes to send for a datagram: its frame, which overwrites the frame buffer, or the datagram itself if
// there is no key for the recipient.
pub(crate) fn framed<'a>(
    seals: &Seals,
    to: &To,
    bytes: &'a [u8],
    frame: &'a mut Vec<u8>,
) -> Result<&'a [u8], AllocError>
    ensures ok { IfOk result (λ f. f.now ≡ frame_of seals.now to.now bytes.now) }
    ensures refused { IsErr result → keys_for seals.now to.now ≢ [] }
{
    match to {
        To::Node(node, _) => seals.seal_to_node(node.get(), bytes, frame),
        To::Client(client) => seals.seal_to_client(client.get(), bytes, frame),
    }
}

// Sends an envelope's frame: to a client at once, to a node perhaps together with others of its group.
fn hand_over<S: DatagramSocket>(
    socket: &mut S,
    to: &To,
    address: SocketAddr,
    frame: &[u8],
) -> Result<(), SendFault>
    ensures ok { S.is_observable → OnOk result (S.sent socket.new ≡ S.sent socket.old ++ (address, frame.now) ∷ []) }
    ensures err { S.is_observable → OnErr result (S.sent socket.new ≡ S.sent socket.old) }
    ensures still { S.is_observable → S.incoming socket.new ≡ S.incoming socket.old }
    ensures cause { S.is_observable → HasCause (S.failures socket.old) (S.failures socket.new) result }
{
    match to {
        To::Node(node, _) => socket.send_in_group(*node, address, frame),
        To::Client(_) => socket.send_to(address, frame),
    }
}

impl<S: DatagramSocket + Drop> SocketPost<S> {
    /// Creates the post of a node to which nobody has written yet.
    pub fn new(alloc: Global, node: NodeNo, network: Network, socket: S) -> SocketPost<S>
        ensures node { result.node ≡ node }
        ensures clients { (c : ℕ) → IsClient c → client_at result.addresses c ≡ None }
        ensures nodes { (n : ℕ) → node_at result.addresses n ≡ None }
        ensures loopback { result.loopback ≡ [] }
        ensures sent { result.sent ≡ S.sent socket }
        ensures socket_failures { result.socket_failures ≡ S.failures socket }
        ensures failures { result.failures ≡ 0 }
        ensures network { (result.addresses.hosts ≡ network.hosts) × (result.addresses.seals ≡ network.seals)
            × (result.addresses.admins ≡ network.admins) }
        ensures hearing { result.addresses.hearing ≡ nothing_sent }
        ensures incoming { result.incoming ≡ S.incoming socket }
    {
        SocketPost {
            alloc,
            node,
            socket,
            addresses: Addresses::new(network),
            frame: Vec::new(alloc),
            loopback: VecDeque::new(alloc),
            failures: 0,
            wanted: None,
            unsent: None,
        }
    }

    /// Records the source of a datagram of the cluster, as `Addresses::record_sender` does. Returns what came, to log.
    pub fn record_sender(
        &mut self,
        cluster: u64,
        datagram: &Datagram<'_>,
        from: SocketAddr,
    ) -> Arrival
        ensures heard { RecordsSender cluster datagram.now from self.old.addresses self.new.addresses }
        ensures sent { IsSentBy cluster datagram.now (sender result) }
        ensures network { IsSameFilter self.old.addresses self.new.addresses }
        ensures others { self.new ≡ record self.old { addresses = self.new.addresses } }
    {
        self.addresses.record_sender(cluster, datagram, from)
    }

    /// Removes and returns the first queued envelope of the node to itself.
    pub fn next_loopback(&mut self) -> Option<Envelope>
        ensures some { IfSome result (λ l. self.old.loopback ≡ l ∷ self.new.loopback) }
        ensures none { IsNone result → self.old.loopback ≡ [] }
        ensures unchanged { IsNone result → self.new ≡ self.old }
        ensures others { self.new ≡ record self.old { loopback = self.new.loopback } }
    {
        self.loopback.pop_front()
    }

    /// Sets how long a receive waits at most for the next datagram; it may wait up to 10 ms longer.
    pub fn set_timeout(&mut self, time: Duration)
        ensures { self.new ≡ self.old }
    {
        self.socket.set_timeout(time);
    }

    /// Receives the next datagram of the socket into the buffer, if one arrives within the timeout.
    pub fn receive(&mut self, buffer: &mut ReceiveBuffer)
        ensures comes { S.is_observable → Receives buffer.new.last self.old.incoming self.new.incoming }
        ensures asked { buffer.new.asked ≡ buffer.old.asked }
        ensures reported { buffer.new.reported ≡ buffer.old.reported }
        ensures watched { buffer.new.watched ≡ buffer.old.watched }
        ensures others { self.new ≡ record self.old { incoming = self.new.incoming } }
    {
        buffer.receive(&mut self.socket);
    }

    /// Receives the next datagram into the buffer if one is already waiting, and does not wait for one.
    pub fn try_receive(&mut self, buffer: &mut ReceiveBuffer)
        ensures comes { S.is_observable → Receives buffer.new.last self.old.incoming self.new.incoming }
        ensures asked { buffer.new.asked ≡ buffer.old.asked }
        ensures reported { buffer.new.reported ≡ buffer.old.reported }
        ensures watched { buffer.new.watched ≡ buffer.old.watched }
        ensures others { self.new ≡ record self.old { incoming = self.new.incoming } }
    {
        buffer.try_receive(&mut self.socket);
    }

    /// Opens a frame: returns its datagram if a node sealed it for this one, or it is a client's request, sealed if
    /// clients have keys; otherwise no bytes. If the nodes have no key it returns the frame unchanged.
    pub fn open<'a>(&self, frame: &'a [u8]) -> &'a [u8]
        ensures { result.now ≡ heard self.now.addresses.seals frame.now }
    {
        self.addresses.seals().unseal(frame)
    }

    /// Parses the watch in a datagram, which was opened from a frame that arrived from an address; `None` if it is not
    /// to be answered (see `ReceivedWatch::by`).
    pub fn read_watch(
        &self,
        from: SocketAddr,
        frame: &[u8],
        datagram: &[u8],
    ) -> Option<ReceivedWatch>
        requires { datagram.now ≡ heard self.now.addresses.seals frame.now }
        ensures { BringsWatch self.now.addresses.seals (from, frame.now) result }
    {
        ReceivedWatch::by(self.addresses.seals(), from, frame, datagram)
    }

    /// The digest of the genesis.
    pub fn genesis(&self) -> [u8; DIGEST]
        ensures { result ≡ self.now.addresses.seals.genesis }
    {
        self.addresses.seals().genesis
    }

    /// Where the nodes live.
    pub fn hosts(&self) -> &Hosts
        ensures { result.now ≡ self.now.addresses.hosts }
    {
        self.addresses.hosts()
    }

    /// Sets where the nodes live: from now on envelopes go there.
    pub fn set_hosts(&mut self, hosts: Hosts)
        ensures { self.new ≡ record self.old { addresses = record self.old.addresses { hosts = hosts } } }
    {
        self.addresses.set_hosts(hosts);
    }

    /// The node whose post it is.
    pub fn node(&self) -> NodeNo
        ensures { result ≡ self.now.node }
    {
        self.node
    }

    /// The socket.
    pub fn socket_mut(&mut self) -> &mut S {
        &mut self.socket
    }

    /// Why the last failed send failed, if the system reported it.
    pub fn cause(&self) -> Option<io::Error> {
        self.socket.cause()
    }

    /// Begins a group: from now on `send_summary` counts anew.
    pub fn start_group(&mut self)
        ensures { self.new ≡ record self.old { failures = 0 } }
    {
        self.failures = 0;
        self.wanted = None;
        self.unsent = None;
    }

    /// Ends a group: sends what the socket has kept of it, and counts what is lost.
    pub fn end_group(&mut self)
        ensures { self.new ≡ record self.old { failures = self.new.failures } }
    {
        let (lost, node) = self.socket.flush();
        self.failures = self.failures.saturating_add(lost);
        if node.is_some() {
            self.unsent = node;
        }
    }

    /// Summarises the sends since the group began.
    pub fn send_summary(&self) -> SendSummary
        ensures { result.lost ≡ self.now.failures }
    {
        SendSummary {
            lost: self.failures,
            wanted: self.wanted,
            unsent: self.unsent,
        }
    }

    // Records the recipient of an envelope that was sent or queued, if it is a Want to a node, for the log.
    fn note_sent(&mut self, to: &To, bytes: &[u8])
        ensures { self.new ≡ self.old }
    {
        match to {
            To::Node(node, _) if bytes.get(KIND) == Some(&WANT) => self.wanted = Some(*node),
            _ => {}
        }
    }

    // Counts an envelope that could not be sent, and records its node for the log.
    fn count_lost(&mut self, to: &To)
        ensures { self.new ≡ record self.old { failures = one_more self.old.failures } }
    {
        self.failures = self.failures.saturating_add(1);
        if let To::Node(node, _) = to {
            self.unsent = Some(*node);
        }
    }

    // Whether it is addressed to this node.
    fn is_loopback(&self, to: &To) -> bool
        ensures { result ≡ true ↔ IsBoundFor self.now.node to.now }
    {
        match to {
            To::Node(node, _) => *node == self.node,
            To::Client(_) => false,
        }
    }

    // Queues an envelope of the node to itself. Out of memory it changes nothing.
    fn keep_loopback(&mut self, to: To, bytes: &[u8]) -> Result<(), NoMemory>
        ensures ok { OnOk result
            (self.new ≡ record self.old {
              loopback = self.old.loopback ++ record { to = to; bytes = bytes.now } ∷ [];
            }) }
        ensures err { OnErr result (self.new ≡ self.old) }
    {
        let kept = bytes.to_vec(self.alloc)?;
        self.loopback.push_back(Envelope { to, bytes: kept })?;
        self.note_sent(&to, bytes);
        Ok(())
    }

    // Frames an envelope and sends it over the socket, even one to this node. An envelope with no known address is
    // dropped, which is no failure; a failed send, or no memory for the frame, is counted.
    fn transmit(&mut self, to: To, bytes: &[u8]) -> Result<(), SendFault>
        ensures becomes { Becomes S.is_observable self.old.node self.old.addresses (send_state_of self.old)
            (record { to = to; bytes = bytes.now }) (is_ok result) (send_state_of self.new) }
        ensures loopback { self.new.loopback ≡ self.old.loopback }
        ensures node { self.new.node ≡ self.old.node }
        ensures addresses { self.new.addresses ≡ self.old.addresses }
        ensures still { S.is_observable → self.new.incoming ≡ self.old.incoming }
        ensures cause { HasCause self.old.failures self.new.failures result }
    {
        let Some(address) = route(&self.addresses, &to) else {
            return Ok(());
        };
        let sent = match framed(self.addresses.seals(), &to, bytes, &mut self.frame) {
            Ok(framed) => hand_over(&mut self.socket, &to, address, framed),
            Err(_) => Err(SendFault),
        };
        match sent {
            Ok(()) => {
                self.note_sent(&to, bytes);
                Ok(())
            }
            Err(SendFault) => {
                self.count_lost(&to);
                Err(SendFault)
            }
        }
    }
}

impl<S: DatagramSocket + Drop> Post for SocketPost<S> {
    ghost use Rattle.std.specs.Prelude.{[]};
    ghost use Rattle.lk_transport.specs.Posts.{CarriesEnvelope};

    ghost sent = { λ _. [] };

    ghost is_observable = { ⊥ };

    ghost failures = { λ p. p.failures };

    ghost Carries = { CarriesEnvelope S.is_observable };

    // Out of memory for its queue, an envelope to this node goes through the socket.
    fn send(&mut self, to: To, bytes: &[u8]) -> Result<(), SendFault> {
        if self.is_loopback(&to) && self.keep_loopback(to, bytes).is_ok() {
            return Ok(());
        }
        self.transmit(to, bytes)
    }
}
