//! Asks each node that writes to this one which genesis it was started with, and records the reports.

ghost use Rattle.std.specs.Prelude.{◌≡◌, Some, is_some};
ghost use Rattle.lk_probe.specs.Neighbours.{bound_in, is_stranger};
ghost use Rattle.lk_auth.specs.Seals.{heard};
ghost use Rattle.lk_address_book.specs.Addresses.{IsSameNetwork};
ghost use Rattle.lk_address_book.specs.Inquiries.{LearnsOf};
ghost use Rattle.lk_transport.specs.Inquiring.{AsksOne, IsReportedBy, ReadmitsKept, SendsProbe};
ghost use Rattle.lk_transport.specs.Inquiring.{question_by};
ghost use Rattle.lk_transport.specs.Posts.{send_state_of};

use crate::post::SocketPost;
use crate::received_probe::ReceivedProbe;
use crate::socket::DatagramSocket;
use lk_node_interface::SendFault;
use lk_probe::Probe;
use lk_probe::neighbours::{Neighbour, Origin};
use lk_probe::reported::{Reported, question};
use lk_types::NodeNo;
use std::net::SocketAddr;

impl<S: DatagramSocket + Drop> SocketPost<S> {
    // Returns the probe by which this node asks another for its genesis.
    fn question(&self) -> Probe
        ensures { result ≡ question_by self.now.addresses.seals self.now.node }
    {
        let genesis = self.genesis();
        let asker = Origin {
            node: self.node,
            genesis,
        };
        question(self.addresses.seals().cluster, asker)
    }

    /// Parses the report in a datagram, which was opened from a frame that arrived from an address; `None` if it is
    /// none, is of another cluster, replies to a client, or came without a seal though the nodes have a key.
    pub fn read_report(&self, from: SocketAddr, frame: &[u8], datagram: &[u8]) -> Option<Reported>
        requires { datagram.now ≡ heard self.now.addresses.seals frame.now }
        ensures { IsReportedBy self.now.addresses.seals (from, frame.now) result }
    {
        let seals = self.addresses.seals();
        if !seals.nodes.is_none() && frame.len() == datagram.len() {
            return None;
        }
        Reported::by(seals.cluster, from, datagram)
    }

    /// Records the genesis that a report names for the node at its address, and returns the updated entry; `None`, and
    /// nothing changes, if it does not reply to the question of this node, or that address was not asked or has
    /// answered before.
    pub fn learn(&mut self, reported: &Reported) -> Option<Neighbour>
        ensures learns { LearnsOf self.old.node reported.now result self.old.addresses self.new.addresses }
        ensures network { IsSameNetwork self.old.addresses self.new.addresses }
        ensures others { self.new ≡ record self.old { addresses = self.new.addresses } }
    {
        self.addresses.learn(self.node, reported)
    }

    /// Accepts datagrams from the address of a probe again, if a node of this genesis sent it: if another genesis was
    /// recorded there, the address counts as never asked. Any other probe changes nothing.
    pub fn readmit(&mut self, asked: &ReceivedProbe)
        ensures readmits { ReadmitsKept (Some asked.now) self.old.addresses self.new.addresses }
        ensures network { IsSameNetwork self.old.addresses self.new.addresses }
        ensures others { self.new ≡ record self.old { addresses = self.new.addresses } }
    {
        let genesis = self.genesis();
        if asked.is_of(&genesis) {
            self.addresses.readmit(asked.from);
        }
    }

    // Sends the question of this node to an address.
    fn send_question(&mut self, address: SocketAddr) -> Result<(), SendFault>
        ensures sends { SendsProbe S.is_observable (question_by self.old.addresses.seals self.old.node) (Some address)
            (send_state_of self.old) (send_state_of self.new) }
        ensures still { S.is_observable → self.new.incoming ≡ self.old.incoming }
        ensures others { self.new
            ≡ record self.old {
              sent = self.new.sent;
              socket_failures = self.new.socket_failures;
              incoming = self.new.incoming;
            } }
    {
        let datagram = self.question().datagram();
        self.socket.send_to(address, datagram.as_slice())
    }

    /// Sends this node's question to one address at which it is due, if there is one. `now` is the count of ticks. A
    /// question whose send fails counts as asked.
    pub fn probe_next(&mut self, now: u64) -> Result<(), SendFault>
        ensures asks { AsksOne S.is_observable now self.old.node self.old.addresses self.new.addresses
            (send_state_of self.old) (send_state_of self.new) }
        ensures network { IsSameNetwork self.old.addresses self.new.addresses }
        ensures still { S.is_observable → self.new.incoming ≡ self.old.incoming }
        ensures others { self.new
            ≡ record self.old {
              addresses = self.new.addresses;
              sent = self.new.sent;
              socket_failures = self.new.socket_failures;
              incoming = self.new.incoming;
            } }
    {
        match self.addresses.next_to_probe(now) {
            Some(address) => self.send_question(address),
            None => Ok(()),
        }
    }

    /// Returns the node of another genesis at that address, if one reported from there.
    pub fn stranger(&self, address: SocketAddr) -> Option<NodeNo>
        ensures { is_some result ≡ is_stranger self.now.addresses.neighbours address }
    {
        self.addresses.stranger(address)
    }

    /// Returns the first node of another genesis that this node has followed, if there is one.
    pub fn followed_stranger(&self) -> Option<Origin>
        ensures { result ≡ bound_in self.now.addresses.neighbours }
    {
        self.addresses.followed_stranger()
    }
}
