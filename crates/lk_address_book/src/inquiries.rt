//! Which genesis the node at each address was started with: what is asked, and what is learnt.

ghost use Rattle.std.specs.Prelude.{◌≡◌, is_some};
ghost use Rattle.lk_probe.specs.Neighbours.{Readmits, bound_in, is_stranger};
ghost use Rattle.lk_address_book.specs.Addresses.{IsSameNetwork};
ghost use Rattle.lk_address_book.specs.Inquiries.{IsAskedAt, LearnsOf};

use crate::addresses::Addresses;
use lk_probe::neighbours::{Neighbour, Origin};
use lk_probe::reported::Reported;
use lk_types::NodeNo;
use std::net::SocketAddr;

impl Addresses {
    /// Returns an address at which a question is due, if there is one, and records it as asked. `now` is the count of
    /// ticks. If the nodes have a key it returns `None`: their frames already prove the genesis.
    pub fn next_to_probe(&mut self, now: u64) -> Option<SocketAddr>
        ensures asked { IsAskedAt now result self.old self.new }
        ensures network { IsSameNetwork self.old self.new }
    {
        if !self.seals().nodes.is_none() {
            return None;
        }
        self.neighbours.next_to_probe(now)
    }

    /// Records that a node of this genesis asked from an address: if another genesis was recorded there, the address
    /// counts as never asked.
    pub fn readmit(&mut self, address: SocketAddr)
        ensures readmits { Readmits address self.old.neighbours self.new.neighbours }
        ensures others { self.new ≡ record self.old { neighbours = self.new.neighbours } }
    {
        self.neighbours.readmit(address);
    }

    /// Records the genesis that a report names for the node at its address, and returns the updated entry; `None`, and
    /// nothing changes, if it does not reply to the question of `node`, this node, or that address was not asked or has
    /// answered before.
    pub fn learn(&mut self, node: NodeNo, reported: &Reported) -> Option<Neighbour>
        ensures learns { LearnsOf node reported.now result self.old self.new }
        ensures network { IsSameNetwork self.old self.new }
    {
        if reported.token != u64::from(node.get()) {
            return None;
        }
        let own = self.seals().genesis;
        self.neighbours
            .learn(reported.from, &own, reported.reporter)
    }

    /// Returns the node of another genesis at that address, if one reported from there.
    pub fn stranger(&self, address: SocketAddr) -> Option<NodeNo>
        ensures { is_some result ≡ is_stranger self.now.neighbours address }
    {
        self.neighbours.stranger(address)
    }

    /// Returns the first node of another genesis that this node has followed, if there is one.
    pub fn followed_stranger(&self) -> Option<Origin>
        ensures { result ≡ bound_in self.now.neighbours }
    {
        self.neighbours.followed_stranger()
    }
}
