//! The address book of a node: from where each client and node last wrote, the hosts of the nodes, the keys that
//! identify senders, and which genesis the node at each address has.

ghost use Rattle.std.specs.Prelude.{◌≡◌, ◌≢◌, ℕ, Some, None, false, min};
ghost use Rattle.lk_hearing.specs.Probes.{nothing_sent};
ghost use Rattle.lk_types.specs.Ranges.{IsClient};
ghost use Rattle.lk_probe.specs.Neighbours.{Meets};
ghost use Rattle.lk_address_book.specs.Addresses.{client_at, node_at, node_in, index_in, moved_up, IsSameFilter};
ghost use Rattle.lk_address_book.specs.Hosts.{host_of};

use crate::admins::Admins;
use crate::hosts::Hosts;
use crate::network::Network;
use lk_auth::Seals;
use lk_hearing::hearing::Hearing;
use lk_probe::neighbours::Neighbours;
use lk_types::{ClientNo, NodeNo};
use std::marker::Model;
use std::net::{IpAddr, SocketAddr};

// How many clients there are.
const CLIENTS: usize = 256;
// How many nodes' addresses are kept. Only nodes outside the window, whose port is unknown, or with an unknown host
// need one.
const NODES: usize = 64;

/// The address from which each client last wrote, and those of the last 64 nodes that wrote. Its size is fixed,
/// whatever arrives.
#[derive(Drop)]
pub struct Addresses {
    clients: [Option<SocketAddr>; CLIENTS],
    // the most recent first
    nodes: [Option<(NodeNo, SocketAddr)>; NODES],
    hosts: Hosts,
    seals: Seals,
    // whose administrative requests are taken
    pub(crate) admins: Admins,
    // which genesis the node at each address from which nodes wrote was started with
    pub(crate) neighbours: Neighbours,
    // the probes by which this node hears the other members
    pub(crate) hearing: Hearing,
    // whether it hears too few of them, so that clients' requests are dropped
    pub(crate) is_deaf: bool,
    // the greatest number of a node that had joined when this was last set, 0 before
    pub(crate) joined: u32,
}

impl Model for Addresses {
    ghost use Rattle.lk_address_book.specs.Addresses.{AddressBook};

    ghost Value = { AddressBook };

    ghost view = { λ a. record {
      clients = a.clients;
      nodes = a.nodes;
      hosts = a.hosts;
      seals = a.seals;
      admins = a.admins;
      neighbours = a.neighbours;
      hearing = a.hearing;
      deaf = a.is_deaf;
      joined = a.joined;
    } };
}

// Returns the address in the first entry of a node, if it has one.
fn address_in(entries: &[Option<(NodeNo, SocketAddr)>], node: NodeNo) -> Option<SocketAddr>
    ensures { result ≡ node_in entries.now node }
{
    for entry in entries {
        match entry {
            Some((other, from)) if *other == node => return Some(*from),
            _ => {}
        }
    }
    None
}

impl Addresses {
    /// Creates an address book in which nobody has written yet.
    pub fn new(network: Network) -> Addresses
        ensures clients { (c : ℕ) → IsClient c → client_at result c ≡ None }
        ensures nodes { (n : ℕ) → node_at result n ≡ None }
        ensures hosts { result.hosts ≡ network.hosts }
        ensures seals { result.seals ≡ network.seals }
        ensures admins { result.admins ≡ network.admins }
        ensures hearing { result.hearing ≡ nothing_sent }
        ensures deaf { result.deaf ≡ false }
        ensures joined { result.joined ≡ 0 }
    {
        let Network {
            hosts,
            seals,
            admins,
        } = network;
        Addresses {
            clients: [None; CLIENTS],
            nodes: [None; NODES],
            hosts,
            seals,
            admins,
            neighbours: Neighbours::new(),
            hearing: Hearing::new(),
            is_deaf: false,
            joined: 0,
        }
    }

    /// Returns the host of a node, if it is known.
    pub fn host(&self, node: NodeNo) -> Option<IpAddr>
        ensures { result ≡ host_of self.now.hosts node }
    {
        self.hosts.address(node)
    }

    /// Where the nodes live.
    pub fn hosts(&self) -> &Hosts
        ensures { result.now ≡ self.now.hosts }
    {
        &self.hosts
    }

    /// Sets where the nodes live.
    pub fn set_hosts(&mut self, hosts: Hosts)
        ensures { self.new ≡ record self.old { hosts = hosts } }
    {
        self.hosts = hosts;
    }

    /// The keys that identify nodes and clients.
    pub fn seals(&self) -> &Seals
        ensures { result.now ≡ self.now.seals }
    {
        &self.seals
    }

    /// Returns the address from which the client last wrote, if it ever did.
    pub fn client(&self, client: ClientNo) -> Option<SocketAddr>
        ensures { result ≡ client_at self.now client }
    {
        self.clients[client.get() as usize - 1]
    }

    /// Records the address from which a client wrote, in place of its last one.
    pub fn record_client(&mut self, client: ClientNo, from: SocketAddr)
        ensures entry { client_at self.new client ≡ Some from }
        ensures others { (c : ℕ) → IsClient c → c ≢ client → client_at self.new c ≡ client_at self.old c }
        ensures nodes { self.new.nodes ≡ self.old.nodes }
        ensures neighbours { self.new.neighbours ≡ self.old.neighbours }
        ensures hearing { self.new.hearing ≡ self.old.hearing }
        ensures network { IsSameFilter self.old self.new }
    {
        self.clients[client.get() as usize - 1] = Some(from);
    }

    /// Returns the address from which the node last wrote, if it is among the last 64 that did.
    pub fn node(&self, node: NodeNo) -> Option<SocketAddr>
        ensures { result ≡ node_at self.now node }
    {
        address_in(&self.nodes, node)
    }

    // Returns the index of a node's entry, or of the last entry if it has none: the one to overwrite.
    fn index_of(&self, node: NodeNo) -> usize
        ensures { result ≡ min (index_in self.now.nodes node) 63 }
    {
        let mut at = 0;
        for entry in &self.nodes {
            match entry {
                Some((other, _)) if *other == node => return at,
                _ => at += 1,
            }
        }
        NODES - 1
    }

    /// Records that a node wrote: its entry moves to the front. If all entries are taken, the least recent one is
    /// dropped. `binds` is whether this node, by accepting the message, follows the sender.
    pub fn record_node(&mut self, node: NodeNo, from: SocketAddr, binds: bool)
        ensures entry { node_at self.new node ≡ Some from }
        ensures moves { self.new.nodes ≡ moved_up self.old.nodes node from }
        ensures clients { self.new.clients ≡ self.old.clients }
        ensures meets { Meets from binds self.old.neighbours self.new.neighbours }
        ensures hearing { self.new.hearing ≡ self.old.hearing }
        ensures network { IsSameFilter self.old self.new }
    {
        self.neighbours.meet(from, binds);
        let index = self.index_of(node);
        // The entry to overwrite moves to the front, and those before it move back by one.
        self.nodes[..=index].rotate_right(1);
        self.nodes[0] = Some((node, from));
    }
}
