//! What a node knows of the addresses from which nodes write to it: which genesis the node there was started with.

ghost use Rattle.std.specs.Prelude.{◌≡◌, ◌≤◌, ◌<◌, true, false, Some, length, is_some, slice_get, IfSome, IsNone};
ghost use Rattle.std.specs.List.{list_any};
ghost use Rattle.std.specs.declared.net.socket_addr.SocketAddr.{SocketAddr as Address};
ghost use Rattle.lk_probe.specs.Neighbours.{ProbesNeighbour, Learns, Meets, Readmits, bound_at};
ghost use Rattle.lk_probe.specs.Neighbours.{bound_by, bound_in, entry_for};
ghost use Rattle.lk_probe.specs.Neighbours.{having_asked, having_met, knowledge_after, is_due, is_due_at, is_for};
ghost use Rattle.lk_probe.specs.Neighbours.{is_open};
ghost use Rattle.lk_probe.specs.Neighbours.{is_open_at, is_stranger, other_of, is_stranger_at, readmitted};

use crate::status::DIGEST;
use lk_types::NodeNo;
use std::marker::Model;
use std::net::SocketAddr;

// How many addresses are kept. Datagrams from a further one are accepted, but it is never probed.
const MAX_NEIGHBOURS: usize = 64;

/// A node, and the digest of the genesis that it was started with.
#[derive(Clone, Copy)]
pub struct Origin {
    pub node: NodeNo,
    pub genesis: [u8; DIGEST],
}

/// What is known of the genesis of the node at an address.
#[derive(Clone, Copy)]
pub enum Knowledge {
    /// It was never asked.
    Unknown,
    /// It was asked once, at that count of ticks, and has not replied.
    Asked(u64),
    /// It was asked twice, and has not replied.
    AskedTwice,
    /// It is this node's.
    Same,
    /// It is another one.
    Other(Origin),
}

/// An address from which a node writes.
#[derive(Clone, Copy)]
pub struct Neighbour {
    pub address: SocketAddr,
    pub knowledge: Knowledge,
    /// Whether it has sent a Prepare, an Accept, a Lead or a Decided: messages by which this node follows the sender.
    pub binds: bool,
}

/// The first 64 addresses from which nodes wrote. Its size is fixed, whatever arrives.
#[derive(Drop)]
pub struct Neighbours {
    entries: [Option<Neighbour>; MAX_NEIGHBOURS],
}

impl Model for Neighbours {
    ghost use Rattle.lk_probe.specs.Neighbours.{Entries};

    ghost Value = { Entries };

    ghost view = { λ n. n.entries };
}

impl Knowledge {
    // Whether a probe is due at that count of ticks.
    fn is_due(&self, now: u64) -> bool
        ensures { result ≡ is_due now self.now }
    {
        match self {
            Knowledge::Unknown => true,
            Knowledge::Asked(ticks) => *ticks < now,
            _ => false,
        }
    }

    // Returns what is known after a probe at that count of ticks.
    fn having_asked(self, now: u64) -> Knowledge
        ensures { result ≡ having_asked now self }
    {
        match self {
            Knowledge::Unknown => Knowledge::Asked(now),
            Knowledge::Asked(_) => Knowledge::AskedTwice,
            known => known,
        }
    }

    // Returns what is known after a node of this genesis has asked from there: another genesis is forgotten.
    fn readmitted(self) -> Knowledge
        ensures { result ≡ readmitted self }
    {
        match self {
            Knowledge::Other(_) => Knowledge::Unknown,
            known => known,
        }
    }

    // Returns the origin that it reported, if that is of another genesis.
    fn as_stranger(&self) -> Option<Origin>
        ensures { result ≡ other_of self.now }
    {
        match self {
            Knowledge::Other(origin) => Some(*origin),
            _ => None,
        }
    }

    // Whether it was asked and has not replied.
    fn is_open(self) -> bool
        ensures { result ≡ is_open self }
    {
        matches!(self, Knowledge::Asked(_) | Knowledge::AskedTwice)
    }

    // Returns what a node of this genesis knows of the node that reported itself as `reporter`.
    fn knowledge_after(own_genesis: &[u8; DIGEST], reporter: Origin) -> Knowledge
        ensures { result ≡ knowledge_after own_genesis.now reporter }
    {
        if reporter.genesis == *own_genesis {
            Knowledge::Same
        } else {
            Knowledge::Other(reporter)
        }
    }
}

// Whether an entry is that of an address, or free.
fn is_for(address: SocketAddr, entry: &Option<Neighbour>) -> bool
    ensures { result ≡ is_for address entry.now }
{
    match entry {
        None => true,
        Some(neighbour) => neighbour.address == address,
    }
}

// Returns an entry after a node has written from its address. `binds` stays set once it was.
fn having_met(address: SocketAddr, binds: bool, entry: Option<Neighbour>) -> Neighbour
    ensures { result ≡ having_met address binds entry }
{
    match entry {
        None => Neighbour {
            address,
            knowledge: Knowledge::Unknown,
            binds,
        },
        Some(neighbour) => Neighbour {
            binds: neighbour.binds || binds,
            ..neighbour
        },
    }
}

// Returns the node of another genesis of an entry, if the entry is that of the address.
fn stranger_at(address: SocketAddr, entry: &Option<Neighbour>) -> Option<NodeNo>
    ensures { is_some result ≡ is_stranger_at address entry.now }
{
    match entry {
        Some(neighbour) if neighbour.address == address => Some(neighbour.as_stranger()?.node),
        _ => None,
    }
}

impl Neighbour {
    /// Returns the origin of the node, if it is of another genesis.
    pub fn as_stranger(&self) -> Option<Origin>
        ensures { result ≡ other_of self.now.knowledge }
    {
        self.knowledge.as_stranger()
    }

    /// Returns the origin of the node, if it is of another genesis and this node follows it.
    pub fn followed_stranger(&self) -> Option<Origin>
        ensures { result ≡ bound_by self.now }
    {
        if self.binds { self.as_stranger() } else { None }
    }
}

// Returns the same for an entry, `None` if that is free.
fn bound_at(entry: &Option<Neighbour>) -> Option<Origin>
    ensures { result ≡ bound_at entry.now }
{
    match entry {
        Some(neighbour) => neighbour.followed_stranger(),
        None => None,
    }
}

// Returns the first origin of another genesis in these entries whose node this one follows.
fn bound_in(entries: &[Option<Neighbour>]) -> Option<Origin>
    ensures { result ≡ bound_in entries.now }
{
    for entry in entries {
        if let Some(origin) = bound_at(entry) {
            return Some(origin);
        }
    }
    None
}

// Returns the index of an address' entry, or else of the first free one, or else the number of entries.
fn entry_for(address: SocketAddr, entries: &[Option<Neighbour>]) -> usize
    ensures is { result ≡ entry_for address entries.now }
    ensures within { result ≤ length entries.now }
{
    let mut at = 0;
    for entry in entries {
        if is_for(address, entry) {
            return at;
        }
        at += 1;
    }
    at
}

// The first entry for which a probe is due, and its index.
fn first_due(now: u64, entries: &[Option<Neighbour>]) -> Option<(usize, Neighbour)>
    ensures some { IfSome result
        (λ d. (slice_get entries.now d.0 ≡ Some (Some d.1)) × (is_due now d.1.knowledge ≡ true)
        × (d.0 < length entries.now)) }
    ensures none { IsNone result → list_any (is_due_at now) entries.now ≡ false }
{
    let mut at = 0;
    for entry in entries {
        match entry {
            Some(neighbour) if neighbour.knowledge.is_due(now) => return Some((at, *neighbour)),
            _ => at += 1,
        }
    }
    None
}

// Returns the node of another genesis at an address, by the entries.
#[tactic(auto, unfolding(crate::specs::Neighbours::is_stranger))]
fn stranger_in(address: SocketAddr, entries: &[Option<Neighbour>]) -> Option<NodeNo>
    ensures { is_some result ≡ is_stranger entries.now address }
{
    for entry in entries {
        if let Some(node) = stranger_at(address, entry) {
            return Some(node);
        }
    }
    None
}

impl Neighbours {
    /// Returns an empty table.
    #[tactic(auto, unfolding(crate::specs::Neighbours::is_stranger))]
    pub fn new() -> Neighbours
        ensures { (address : Address) → is_stranger result address ≡ false }
    {
        Neighbours {
            entries: [None; MAX_NEIGHBOURS],
        }
    }

    /// Records that a node has written from an address, and whether this node follows it by that. Ignores the address
    /// if it is new and the table is full.
    pub fn meet(&mut self, address: SocketAddr, binds: bool)
        ensures meets { Meets address binds self.old self.new }
        ensures strangers { is_stranger self.new ≡ is_stranger self.old }
    {
        let at = entry_for(address, &self.entries);
        if at < MAX_NEIGHBOURS {
            self.entries[at] = Some(having_met(address, binds, self.entries[at]));
        }
    }

    /// Returns an address for which a probe is due at that count of ticks, and counts it as asked. `None` if none is
    /// due.
    #[tactic(auto, using(crate::proofs::Strangers::asked_strangers))]
    pub fn next_to_probe(&mut self, now: u64) -> Option<SocketAddr>
        ensures some { IfSome result (λ address. ProbesNeighbour now address self.old self.new) }
        ensures none { IsNone result → (list_any (is_due_at now) self.old ≡ false) × (self.new ≡ self.old) }
        ensures strangers { is_stranger self.new ≡ is_stranger self.old }
    {
        let Some((at, neighbour)) = first_due(now, &self.entries) else {
            return None;
        };
        self.entries[at] = Some(Neighbour {
            knowledge: neighbour.knowledge.having_asked(now),
            ..neighbour
        });
        Some(neighbour.address)
    }

    /// Records that a node of this genesis has asked from an address. If another genesis was known there, it is
    /// forgotten, so that the address is probed again.
    pub fn readmit(&mut self, address: SocketAddr)
        ensures { Readmits address self.old self.new }
    {
        let at = entry_for(address, &self.entries);
        if at >= MAX_NEIGHBOURS {
            return;
        }
        if let Some(neighbour) = self.entries[at] {
            self.entries[at] = Some(Neighbour {
                knowledge: neighbour.knowledge.readmitted(),
                ..neighbour
            });
        }
    }

    /// Records the origin that the node at an address has reported, and returns its entry. `None`, and nothing changes,
    /// if it was not asked, or has replied before.
    pub fn learn(
        &mut self,
        address: SocketAddr,
        own_genesis: &[u8; DIGEST],
        reporter: Origin,
    ) -> Option<Neighbour>
        ensures some { IfSome result (λ n. Learns address own_genesis.now reporter n self.old self.new) }
        ensures none { IsNone result
            → (is_open_at (slice_get self.old (entry_for address self.old)) ≡ false) × (self.new ≡ self.old) }
    {
        let at = entry_for(address, &self.entries);
        if at >= MAX_NEIGHBOURS {
            return None;
        }
        let Some(neighbour) = self.entries[at] else {
            return None;
        };
        if !neighbour.knowledge.is_open() {
            return None;
        }
        self.entries[at] = Some(Neighbour {
            knowledge: Knowledge::knowledge_after(own_genesis, reporter),
            ..neighbour
        });
        self.entries[at]
    }

    /// Returns the node of another genesis at that address, if there is one.
    pub fn stranger(&self, address: SocketAddr) -> Option<NodeNo>
        ensures { is_some result ≡ is_stranger self.now address }
    {
        stranger_in(address, &self.entries)
    }

    /// Returns the first node of another genesis that this node follows, if there is one.
    pub fn followed_stranger(&self) -> Option<Origin>
        ensures { result ≡ bound_in self.now }
    {
        bound_in(&self.entries)
    }
}
