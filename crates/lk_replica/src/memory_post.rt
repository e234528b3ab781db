// A post in memory, which keeps the envelopes that it is given.
ghost use Rattle.std.specs.Prelude.{◌≡◌, ◌∷◌, ◌++◌, [], IfOk, OnOk, OnErr};
ghost use Rattle.lk_node_interface.specs.Envelopes.{EnvelopeValue, party_of, datagram_of, batch_of};

use crate::datagram::Datagram;
use lk_agreement_laws::Party;
use lk_node_interface::{Envelope, Post, SendFault, To};
use lk_types::{NoMemory, NodeNo};
use std::alloc::Global;
use std::marker::Model;

/// A post that keeps the envelopes that were sent, in order, and counts those that were lost for want of memory.
#[derive(Drop)]
pub struct MemoryPost {
    alloc: Global,
    envelopes: Vec<Envelope>,
    failures: u64,
}

impl Model for MemoryPost {
    ghost use Rattle.lk_replica.specs.Posts.{MemoryPostValue};

    ghost Value = { MemoryPostValue };

    ghost view = { λ c. record { envelopes = c.envelopes.items; failures = c.failures } };
}

impl Post for MemoryPost {
    ghost use Rattle.lk_replica.specs.Posts.{KeepsEnvelope};

    ghost sent = { λ c. c.envelopes };

    ghost is_observable = { Unit {0} };

    ghost failures = { λ c. c.failures };

    ghost Carries = { KeepsEnvelope };

    fn send(&mut self, to: To, bytes: &[u8]) -> Result<(), SendFault> {
        match self.keep(to, bytes) {
            Ok(()) => Ok(()),
            Err(NoMemory) => {
                self.failures = self.failures.saturating_add(1);
                Err(SendFault)
            }
        }
    }
}

// Returns the recipient of an envelope, without its port.
fn party_of(to: To) -> Party
    ensures { result ≡ party_of to }
{
    match to {
        To::Node(node, _) => Party::Node(node),
        To::Client(client) => Party::Client(client),
    }
}

// Converts an envelope of a node to a datagram.
fn datagram_of(node: NodeNo, envelope: Envelope) -> Datagram
    ensures { result ≡ datagram_of node envelope }
{
    let Envelope { to, bytes } = envelope;
    Datagram {
        from: Party::Node(node),
        to: party_of(to),
        bytes,
    }
}

/// Converts envelopes of a node to datagrams, in order.
#[tactic(auto, using(lk_node::proofs::Nodes::mapped_append))]
pub fn datagrams(
    alloc: Global,
    node: NodeNo,
    envelopes: Vec<Envelope>,
) -> Result<Vec<Datagram>, NoMemory>
    ensures ok { IfOk result (λ ds. ds.items ≡ batch_of node envelopes.items) }
    // Only envelopes need memory.
    ensures memory { OnErr result (envelopes.items ≡ [] → ⊥) }
{
    let mut datagrams = Vec::new(alloc);
    for envelope in envelopes {
        datagrams.push(datagram_of(node, envelope))?;
    }
    Ok(datagrams)
}

impl MemoryPost {
    /// Creates a post to which nothing has been sent.
    pub fn new(alloc: Global) -> MemoryPost
        ensures { result ≡ record { envelopes = []; failures = 0 } }
    {
        MemoryPost {
            alloc,
            envelopes: Vec::new(alloc),
            failures: 0,
        }
    }

    // Appends an envelope. Out of memory it changes nothing.
    fn keep(&mut self, to: To, bytes: &[u8]) -> Result<(), NoMemory>
        ensures ok { OnOk result
            (self.new ≡ record {
              envelopes = self.old.envelopes ++ record { to = to; bytes = bytes.now } ∷ [];
              failures = self.old.failures;
            }) }
        ensures err { OnErr result (self.new ≡ self.old) }
    {
        let bytes = bytes.to_vec(self.alloc)?;
        self.envelopes.push(Envelope { to, bytes })?;
        Ok(())
    }

    /// Converts the envelopes that were sent to datagrams of the node, in order.
    pub fn into_datagrams(self, node: NodeNo) -> Result<Vec<Datagram>, NoMemory>
        ensures ok { IfOk result (λ ds. ds.items ≡ batch_of node self.envelopes) }
        // Only envelopes need memory.
        ensures memory { OnErr result (self.envelopes ≡ [] → ⊥) }
    {
        let MemoryPost {
            alloc,
            envelopes,
            failures: _,
        } = self;
        datagrams(alloc, node, envelopes)
    }
}
