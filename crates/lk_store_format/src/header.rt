ghost use Rattle.std.specs.Prelude.{◌≡◌, ◌↔◌, IsTrue};
ghost use Rattle.std.specs.List.{AllByRecursion};
ghost use Rattle.lk_types.specs.Rosters.{IsMember};
ghost use Rattle.lk_store_format.specs.Headers.{IsHeader};

use lk_types::{Genesis, Member, NodeNo};
use std::marker::Model;

/// Whose store it is: a node, and the genesis of its cluster.
#[derive(Drop)]
pub struct Header {
    node: NodeNo,
    genesis: Genesis,
}

impl Model for Header {
    ghost use Rattle.lk_store_format.specs.Values.{HeaderValue};

    ghost Value = { HeaderValue };

    ghost view = { λ h. record {
      node = h.node;
      cluster = h.genesis.cluster;
      alpha = h.genesis.alpha;
      members = h.genesis.members;
    } };
}

// Shows the prover that each member is in its range. Does nothing at run time.
fn members_facts(members: &[Member])
    ensures { AllByRecursion IsMember members.now }
{
    for member in members {
        member.facts();
    }
}

impl Header {
    /// The header of that node in that cluster.
    pub fn new(node: NodeNo, genesis: Genesis) -> Header
        ensures { result ≡ record {
          node = node;
          cluster = genesis.cluster;
          alpha = genesis.alpha;
          members = genesis.members;
        } }
    {
        Header { node, genesis }
    }

    /// The node whose store it is.
    pub fn node(&self) -> NodeNo
        ensures { result ≡ self.now.node }
    {
        self.node
    }

    /// The genesis of its cluster.
    pub fn genesis(&self) -> &Genesis
        ensures cluster { result.now.cluster ≡ self.now.cluster }
        ensures alpha { result.now.alpha ≡ self.now.alpha }
        ensures members { result.now.members ≡ self.now.members }
    {
        &self.genesis
    }

    /// Shows the prover that each part is in its range. Does nothing at run time.
    pub fn facts(&self)
        ensures { IsHeader self.now }
    {
        let _ = self.node.get();
        let _cluster = self.genesis.cluster;
        members_facts(self.genesis.members.as_slice());
    }

    /// The same header. Takes no memory.
    pub fn copy(&self) -> Header
        ensures { result ≡ self.now }
    {
        Header {
            node: self.node,
            genesis: self.genesis.copy(),
        }
    }

    /// Whether the other one names the same node and genesis.
    #[tactic(auto, using(crate::proofs::HeaderLaws::same_header))]
    pub fn is_same(&self, other: &Header) -> bool
        ensures { IsTrue result ↔ (self.now ≡ other.now) }
    {
        if self.node != other.node || self.genesis.cluster != other.genesis.cluster {
            return false;
        }
        if self.genesis.alpha != other.genesis.alpha {
            return false;
        }
        self.genesis.members == other.genesis.members
    }
}
