//! Records the address of a member that asks by a probe, as that of one that writes: so a node that has joined is
//! written to before it has said anything.

ghost use Rattle.std.specs.Prelude.{◌≡◌, ◌↔◌, IsTrue};
ghost use Rattle.lk_address_book.specs.Addresses.{IsSameFilter};
ghost use Rattle.lk_address_book.specs.Probers.{MayMove, RecordsProber, is_of_member, port_among};

use crate::addresses::Addresses;
use lk_auth::DIGEST;
use lk_probe::neighbours::Origin;
use lk_types::{Member, NodeNo, Port};
use std::net::SocketAddr;

/// Returns the port of a node, if it is one of these members.
pub fn port_among(members: &[Member], node: NodeNo) -> Option<Port>
    ensures { result ≡ port_among members.now node }
{
    for member in members {
        if member.node == node {
            return Some(member.port);
        }
    }
    None
}

// Whether a probe names another node than this one, of that genesis and among these members.
fn is_of_member(own: NodeNo, genesis: &[u8; DIGEST], members: &[Member], origin: &Origin) -> bool
    ensures { result ≡ is_of_member own genesis.now members.now origin.now }
{
    let is_other = origin.node != own;
    origin.genesis == *genesis && is_other && port_among(members, origin.node).is_some()
}

impl Addresses {
    // Whether a probe may give a node another address: the nodes have a key, or it has none.
    fn may_move(&self, node: NodeNo) -> bool
        ensures { IsTrue result ↔ MayMove self.now node }
    {
        !self.seals().nodes.is_none() || self.node(node).is_none()
    }

    /// Records the address of a probe that names a node, if this is another one than `own`, of this genesis and among
    /// these members, and may have another address.
    pub fn record_prober(
        &mut self,
        own: NodeNo,
        members: &[Member],
        origin: &Option<Origin>,
        from: SocketAddr,
    )
        ensures records { RecordsProber own members.now origin.now from self.old self.new }
        ensures network { IsSameFilter self.old self.new }
    {
        let Some(origin) = origin else {
            return;
        };
        let genesis = self.seals().genesis;
        if is_of_member(own, &genesis, members, origin) && self.may_move(origin.node) {
            self.record_node(origin.node, from, false);
        }
    }
}
