//! An observation: what is seen of a node after a turn.

ghost use Rattle.std.specs.Prelude.{◌≡◌};
ghost use Rattle.lk_node_events.specs.Observations.{apart_in, has_leader, why_of};

use crate::event::Why;
use lk_probe::StateDigest;
use lk_types::{Ballot, Executed, Members, NodeNo, RealBallot};
use std::net::SocketAddr;

/// What is seen of a node after a turn, and of what it sent in that turn.
#[derive(Drop)]
pub struct Observation {
    /// The ballot in which it leads, where it does.
    pub leads: Option<RealBallot>,
    /// The other node that it follows.
    pub follows: Option<NodeNo>,
    /// The ballot that it has promised.
    pub promised: Ballot,
    /// How many positions it has executed.
    pub executed: Executed,
    /// The position of its snapshot.
    pub snapshot: Executed,
    /// The snapshot that it installed in the turn, and the node that sent the last part of it.
    pub installed: Option<(Executed, NodeNo)>,
    /// The members of the next position.
    pub members: Members,
    /// Whether the node is one of them.
    pub is_member: bool,
    /// The last node that it asked in the turn for commands that it missed.
    pub wanted: Option<NodeNo>,
    /// The last node to which a send failed in the turn.
    pub unsent: Option<NodeNo>,
    /// The node of another genesis from which it received in the turn, if that is to be reported.
    pub stranger: Option<NodeNo>,
    /// How many datagrams of another cluster have come, if that is to be reported.
    pub foreign: Option<u64>,
    /// From where a node's frame came that did not open, and the cluster that it names if that is another one, if that
    /// is to be reported.
    pub unopened: Option<(SocketAddr, Option<u64>)>,
    /// How many of the members it hears, itself included.
    pub heard: u8,
    /// Whether it hears too few, and so gets no ticks.
    pub deaf: bool,
    /// Whether it had no room for a watch in the turn.
    pub is_queue_full: bool,
    /// How many names its lock table has.
    pub names: usize,
    /// Whether the file of the hosts can be used, if it was read again and that is to be reported.
    pub are_hosts_usable: Option<bool>,
    /// The client that is no admin whose administrative request was dropped, if that is to be reported.
    pub barred: Option<u16>,
    /// The digest that it took last of its state.
    pub state: StateDigest,
    /// The node whose state a report told in the turn, and the digest that it told.
    pub told: Option<(NodeNo, StateDigest)>,
}

impl Observation {
    /// Whether somebody leads, as far as the node knows.
    pub fn has_leader(&self) -> bool
        ensures { result ≡ has_leader self.now }
    {
        self.leads.is_some() || self.follows.is_some()
    }

    /// Returns the node whose state was told in the turn and differs from its own at one position, and that position.
    pub fn apart(&self) -> Option<(NodeNo, Executed)>
        ensures { result ≡ apart_in self.now }
    {
        let (node, state) = self.told?;
        if !self.state.differs_from(&state) {
            return None;
        }
        Some((node, state.position))
    }

    /// Returns why the node no longer leads in `ballot`: it is no member, or else it has promised a greater ballot, or
    /// else it has heard of one.
    pub fn why(&self, ballot: RealBallot) -> Why
        ensures { result ≡ why_of self.now ballot }
    {
        if !self.is_member {
            return Why::NoMember;
        }
        match NodeNo::of(self.promised.node()) {
            Some(node) if ballot.get().is_below(self.promised) => Why::Promised(node),
            _ => Why::HeardGreater,
        }
    }
}
