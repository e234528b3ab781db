// The node, and how it sends a message. It has no access to a disk, socket or clock: a step only fills an `Outbox`.
ghost use Rattle.std.specs.Prelude.{◌≡◌, ◌∷◌, [], None, true, false, OnOk, OnErr, IsErr};
ghost use Rattle.lk_messages.specs.Grammar.{spelling, IsMessage};
ghost use Rattle.lk_leader.specs.Terms.{new_leader};
ghost use Rattle.lk_node_interface.specs.Outboxes.{nothing, with_envelope};
ghost use Rattle.lk_node_interface.specs.Saying.{saying};
ghost use Rattle.lk_node.specs.Nearness.{AreNear};
ghost use Rattle.lk_node.specs.Saying.{to_node};

use lk_acceptor::Acceptor;
use lk_leader::Leader;
use lk_learner::Learner;
use lk_members::Roster;
use lk_node_interface::{Envelope, Outbox, SeenRound, TickCount, To, encode};
use lk_state::Machine;
use lk_store_format::Header;
use lk_types::{NoMemory, NodeNo};
use lk_wire::NodeMessage;
use std::alloc::Global;
use std::marker::Model;

/// A node in memory: its number and genesis (`header`), its three parts of Paxos, and what decides when it begins a
/// ballot and where it redirects clients.
#[derive(Drop)]
pub struct Node<M: Machine> {
    pub(crate) alloc: Global,
    pub(crate) header: Header,
    pub(crate) acceptor: Acceptor,
    pub(crate) learner: Learner<M>,
    pub(crate) leader: Leader,
    // How many ticks have passed since it heard of a leader.
    pub(crate) ticks: TickCount,
    // The greatest round that it has seen in ballots of messages.
    pub(crate) rounds: SeenRound,
    // The node that it takes for the leader: that of the last notice that it followed.
    pub(crate) known: Option<NodeNo>,
    // How many bytes of a snapshot were gathered at the last nudge that was not `Fed`.
    pub(crate) gathered_before: u32,
    // Nothing is left to propose: whatever may change that resets it.
    pub(crate) nothing_to_propose: bool,
    // It has run out of memory in a step, which may have left it half changed.
    pub(crate) halted: bool,
}

impl<M: Machine> Model for Node<M> {
    ghost use Rattle.lk_node.specs.NodeValue.{NodeValue};
    ghost use Rattle.lk_node.specs.Nearness.{AreNear};
    ghost use Rattle.lk_node.specs.Promised.{IsTermPromised};
    ghost use Rattle.lk_node.specs.Proposed.{ProposesNothingIf};

    ghost Value = { NodeValue };

    ghost invariant = { λ n. IsTermPromised n.acceptor n.leader × AreNear n.acceptor n.learner
        × ProposesNothingIf n.nothing_to_propose n.leader n.learner.whole.roster };

    ghost view = { λ n. record {
      header = n.header;
      acceptor = n.acceptor;
      learner = n.learner;
      leader = n.leader;
      ticks = n.ticks;
      rounds = n.rounds;
      known = n.known;
      gathered_before = n.gathered_before;
      halted = n.halted;
    } };
}

impl<M: Machine> Node<M> {
    /// Creates a node with this acceptor and learner. It has no term, knows no leader, and has counted no ticks.
    pub fn new(alloc: Global, header: Header, acceptor: Acceptor, learner: Learner<M>) -> Node<M>
        requires near { AreNear acceptor learner }
        ensures { result ≡ record {
          header = header;
          acceptor = acceptor;
          learner = learner;
          leader = new_leader;
          ticks = 0;
          rounds = 0;
          known = None;
          gathered_before = 0;
          halted = false;
        } }
    {
        Node {
            alloc,
            header,
            acceptor,
            learner,
            leader: Leader::new(alloc),
            ticks: TickCount::new(),
            rounds: SeenRound::new(),
            known: None,
            gathered_before: 0,
            nothing_to_propose: false,
            halted: false,
        }
    }

    /// Whether it has run out of memory in a step: then every further step fails with `Halted`.
    pub fn halted(&self) -> bool
        ensures { result ≡ self.now.halted }
    {
        self.halted
    }

    /// Returns its number and the genesis of its cluster.
    pub fn header(&self) -> &Header
        ensures { result.now ≡ self.now.header }
    {
        &self.header
    }

    /// Returns the roster after all executed commands: the members of the next alpha positions, and what joins need.
    pub fn roster(&self) -> &Roster
        ensures { result.now ≡ self.now.learner.whole.roster }
    {
        self.learner.whole().roster()
    }

    // Adds an envelope with this message to a node or a client.
    pub(crate) fn send(
        &self,
        to: To,
        message: NodeMessage,
        out: &mut Outbox,
    ) -> Result<(), NoMemory>
        ensures said { OnOk result
            (out.new ≡ with_envelope (record { to = to; bytes = spelling (saying self.now.header message) }) out.old) }
        ensures fits { OnOk result (IsMessage (saying self.now.header message)) }
    {
        let bytes = encode(self.alloc, &self.header, message)?;
        out.envelopes.push(Envelope { to, bytes })?;
        Ok(())
    }

    // Adds an envelope with this message to a node, at its port in the window.
    pub(crate) fn send_to_node(
        &self,
        node: NodeNo,
        message: NodeMessage,
        out: &mut Outbox,
    ) -> Result<(), NoMemory>
        ensures said { OnOk result
            (out.new ≡ with_envelope (record {
              to = to_node self.now node;
              bytes = spelling (saying self.now.header message);
            }) out.old) }
        ensures fits { OnOk result (IsMessage (saying self.now.header message)) }
    {
        let to = To::Node(node, self.roster().port_number_of(node));
        self.send(to, message, out)?;
        Ok(())
    }
}
