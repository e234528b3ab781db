ghost use Rattle.std.specs.Prelude.{◌≡◌, false, ◌≤◌, ◌==◌, ◌+◌, ◌<◌, ◌&&◌, nat_lt, nat_le, length, ◌↔◌, [], IsTrue};
ghost use Rattle.std.specs.Prelude.{IfOk};
ghost use Rattle.lk_leader.specs.Acceptances.{members_among, yet_to_accept, HasMajority, heard, GainsMajority};

use arrayvec::ArrayVec;
use lk_members::{Roster, is_among, is_majority, nodes_of};
use lk_types::{Command, Members, NoMemory, NodeNo, Position};
use std::alloc::Global;
use std::marker::Model;

// A command that was proposed at a position, and the members that have been heard to accept it, seven at most.
#[derive(Drop)]
pub(crate) struct Proposal {
    pub(crate) position: Position,
    pub(crate) command: Command,
    pub(crate) accepted: ArrayVec<NodeNo, 7>,
}

impl Model for Proposal {
    ghost use Rattle.lk_leader.specs.Terms.{ProposalValue};

    ghost Value = { ProposalValue };

    ghost view = { λ p. record { position = p.position; command = p.command; accepted = p.accepted.items } };
}

impl Default for Proposal {
    ghost is_default = { λ p. p.position ≡ 1 };

    /// Returns a no-op at the first position, only to fill unused places of an `ArrayVec`.
    fn default() -> Self {
        Proposal::new(Position::default(), Command::Noop)
    }
}

impl Proposal {
    // Creates a proposal that nobody has accepted yet.
    pub(crate) fn new(position: Position, command: Command) -> Proposal
        ensures { result ≡ record { position = position; command = command; accepted = [] } }
    {
        Proposal {
            position,
            command,
            accepted: ArrayVec::new(),
        }
    }

    // Whether it is at a position of the roster's window.
    pub(crate) fn is_within(&self, roster: &Roster) -> bool
        ensures { result ≡ (nat_lt roster.now.executed self.now.position
            && nat_le self.now.position (roster.now.executed + length roster.now.sets)) }
    {
        let (executed, position) = (roster.executed().get(), self.position.get());
        executed < position && position <= executed + roster.alpha() as u64
    }

    // Whether a majority of the set has accepted it.
    pub(crate) fn has_majority(&self, set: &Members) -> bool
        ensures { IsTrue result ↔ HasMajority set.now self.now }
    {
        is_majority(set, members_of(set, self.accepted.as_slice()).as_slice())
    }

    // Records that the node accepted it. Returns whether a majority of the set has now, and had not before.
    fn accept(&mut self, node: NodeNo, set: &Members) -> bool
        ensures heard { self.new ≡ heard set.now node self.old }
        ensures gains { IsTrue result ↔ GainsMajority set.now node self.old }
    {
        let had_majority = self.has_majority(set);
        // Room for one more than the members: `members_of` then removes a repeated node, and one that is no member.
        let mut nodes: ArrayVec<NodeNo, 8> = ArrayVec::try_from(self.accepted.as_slice()).unwrap();
        nodes.push(node);
        self.accepted = members_of(set, nodes.as_slice());
        !had_majority && self.has_majority(set)
    }

    // Records that the node accepted this command; another command changes nothing. Returns whether a majority of the
    // set has accepted now, and had not before.
    pub(crate) fn record_accepted(&mut self, node: NodeNo, command: &Command, set: &Members) -> bool
        ensures same { self.old.command ≡ command.now
            → (self.new ≡ heard set.now node self.old) × (IsTrue result ↔ GainsMajority set.now node self.old) }
        ensures position { self.new.position ≡ self.old.position }
        ensures other { (self.old.command ≡ command.now → ⊥) → (self.new ≡ self.old) × (result ≡ false) }
    {
        if self.command != *command {
            return false;
        }
        self.accept(node, set)
    }
}

/// Returns the members of the set that are not among `accepted`, in rising order.
pub fn yet_to_accept(
    alloc: Global,
    set: &Members,
    accepted: &[NodeNo],
) -> Result<Vec<NodeNo>, NoMemory>
    ensures { IfOk result (λ ns. ns.items ≡ yet_to_accept set.now accepted.now) }
{
    let mut nodes = nodes_of(alloc, set)?;
    nodes.retain(|node| !is_among(accepted, *node));
    Ok(nodes)
}

// Returns the members of the set that are among the nodes, each once, in the order of the set.
fn members_of(set: &Members, nodes: &[NodeNo]) -> ArrayVec<NodeNo, 7>
    ensures { result.items ≡ members_among set.now nodes.now }
{
    let members = set.as_slice();
    let mut among = ArrayVec::new();
    for member in members {
        if is_among(nodes, member.node) {
            among.push(member.node);
        }
    }
    among
}
