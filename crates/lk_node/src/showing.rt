// What a node reports of itself, for its status.
ghost use Rattle.std.specs.Prelude.{◌≡◌, ◌↔◌, IsTrue, length};
ghost use Rattle.std.specs.Option.{option_map};
ghost use Rattle.lk_leader.specs.Proposing.{Leads};
ghost use Rattle.lk_learner.specs.Learners.{gathered_bytes};

use crate::node::Node;
use lk_state::Machine;
use lk_types::{Ballot, Executed, NodeNo, RealBallot};

impl<M: Machine> Node<M> {
    /// The state machine, after the positions that it has executed.
    pub fn machine(&self) -> &M
        ensures { M.text result.now ≡ self.now.learner.whole.text }
    {
        self.learner.whole().machine()
    }

    /// How many positions it has executed.
    pub fn executed(&self) -> Executed
        ensures { result ≡ self.now.learner.whole.roster.executed }
    {
        self.learner.whole().executed()
    }

    /// The position of its snapshot.
    pub fn snapshot_position(&self) -> Executed
        ensures { result ≡ self.now.acceptor.state.snapshot_position }
    {
        self.acceptor.snapshot_position()
    }

    /// How many bytes of a snapshot it has gathered.
    pub fn gathered_bytes(&self) -> u32
        ensures { result ≡ gathered_bytes self.now.learner.gathered }
    {
        self.learner.gathered_bytes()
    }

    /// Returns the ballot that it has promised: it votes in none below.
    pub fn promised(&self) -> Ballot
        ensures { result ≡ self.now.acceptor.state.promised }
    {
        self.acceptor.promised()
    }

    /// Returns the ballot of its term, if it has one: it is a candidate or leads.
    pub fn term(&self) -> Option<RealBallot>
        ensures { result ≡ option_map (λ t. t.ballot) self.now.leader.term }
    {
        self.leader.ballot()
    }

    /// Whether it leads: a majority of the members of the next position has promised its term.
    pub fn leads(&self) -> bool
        ensures { IsTrue result ↔ Leads self.now.leader self.now.learner.whole.roster }
    {
        self.leader.is_elected(self.roster())
    }

    /// Returns the node that it takes for the leader: that of the last notice that it followed, if any.
    pub fn presumed_leader(&self) -> Option<NodeNo>
        ensures { result ≡ self.now.known }
    {
        self.known
    }

    /// How many ticks have passed since it heard of a leader: 28 at most, where the count stays.
    pub fn ticks(&self) -> u8
        ensures { result ≡ self.now.ticks }
    {
        self.ticks.get()
    }

    /// How many requests wait to be proposed.
    pub fn waiting(&self) -> usize
        ensures { result ≡ length self.now.leader.waiting }
    {
        self.leader.waiting()
    }
}
