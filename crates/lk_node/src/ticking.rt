// How a node handles a tick, and begins a ballot.
ghost use Rattle.std.specs.Prelude.{◌≡◌, IfOk};
ghost use Rattle.lk_types.specs.Ballots.{IsBelow};
ghost use Rattle.lk_node_interface.specs.Outboxes.{nothing};
ghost use Rattle.lk_node.specs.Beginning.{BeginsBallot};
ghost use Rattle.lk_node.specs.Reminding.{Ticks};
ghost use Rattle.lk_node.specs.SafeSteps.{ActsSafely};
ghost use Rattle.lk_node.specs.Waiting.{index_of, ticked, BeginsWhereDue};

use crate::node::Node;
use lk_node_interface::{Outbox, index_of};
use lk_state::Machine;
use lk_types::{NoMemory, Position, RealBallot};
use lk_wire::NodeMessage;

impl<M: Machine> Node<M> {
    // Promises the ballot, begins a term with it, and sends Prepare to all nodes of the window, itself included if it
    // is one, for the positions from the next one on.
    fn begin(&mut self, ballot: RealBallot) -> Result<Outbox, NoMemory>
        requires below { IsBelow self.old.acceptor.state.promised ballot }
        requires own { ballot.node ≡ self.old.header.node }
        ensures exact { IfOk result (λ o. BeginsBallot ballot self.old self.new o) }
        ensures safe { IfOk result (λ o. ActsSafely M.meaning (λ h. Unit {0}) self.old self.new nothing o) }
    {
        let nodes = self.window_nodes()?;
        let mut out = Outbox::new(self.alloc);
        out.write(self.acceptor.own(ballot))?;
        self.nothing_to_propose = false;
        self.leader.begin(ballot);
        if let Some(first) = Position::of(self.learner.whole().executed().get() + 1) {
            self.send_to_all(&nodes, NodeMessage::Prepare(ballot, first), &mut out)?;
        }
        Ok(out)
    }

    #[tactic(auto, using(crate::proofs::SafeSteps::rests_here))]
    // Begins the next ballot if it is a member of the next position, has waited long enough, and a round is left.
    fn begin_if_due(&mut self) -> Result<Outbox, NoMemory>
        ensures exact { IfOk result (λ o. BeginsWhereDue self.old self.new o) }
        ensures safe { IfOk result (λ o. ActsSafely M.meaning (λ h. Unit {0}) self.old self.new nothing o) }
    {
        let (promised, own) = (self.acceptor.promised(), self.header.node());
        if !self.ticks.is_enough(index_of(self.roster(), own)) {
            return Ok(Outbox::new(self.alloc));
        }
        let Some(ballot) = self.rounds.next_ballot(promised, own) else {
            return Ok(Outbox::new(self.alloc));
        };
        self.begin(ballot)
    }

    #[tactic(auto, using(crate::proofs::BallotLaws::ticked_goes_on))]
    // Handles a tick without a term: counts it, and begins a ballot if it has now waited long enough.
    fn wait(&mut self) -> Result<Outbox, NoMemory>
        ensures exact { IfOk result (λ o. BeginsWhereDue (ticked self.old) self.new o) }
        ensures safe { IfOk result (λ o. ActsSafely M.meaning (λ h. Unit {0}) self.old self.new nothing o) }
    {
        self.ticks.count_tick();
        self.begin_if_due()
    }

    // Handles a tick: with a term it resends (`remind`), without one it waits for a leader (`wait`).
    pub(crate) fn tick(&mut self) -> Result<Outbox, NoMemory>
        ensures exact { IfOk result (λ o. Ticks self.old self.new o) }
        ensures safe { IfOk result (λ o. ActsSafely M.meaning (λ h. Unit {0}) self.old self.new nothing o) }
    {
        match self.leader.ballot() {
            Some(ballot) => self.remind(ballot),
            None => self.wait(),
        }
    }
}
