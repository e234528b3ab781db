// How a node handles a tick, a nudge or a datagram. A clause `exact` states what a function does, and `safe` that this
// is safe in every history in which the message that it handles was sent.
ghost use Rattle.std.specs.Prelude.{◌≡◌, true, false, IfOk, OnOk, OnErr, IsErr};
ghost use Rattle.lk_wire.specs.Shown.{shown_node, shown_content};
ghost use Rattle.lk_agreement_laws.specs.Datagrams.{HasSent};
ghost use Rattle.lk_node_interface.specs.Outboxes.{nothing};
ghost use Rattle.lk_node.specs.Calls.{InputFits};
ghost use Rattle.lk_node.specs.Executing.{NothingToRun};
ghost use Rattle.lk_node.specs.Histories.{IsHeard};
ghost use Rattle.lk_node.specs.Leading.{NothingToPropose};
ghost use Rattle.lk_node.specs.SafeSteps.{ActsSafely};
ghost use Rattle.lk_node.specs.Steps.{Handles, HandlesNode, HandlesBytes, HandlesDatagram, Steps, WasHeard};

use crate::node::Node;
use lk_node_interface::{Halted, Input, Outbox};
use lk_state::Machine;
use lk_types::{NoMemory, NodeNo};
use lk_wire::{ContentRef, Datagram, NodeMessageRef};

impl<M: Machine> Node<M> {
    #[tactic(auto, using(crate::proofs::SafeSteps::rests_here))]
    // Dispatches a node's message.
    fn handle_node_message(
        &mut self,
        from: NodeNo,
        message: &NodeMessageRef<'_>,
    ) -> Result<Outbox, NoMemory>
        ensures exact { IfOk result
            (λ o. HandlesNode M.meaning M.IsText self.old from (shown_node message.now) self.new o) }
        ensures safe { IfOk result
            (λ o. ActsSafely M.meaning (λ h. HasSent h.genesis h.sent from (shown_node message.now))
            self.old self.new nothing o) }
    {
        match message {
            NodeMessageRef::Prepare(ballot, first) => self.handle_prepare(from, *ballot, *first),
            NodeMessageRef::Accept(vote) => self.handle_accept(from, vote.vote()),
            NodeMessageRef::Promise(promise) => self.handle_promise(from, promise),
            NodeMessageRef::Accepted(vote) => self.handle_accepted(from, &vote.vote()),
            NodeMessageRef::Decided(decided) => self.handle_decided(decided),
            NodeMessageRef::Nack(nack) => self.handle_nack(from, nack),
            NodeMessageRef::Want(want) => self.handle_want(from, want),
            NodeMessageRef::Part(part) => self.handle_part(part),
            NodeMessageRef::Lead(ballot, executed) => self.handle_lead(from, *ballot, *executed),
            _ => Ok(Outbox::new(self.alloc)),
        }
    }

    #[tactic(auto, using(crate::proofs::SafeSteps::rests_here))]
    // Dispatches a message of this cluster: a client's request, or a node's message.
    fn handle_message(&mut self, content: &ContentRef<'_>) -> Result<Outbox, NoMemory>
        ensures exact { IfOk result (λ o. Handles M.meaning M.IsText self.old (shown_content content.now) self.new o) }
        ensures safe { IfOk result
            (λ o. ActsSafely M.meaning (λ h. WasHeard h (shown_content content.now)) self.old self.new nothing o) }
    {
        match content {
            ContentRef::Request(request) => self.handle_request(&request.request()),
            ContentRef::Node(from, message) => self.handle_node_message(*from, message),
        }
    }

    #[tactic(auto, using(crate::proofs::SafeSteps::rests_here, crate::proofs::SafeSteps::bytes_go_on))]
    // Parses and handles a datagram. Ignores bytes that are no message of this cluster.
    fn handle_bytes(&mut self, datagram: &Datagram<'_>) -> Result<Outbox, NoMemory>
        ensures exact { IfOk result (λ o. HandlesBytes M.meaning M.IsText self.old datagram.now self.new o) }
        ensures safe { IfOk result
            (λ o. ActsSafely M.meaning (λ h. IsHeard h datagram.now) self.old self.new nothing o) }
    {
        let Ok(message) = datagram.message() else {
            return Ok(Outbox::new(self.alloc));
        };
        if message.cluster != self.header.genesis().cluster {
            return Ok(Outbox::new(self.alloc));
        }
        let out = self.handle_message(&message.content)?;
        Ok(out)
    }

    // Handles a datagram, and then proposes whatever it can.
    fn handle_datagram(&mut self, datagram: &Datagram<'_>) -> Result<Outbox, NoMemory>
        ensures exact { IfOk result (λ o. HandlesDatagram M.meaning M.IsText self.old datagram.now self.new o) }
        ensures done { OnOk result (NothingToPropose self.new) }
        ensures safe { IfOk result
            (λ o. ActsSafely M.meaning (λ h. IsHeard h datagram.now) self.old self.new nothing o) }
    {
        let mut out = self.handle_bytes(datagram)?;
        self.propose(&mut out)?;
        Ok(out)
    }

    #[tactic(auto, using(crate::proofs::SafeSteps::rests_here))]
    // Dispatches an input.
    fn handle_input(&mut self, input: Input) -> Result<Outbox, NoMemory>
        ensures exact { IfOk result (λ o. Steps M.meaning M.IsText self.old input.entry self.new o) }
        ensures safe { IfOk result
            (λ o. ActsSafely M.meaning (λ h. InputFits h input.entry) self.old self.new nothing o) }
    {
        match input {
            Input::Tick => self.tick(),
            Input::Nudge(reason) => self.nudge(reason),
            Input::Datagram(datagram) => self.handle_datagram(&datagram),
        }
    }

    /// Handles a tick, a nudge or a datagram, and returns what to write, note and send, in that order. Afterwards it
    /// has proposed whatever it can. It has also executed every command that it can, provided that it had so before.
    ///
    /// It fails with `Halted` if it runs out of memory, and may then be half changed; after that every call fails so,
    /// and changes nothing.
    pub fn step(&mut self, input: Input) -> Result<Outbox, Halted>
        ensures steps { IfOk result (λ o. Steps M.meaning M.IsText self.old input.entry self.new o) }
        ensures safe { IfOk result
            (λ o. ActsSafely M.meaning (λ h. InputFits h input.entry) self.old self.new nothing o) }
        ensures runs { NothingToRun self.old → OnOk result (NothingToRun self.new) }
        ensures done { OnOk result (NothingToPropose self.new) }
        ensures halts { OnErr result (self.new.halted ≡ true) }
        ensures awake { OnOk result (self.new.halted ≡ false) }
        ensures stays_halted { self.old.halted ≡ true → IsErr result × (self.new ≡ self.old) }
    {
        if self.halted {
            return Err(Halted);
        }
        match self.handle_input(input) {
            Ok(outbox) => Ok(outbox),
            Err(NoMemory) => {
                self.halted = true;
                Err(Halted)
            }
        }
    }
}
