// How a node handles a client's request.
ghost use Rattle.std.specs.Prelude.{◌≡◌, Contains, IfOk};
ghost use Rattle.lk_node_interface.specs.Outboxes.{nothing};
ghost use Rattle.lk_node.specs.Asking.{leader_in, PointsTo, QueuesOrRedirects, HandlesRequest};
ghost use Rattle.lk_node.specs.SafeSteps.{ActsSafely};

use crate::node::Node;
use lk_node_interface::{Outbox, To, kept_reply};
use lk_state::Machine;
use lk_types::{ClientNo, Member, NoMemory, Request};
use lk_wire::{Elsewhere, NodeMessage};

impl<M: Machine> Node<M> {
    // Returns the known leader with its port in the window; `None` if none is known, or the window does not name it.
    fn known_leader(&self) -> Option<Member>
        ensures { result ≡ leader_in self.now.known self.now.learner.whole.roster.sets }
    {
        let node = self.known?;
        let port = self.roster().port_of(node)?;
        Some(Member { node, port })
    }

    // Redirects the client to the known leader with an Elsewhere. Sends nothing if there is none in the window.
    fn redirect(&self, request: &Request) -> Result<Outbox, NoMemory>
        ensures { IfOk result (λ o. PointsTo
            (leader_in self.now.known self.now.learner.whole.roster.sets) self.now request.now self.now o) }
    {
        let Some(member) = self.known_leader() else {
            return Ok(Outbox::new(self.alloc));
        };
        let (client, number) = (request.client, request.number);
        let elsewhere = Elsewhere {
            client,
            number,
            member,
        };
        self.outbox_with(To::Client(client), NodeMessage::Elsewhere(elsewhere))
    }

    // Handles a new request: queues it for `propose` if there is a term, and redirects its client otherwise.
    fn queue_or_redirect(&mut self, request: &Request) -> Result<Outbox, NoMemory>
        ensures { IfOk result (λ o. QueuesOrRedirects self.old.leader.term self.old request.now self.new o) }
    {
        if self.leader.ballot().is_none() {
            return self.redirect(request);
        }
        self.nothing_to_propose = false;
        self.leader
            .ask(request.client, request.number, &request.op)?;
        Ok(Outbox::new(self.alloc))
    }

    // Handles a client's request: replies from the client's session if it is not new; queues or redirects a new one.
    pub(crate) fn handle_request(&mut self, request: &Request) -> Result<Outbox, NoMemory>
        ensures exact { IfOk result (λ o. HandlesRequest self.old request.now self.new o) }
        ensures safe { IfOk result
            (λ o. ActsSafely M.meaning (λ h. Contains h.asked request.now) self.old self.new nothing o) }
    {
        let (client, number) = (request.client, request.number);
        let seen = self.learner.whole().seen(client, number);
        let Some(reply) = kept_reply(client, number, seen) else {
            return self.queue_or_redirect(request);
        };
        let out = self.outbox_with(To::Client(client), reply)?;
        Ok(out)
    }
}
