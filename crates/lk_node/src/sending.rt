// Messages of a node to several nodes, and outboxes with a single message.
ghost use Rattle.std.specs.Prelude.{◌≡◌, IfOk, OnOk};
ghost use Rattle.lk_messages.specs.Grammar.{IsMessage};
ghost use Rattle.lk_node_interface.specs.Saying.{saying};
ghost use Rattle.lk_node.specs.Replying.{SaysAlone};
ghost use Rattle.lk_node.specs.Saying.{to_node};
ghost use Rattle.lk_node.specs.Telling.{AreWindowNodes, AreOthers, telling};

use crate::node::Node;
use lk_node_interface::{Outbox, To, envelopes_to, others, window_nodes};
use lk_state::Machine;
use lk_types::{NoMemory, NodeNo};
use lk_wire::NodeMessage;

impl<M: Machine> Node<M> {
    // Returns the nodes that some set of the window names, in rising order.
    pub(crate) fn window_nodes(&self) -> Result<Vec<NodeNo>, NoMemory>
        ensures { IfOk result (λ ns. AreWindowNodes self.now ns.items) }
    {
        window_nodes(self.alloc, self.roster())
    }

    // Returns the nodes of the window except this one, in rising order.
    pub(crate) fn others(&self) -> Result<Vec<NodeNo>, NoMemory>
        ensures { IfOk result (λ ns. AreOthers self.now ns.items) }
    {
        others(self.alloc, self.roster(), self.header.node())
    }

    // Adds an envelope with the same message to each of the nodes, in order.
    pub(crate) fn send_to_all(
        &self,
        nodes: &[NodeNo],
        message: NodeMessage,
        out: &mut Outbox,
    ) -> Result<(), NoMemory>
        ensures said { OnOk result (out.new ≡ telling self.now nodes.now message out.old) }
        ensures fits { OnOk result (IsMessage (saying self.now.header message)) }
    {
        let envelopes = envelopes_to(self.alloc, &self.header, self.roster(), nodes, message)?;
        out.add_envelopes(envelopes)?;
        Ok(())
    }

    // Returns an outbox with one message, to a node or a client.
    pub(crate) fn outbox_with(&self, to: To, message: NodeMessage) -> Result<Outbox, NoMemory>
        ensures { IfOk result (λ o. SaysAlone self.now to message o) }
    {
        let mut out = Outbox::new(self.alloc);
        self.send(to, message, &mut out)?;
        Ok(out)
    }

    // Returns an outbox with one message, to a node at its port in the window.
    pub(crate) fn outbox_to_node(
        &self,
        node: NodeNo,
        message: NodeMessage,
    ) -> Result<Outbox, NoMemory>
        ensures { IfOk result (λ o. SaysAlone self.now (to_node self.now node) message o) }
    {
        let mut out = Outbox::new(self.alloc);
        self.send_to_node(node, message, &mut out)?;
        Ok(out)
    }
}
