// The nodes to which a step sends, and an envelope to each of several nodes. The window is the sets of members of the
// next alpha positions.
ghost use Rattle.std.specs.Prelude.{◌≡◌, IfOk, OnOk};
ghost use Rattle.lk_messages.specs.Grammar.{IsMessage};
ghost use Rattle.lk_node_interface.specs.Recipients.{AreWindowNodes, AreOthers, index_in, to_node, envelopes_to};
ghost use Rattle.lk_node_interface.specs.Saying.{saying};

use crate::encoding::encode;
use crate::envelope::Envelope;
use crate::to::To;
use lk_members::Roster;
use lk_store_format::Header;
use lk_types::{NoMemory, NodeNo};
use lk_wire::NodeMessage;
use std::alloc::Global;

/// Returns the nodes that some set of the window names, in rising order, without repetition.
pub fn window_nodes(alloc: Global, roster: &Roster) -> Result<Vec<NodeNo>, NoMemory>
    ensures { IfOk result (λ ns. AreWindowNodes roster.now.sets ns.items) }
{
    let mut nodes = Vec::new(alloc);
    let mut low = 0;
    'walk: while let Some(node) = roster.named_above(low) {
        nodes.push(node)?;
        low = node.get();
    }
    Ok(nodes)
}

/// Returns the nodes of the window except this one, in rising order.
pub fn others(alloc: Global, roster: &Roster, own_node: NodeNo) -> Result<Vec<NodeNo>, NoMemory>
    ensures { IfOk result (λ ns. AreOthers roster.now.sets own_node ns.items) }
{
    let all = window_nodes(alloc, roster)?;
    let mut others = Vec::new(alloc);
    let nodes = all.as_slice();
    'nodes: for node in nodes {
        if *node != own_node {
            others.push(*node)?;
        }
    }
    Ok(others)
}

/// Returns the index of the node, from 0, among the members of the next position; `None` if it is not one of them.
pub fn index_of(roster: &Roster, node: NodeNo) -> Option<usize>
    ensures { result ≡ index_in roster.now.sets node }
{
    let members = roster.window().get(0)?.as_slice();
    members.iter().position(|member| member.node == node)
}

// Addresses these bytes to a node at its port in the window, or at port 0 if no set names it.
fn envelope_to(roster: &Roster, node: NodeNo, bytes: Vec<u8>) -> Envelope
    ensures { result ≡ record { to = to_node roster.now.sets node; bytes = bytes.items } }
{
    let to = To::Node(node, roster.port_number_of(node));
    Envelope { to, bytes }
}

/// Returns an envelope with this message for each of the nodes, in order, at its port in the window. It is spelled
/// once, and copied for each node but the last.
pub fn envelopes_to(
    alloc: Global,
    header: &Header,
    roster: &Roster,
    nodes: &[NodeNo],
    message: NodeMessage,
) -> Result<Vec<Envelope>, NoMemory>
    ensures envelopes { IfOk result (λ ls. ls.items ≡ envelopes_to header.now roster.now.sets message nodes.now) }
    ensures fits { OnOk result (IsMessage (saying header.now message)) }
{
    let bytes = encode(alloc, header, message)?;
    let mut envelopes = Vec::new(alloc);
    let Some((last, others)) = nodes.split_last() else {
        return Ok(envelopes);
    };
    'nodes: for node in others {
        let bytes = bytes.as_slice().to_vec(alloc)?;
        envelopes.push(envelope_to(roster, *node, bytes))?;
    }
    envelopes.push(envelope_to(roster, *last, bytes))?;
    Ok(envelopes)
}
