// The nodes of a set, and whether a node is among them.
ghost use Rattle.std.specs.Prelude.{◌≡◌, ◌==◌, IfOk};
ghost use Rattle.std.specs.List.{list_any};
ghost use Rattle.lk_members.specs.Nodes.{nodes_of};

use lk_types::{Members, NoMemory, NodeNo};
use std::alloc::Global;

/// Returns the nodes of a set, in rising order. Takes memory.
pub fn nodes_of(alloc: Global, set: &Members) -> Result<Vec<NodeNo>, NoMemory>
    ensures { IfOk result (λ ns. ns.items ≡ nodes_of set.now) }
{
    let members = set.as_slice();
    let mut nodes = Vec::new(alloc);
    'members: for member in members {
        nodes.push(member.node)?;
    }
    Ok(nodes)
}

/// Whether the node is among these.
pub fn is_among(nodes: &[NodeNo], node: NodeNo) -> bool
    ensures { result ≡ list_any (λ n. n == node) nodes.now }
{
    nodes.iter().any(|other| *other == node)
}
