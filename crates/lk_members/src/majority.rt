ghost use Rattle.std.specs.Prelude.{◌≡◌, ◌≤◌, ◌==◌, ◌↔◌, IsTrue, length, count_by};
ghost use Rattle.std.specs.List.{list_any, list_all};
ghost use Rattle.lk_members.specs.Rosters.{is_member as is_one};
ghost use Rattle.lk_members.specs.Majorities.{IsMajority};

use crate::nodes::is_among;
use crate::set::is_member;
use lk_types::{Member, Members, NodeNo};

// Returns how many of the members are among the nodes. A node that is listed twice counts once.
fn count_among(members: &[Member], nodes: &[NodeNo]) -> usize
    ensures count { result ≡ count_by (λ m. list_any (λ n. n == m.node) nodes.now) members.now }
    ensures bound { result ≤ length members.now }
{
    members.iter().filter(|m| is_among(nodes, m.node)).count()
}

// Whether each of the nodes is a member of the set.
fn lie_within(set: &Members, nodes: &[NodeNo]) -> bool
    ensures { result ≡ list_all (λ n. is_one n set.now) nodes.now }
{
    nodes.iter().all(|node| is_member(set, *node))
}

/// Whether the nodes are members of the set, and more than half of its members are among them.
pub fn is_majority(set: &Members, nodes: &[NodeNo]) -> bool
    ensures { IsTrue result ↔ IsMajority nodes.now set.now }
{
    let members = set.as_slice();
    lie_within(set, nodes) && members.len() < 2 * count_among(members, nodes)
}
