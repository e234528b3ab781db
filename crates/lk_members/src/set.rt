ghost use Rattle.std.specs.Prelude.{◌≡◌, ◌<◌, ◌↔◌, ◌==◌, false, [], ◌∷◌, ◌++◌, length, IsTrue, IsSome, IfSome};
ghost use Rattle.lk_types.specs.Limits.{max_members};
ghost use Rattle.lk_types.specs.Rosters.{members_rise};
ghost use Rattle.lk_members.specs.Sets.{IsSet};
ghost use Rattle.lk_members.specs.Rosters.{is_member as is_one, others, is_nobody};
ghost use Rattle.lk_members.specs.Ports.{port_in as port_of, lesser_of, IsNextAbove};

use arrayvec::ArrayVec;
use lk_types::limits::MAX_MEMBERS;
use lk_types::{Member, Members, NodeNo, Port};

/// Shows the prover that each part of the set is in its range. Does nothing at run time.
pub fn facts_of(set: &Members)
    ensures { IsSet set.now }
{
    let members = set.as_slice();
    for member in members {
        member.facts();
    }
}

/// Whether the node is one of the members.
pub fn is_member(set: &Members, node: NodeNo) -> bool
    ensures { result ≡ is_one node set.now }
{
    set.as_slice().iter().any(|m| m.node == node)
}

/// Whether the two sets are the same.
pub fn are_same(a: &Members, b: &Members) -> bool
    ensures { IsTrue result → a.now ≡ b.now }
{
    *a == *b
}

/// Returns the port that the set gives the node, or `None` if it is not a member.
pub fn port_in(set: &Members, node: NodeNo) -> Option<Port>
    ensures { result ≡ port_of node set.now }
{
    for member in set.as_slice() {
        if member.node == node {
            return Some(member.port);
        }
    }
    None
}

/// Returns the lesser of two nodes, the other one if either is `None`, and `None` if both are.
pub fn lesser(a: Option<NodeNo>, b: Option<NodeNo>) -> Option<NodeNo>
    ensures { result ≡ lesser_of a b }
{
    let Some(x) = a else {
        return b;
    };
    let Some(y) = b else {
        return a;
    };
    if x.get() <= y.get() {
        return a;
    }
    b
}

// Returns the node if its number is above `low`, or `None`.
fn if_above(low: u32, node: NodeNo) -> Option<NodeNo>
    ensures { IsNextAbove (λ k. node == k) low result }
{
    if node.get() <= low {
        return None;
    }
    Some(node)
}

/// Returns the least node of the set above `low`, or `None` if there is none.
pub fn next_above(set: &Members, low: u32) -> Option<NodeNo>
    ensures { IsNextAbove (λ k. is_one k set.now) low result }
{
    let mut next = None;
    for member in set.as_slice() {
        next = lesser(next, if_above(low, member.node));
    }
    next
}

/// Returns the set with one more member, whose node has to be above all of its nodes.
pub fn with_member(set: &Members, member: Member) -> Members
    requires room { length set.now < max_members }
    requires rises { IsTrue (members_rise 0 (set.now ++ member ∷ [])) }
    ensures { result ≡ set.now ++ member ∷ [] }
{
    let mut list: ArrayVec<Member, MAX_MEMBERS> = ArrayVec::try_from(set.as_slice()).unwrap();
    list.push(member);
    Members::of(list.as_slice()).unwrap()
}

/// Returns the set without this node, or `None` if nobody is left. A node that is not a member changes nothing.
pub fn without(set: &Members, node: NodeNo) -> Option<Members>
    ensures some { IsSome result ↔ (is_nobody (others node set.now) ≡ false) }
    ensures value { IfSome result (λ s. s ≡ others node set.now) }
{
    let members = set.as_slice();
    let mut left: ArrayVec<Member, MAX_MEMBERS> = ArrayVec::new();
    for member in members {
        if member.node != node {
            left.push(*member);
        }
    }
    Members::of(left.as_slice())
}
