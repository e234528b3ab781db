ghost use Rattle.std.specs.Prelude.{◌≡◌, ◌+◌, ◌<◌, ◌≤◌, ◌↔◌, [], ◌∷◌, ◌++◌, length, drop, slice_get, nat_le, IsTrue};
ghost use Rattle.std.specs.Prelude.{IsSome, IfSome};
ghost use Rattle.std.specs.List.{list_all};
ghost use Rattle.lk_types.specs.Limits.{max_window};
ghost use Rattle.lk_members.specs.Rosters.{is_member as is_one};
ghost use Rattle.lk_members.specs.Sets.{IsWindow, AreAlike, newest, are_at_most};
ghost use Rattle.lk_members.specs.Ports.{is_named, port_of, IsNextAbove};

use crate::set::{are_same, facts_of, is_member, lesser, next_above, port_in};
use arrayvec::ArrayVec;
use lk_types::limits::MAX_WINDOW;
use lk_types::{Member, Members, NodeNo, Port};
use std::marker::Model;

/// The set of members of one position.
#[derive(Drop)]
pub struct WindowSet {
    set: Members,
}

impl Model for WindowSet {
    ghost use Rattle.std.specs.Prelude.{List};
    ghost use Rattle.lk_types.specs.declared.member.Member.{Member};

    ghost Value = { List Member };

    ghost view = { λ p. p.set };
}

impl Default for WindowSet {
    ghost is_default = { λ p. length p ≡ 1 };

    /// A set of one node.
    fn default() -> Self {
        let set = Members::of(&[Member::default()]).unwrap();
        WindowSet { set }
    }
}

impl WindowSet {
    /// The set.
    pub fn set(&self) -> &Members
        ensures { result.now ≡ self.now }
    {
        &self.set
    }

    // Whether every node of the set is at most this number.
    fn is_at_most(&self, greatest: NodeNo) -> bool
        ensures { result ≡ list_all (λ m. nat_le m.node greatest) self.now }
    {
        self.set
            .as_slice()
            .iter()
            .all(|member| member.node.get() <= greatest.get())
    }

    // Whether the node is one of the set.
    fn names(&self, node: NodeNo) -> bool
        ensures { result ≡ is_one node self.now }
    {
        is_member(&self.set, node)
    }
}

/// The sets of members of the next positions, the nearest first: at most 64. No call takes memory.
#[derive(Drop)]
pub struct Window {
    sets: ArrayVec<WindowSet, MAX_WINDOW>,
    // all sets are the same
    is_alike: bool,
}

impl Model for Window {
    ghost use Rattle.std.specs.Prelude.{List};
    ghost use Rattle.lk_types.specs.declared.member.Member.{Member};
    ghost use Rattle.std.specs.Prelude.{◌≡◌, true};
    ghost use Rattle.lk_members.specs.Sets.{IsWindow, AreAlike};

    ghost Value = { List (List Member) };

    ghost view = { λ w. w.sets.items };

    ghost invariant = { λ w. IsWindow w.sets.items × (w.is_alike ≡ true → AreAlike w.sets.items) };
}

impl Window {
    /// Returns a window without sets.
    pub fn new() -> Window
        ensures { result ≡ [] }
    {
        Window {
            sets: ArrayVec::new(),
            is_alike: true,
        }
    }

    /// The sets, the nearest first.
    pub fn as_slice(&self) -> &[WindowSet]
        ensures value { result.now ≡ self.now }
        ensures fits { IsWindow self.now }
    {
        self.sets.as_slice()
    }

    /// How many sets there are.
    pub fn len(&self) -> usize
        ensures value { result ≡ length self.now }
        ensures fits { IsWindow self.now }
    {
        self.sets.len()
    }

    /// Whether there is no set.
    pub fn is_empty(&self) -> bool
        ensures { IsTrue result ↔ (length self.now ≡ 0) }
    {
        self.sets.is_empty()
    }

    /// Whether it has a set, and all its sets are known to be the same.
    pub fn is_alike(&self) -> bool
        ensures { IsTrue result → (0 < length self.now) × AreAlike self.now }
    {
        self.is_alike && !self.is_empty()
    }

    /// Whether every node of the sets is at most this number.
    pub fn is_at_most(&self, greatest: NodeNo) -> bool
        ensures { result ≡ are_at_most greatest self.now }
    {
        self.sets
            .as_slice()
            .iter()
            .all(|each| each.is_at_most(greatest))
    }

    /// Whether some set names the node.
    pub fn is_named(&self, node: NodeNo) -> bool
        ensures { result ≡ is_named node self.now }
    {
        if self.is_alike() {
            return is_member(self.newest(), node);
        }
        self.sets.as_slice().iter().any(|each| each.names(node))
    }

    /// Returns the port of the node in the nearest set that names it, or `None` if none does.
    pub fn port_of(&self, node: NodeNo) -> Option<Port>
        ensures { result ≡ port_of node self.now }
    {
        let sets = self.as_slice();
        for each in sets {
            if each.names(node) {
                return port_in(&each.set, node);
            }
        }
        None
    }

    /// Returns the least node above `low` that some set names, or `None` if there is none.
    pub fn named_above(&self, low: u32) -> Option<NodeNo>
        ensures { IsNextAbove (λ k. is_named k self.now) low result }
    {
        if self.is_alike() {
            return next_above(self.newest(), low);
        }
        let mut next = None;
        for each in self.as_slice() {
            next = lesser(next, next_above(&each.set, low));
        }
        next
    }

    /// Returns a copy.
    pub fn copy(&self) -> Window
        ensures { result ≡ self.now }
    {
        let sets = self.as_slice();
        let mut window = Window::new();
        for each in sets {
            window.push(each.set.copy());
        }
        window
    }

    /// Appends the set of one more position, after the last.
    pub fn push(&mut self, set: Members)
        requires { length self.old < max_window }
        ensures { self.new ≡ self.old ++ set ∷ [] }
    {
        facts_of(&set);
        self.sets.push(WindowSet { set });
        self.is_alike = are_alike(self.sets.as_slice());
    }

    /// Returns the set at this index, the nearest at 0, or `None` if the window is shorter.
    pub fn get(&self, index: usize) -> Option<&Members>
        ensures some { IsSome result ↔ (index < length self.now) }
        ensures value { IfSome result (λ set. slice_get self.now index ≡ Some set.now) }
    {
        let each = self.sets.as_slice().get(index)?;
        Some(&each.set)
    }

    /// Returns the set of the last position, the one farthest ahead.
    pub fn newest(&self) -> &Members
        requires { 0 < length self.now }
        ensures { result.now ≡ newest self.now }
    {
        let sets = self.sets.as_slice();
        let last = &sets[sets.len() - 1];
        &last.set
    }

    /// Advances by one position: drops the nearest set, and appends this one.
    pub fn advance(&mut self, set: Members)
        requires { 0 < length self.old }
        ensures { self.new ≡ drop 1 self.old ++ set ∷ [] }
    {
        self.is_alike = false;
        self.sets.remove(0);
        self.push(set);
    }
}

// Whether all sets are the same.
fn are_alike(sets: &[WindowSet]) -> bool
    ensures { IsTrue result → AreAlike sets.now }
{
    if sets.is_empty() {
        return true;
    }
    let newest = &sets[sets.len() - 1];
    for each in sets {
        if !are_same(&each.set, &newest.set) {
            return false;
        }
    }
    true
}
