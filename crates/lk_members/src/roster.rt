ghost use Rattle.std.specs.Prelude.{◌≡◌, ℕ, ◌+◌, ◌-◌, ◌<◌, ◌≤◌, ◌↔◌, Some, false, nat_le, List, [], ◌∷◌, ◌++◌, length};
ghost use Rattle.std.specs.Prelude.{slice_get, IsTrue, IsSome, IfSome};
ghost use Rattle.lk_types.specs.Limits.{max_count};
ghost use Rattle.lk_members.specs.Rosters.{greatest_node};
ghost use Rattle.lk_members.specs.Windows.{sets_from};

use crate::set::{facts_of, is_member, with_member, without};
use crate::window::Window;
use lk_types::limits::MAX_MEMBERS;
use lk_types::{Answer, Executed, Genesis, Member, Members, NodeNo, Op, Port, Position};
use std::marker::Model;

/// The members of the next alpha positions, the greatest number that was ever a member's, and the position of the last
/// change. A change at a position takes effect alpha positions later (Lamport, Malkhi, Zhou 2010). No call takes
/// memory.
#[derive(Drop)]
pub struct Roster {
    executed: Executed,
    window: Window,
    greatest: NodeNo,
    changed: Executed,
}

impl Model for Roster {
    ghost use Rattle.lk_members.specs.Windows.{RosterValue, IsRoster};

    ghost Value = { RosterValue };

    ghost view = { λ r. record { executed = r.executed; sets = r.window; greatest = r.greatest; changed = r.changed } };

    ghost invariant = { λ r. IsRoster
        (record { executed = r.executed; sets = r.window; greatest = r.greatest; changed = r.changed }) };
}

impl Roster {
    ghost use Rattle.std.specs.Prelude.{◌≡◌, ℕ, ◌+◌, ◌-◌, ◌<◌, ◌≤◌, ◌↔◌, Some, false, nat_le, List, [], ◌∷◌, ◌++◌};
    ghost use Rattle.std.specs.Prelude.{length, slice_get, IsTrue, IsSome, IfSome};
    ghost use Rattle.std.specs.List.{list_all};
    ghost use Rattle.lk_types.specs.Ranges.{IsAlpha};
    ghost use Rattle.lk_types.specs.Rosters.{AreMembers};
    ghost use Rattle.lk_members.specs.Effects.{Command, RequestValue, Request, in_effect};
    ghost use Rattle.lk_members.specs.Rosters.{Genesis, Op as OpValue, Join, Leave, IsChange, members, roster_of};
    ghost use Rattle.lk_members.specs.Rosters.{roster_answer, join_answer, leave_answer, is_granted_change};
    ghost use Rattle.lk_members.specs.Sets.{AreAlike, newest, are_at_most};
    ghost use Rattle.lk_members.specs.Windows.{RosterSumsUp, IsRoster, newest_roster, moved, moved_unchanged};
    ghost use Rattle.lk_members.specs.Windows.{changed_by};
    ghost use Rattle.lk_members.specs.Ports.{is_named, port_of, number_or_zero, IsNextAbove};

    /// Returns the roster of these parts, or `None` if the window has no set or names a node above `greatest`.
    pub fn of(
        executed: Executed,
        window: Window,
        greatest: NodeNo,
        changed: Executed,
    ) -> Option<Roster>
        ensures some { IsSome result ↔ ((0 < length window) × IsTrue (are_at_most greatest window)) }
        ensures value { IfSome result
            (λ r. r ≡ record { executed = executed; sets = window; greatest = greatest; changed = changed }) }
    {
        let _ = (executed.get(), greatest.get(), changed.get());
        if window.len() == 0 || !window.is_at_most(greatest) {
            return None;
        }
        Some(Roster {
            executed,
            window,
            greatest,
            changed,
        })
    }

    /// Shows the prover that each part is in its range. Does nothing at run time.
    pub fn facts(&self)
        ensures { IsRoster self.now }
    {
        let _ = self.executed.get();
    }

    /// The roster of a cluster that has executed nothing.
    pub fn begin(genesis: &Genesis) -> Roster
        ensures { RosterSumsUp genesis.now [] result }
    {
        let window = first_window(genesis);
        let greatest = greatest_of(&genesis.members);
        Roster::of(Executed::default(), window, greatest, Executed::default()).unwrap()
    }

    /// How many positions ahead the members are known: 1 to 64.
    pub fn alpha(&self) -> u8
        ensures value { result ≡ length self.now.sets }
        ensures in_range { IsAlpha result }
    {
        self.window.len() as u8
    }

    /// How many positions are executed.
    pub fn executed(&self) -> Executed
        ensures { result ≡ self.now.executed }
    {
        self.executed
    }

    /// The position of the last granted join or leave, 0 if there was none.
    pub fn changed(&self) -> Executed
        ensures { result ≡ self.now.changed }
    {
        self.changed
    }

    /// The greatest number that was ever a member's. A join needs a greater one, so no number is used again.
    pub fn greatest(&self) -> NodeNo
        ensures { result ≡ self.now.greatest }
    {
        self.greatest
    }

    /// The sets of the next positions, the nearest first.
    pub fn window(&self) -> &Window
        ensures { result.now ≡ self.now.sets }
    {
        &self.window
    }

    /// The members after all changes so far, which decide the last of the next alpha positions.
    pub fn newest(&self) -> &Members
        ensures value { result.now ≡ newest self.now.sets }
        ensures fits { AreMembers result.now }
        ensures bound { IsTrue (list_all (λ m. nat_le m.node self.now.greatest) result.now) }
    {
        let set = self.window.newest();
        let _ = set.as_slice();
        set
    }

    /// Returns the members that decide the position, or `None` if it is not among the next alpha ones.
    pub fn members_at(&self, position: Position) -> Option<&Members>
        ensures some { IsSome result
            ↔ ((self.now.executed < position) × (position ≤ self.now.executed + length self.now.sets)) }
        ensures value { IfSome result
            (λ set. slice_get self.now.sets (position - (self.now.executed + 1)) ≡ Some set.now) }
        ensures sums { (genesis : Genesis) (L : List Command) → RosterSumsUp genesis L self.now
            → IfSome result (λ set. set.now ≡ members genesis L position) }
    {
        let nearest = self.executed.get() + 1;
        let ahead = position.get().checked_sub(nearest)?;
        self.window.get(ahead as usize)
    }

    /// Whether one of the sets of the next positions names the node.
    pub fn is_in_window(&self, node: NodeNo) -> bool
        ensures { result ≡ is_named node self.now.sets }
    {
        self.window.is_named(node)
    }

    /// The least node above this number that one of the sets of the next positions names; `None` if there is none.
    /// Repeated calls visit the nodes of the window in rising order.
    pub fn named_above(&self, low: u32) -> Option<NodeNo>
        ensures { IsNextAbove (λ k. is_named k self.now.sets) low result }
    {
        self.window.named_above(low)
    }

    /// The port of the node, in the nearest set of the window that names it; `None` if none does.
    pub fn port_of(&self, node: NodeNo) -> Option<Port>
        ensures value { result ≡ port_of node self.now.sets }
        ensures some { IsSome result ↔ IsTrue (is_named node self.now.sets) }
    {
        self.window.port_of(node)
    }

    /// Returns the port of the node as a number, 0 if no set of the window names it.
    pub fn port_number_of(&self, node: NodeNo) -> u16
        ensures { result ≡ number_or_zero (port_of node self.now.sets) }
    {
        match self.port_of(node) {
            Some(port) => port.get(),
            None => 0,
        }
    }

    /// The same roster. Takes no memory.
    pub fn copy(&self) -> Roster
        ensures { result ≡ self.now }
    {
        Roster {
            executed: self.executed,
            window: self.window.copy(),
            greatest: self.greatest,
            changed: self.changed,
        }
    }

    /// Advances by one position without a change.
    pub fn pass(&mut self)
        requires { self.old.executed < max_count }
        ensures next { self.new ≡ moved_unchanged self.old }
        ensures sums { (genesis : Genesis) (L : List Command) (entry : Command) → RosterSumsUp genesis L self.old
            → is_granted_change (roster_of genesis L) (in_effect L entry) ≡ false
            → RosterSumsUp genesis (L ++ entry ∷ []) self.new }
    {
        if self.is_alike() {
            self.executed = self.next();
            return;
        }
        let set = self.newest().copy();
        let (greatest, changed) = (self.greatest(), self.changed());
        self.advance(set, greatest, changed);
    }

    // Whether all sets of the window are known to be the same.
    fn is_alike(&self) -> bool
        ensures { IsTrue result → (0 < length self.now.sets) × AreAlike self.now.sets }
    {
        self.window.is_alike()
    }

    // Advances by one position: drops the nearest set, appends this one, and replaces the other two parts.
    fn advance(&mut self, set: Members, greatest: NodeNo, changed: Executed)
        requires room { self.old.executed < max_count }
        requires bound { IsTrue (list_all (λ m. nat_le m.node greatest) set) }
        requires rises { self.old.greatest ≤ greatest }
        ensures { self.new ≡ moved (record { members = set; greatest = greatest }) changed self.old }
    {
        facts_of(&set);
        let _ = greatest.get();
        let _ = changed.get();
        self.executed = self.next();
        self.window.advance(set);
        self.greatest = greatest;
        self.changed = changed;
    }

    // Returns the number of the next position to execute.
    fn next(&self) -> Executed
        requires { self.now.executed < max_count }
        ensures { result ≡ self.now.executed + 1 }
    {
        Executed::of(self.executed.get() + 1).unwrap()
    }

    // Executes a join and returns its answer. Advances by one position even if the join is refused.
    fn join(&mut self, node: NodeNo, port: Port) -> Answer
        requires { self.old.executed < max_count }
        ensures answer { result ≡ join_answer (newest_roster self.old) node }
        ensures next { self.new ≡ changed_by (Join node port) self.old }
    {
        if node.get() <= self.greatest().get() {
            self.pass();
            return Answer::Used;
        }
        if self.newest().as_slice().len() >= MAX_MEMBERS {
            self.pass();
            return Answer::Full;
        }
        let set = with_member(self.newest(), Member { node, port });
        let changed = self.next();
        self.advance(set, node, changed);
        Answer::Joined
    }

    // Executes a leave and returns its answer. Advances by one position even if the leave is refused.
    fn leave(&mut self, node: NodeNo) -> Answer
        requires { self.old.executed < max_count }
        ensures answer { result ≡ leave_answer (newest_roster self.old) node }
        ensures next { self.new ≡ changed_by (Leave node) self.old }
    {
        if !is_member(self.newest(), node) {
            self.pass();
            return Answer::NotMember;
        }
        let Some(set) = without(self.newest(), node) else {
            self.pass();
            return Answer::Last;
        };
        let greatest = self.greatest();
        let changed = self.next();
        self.advance(set, greatest, changed);
        Answer::Left
    }

    /// Executes a join or a leave and returns its answer. Advances by one position even if it is refused.
    pub fn change(&mut self, op: &Op) -> Answer
        requires room { self.old.executed < max_count }
        requires change { IsChange op.now }
        ensures answer { roster_answer (newest_roster self.old) op.now ≡ Some result }
        ensures next { self.new ≡ changed_by op.now self.old }
        ensures answers { (genesis : Genesis) (L : List Command) → RosterSumsUp genesis L self.old
            → roster_answer (roster_of genesis L) op.now ≡ Some result }
        ensures sums { (genesis : Genesis) (L : List Command) (request : RequestValue)
            → RosterSumsUp genesis L self.old → request.op ≡ op.now
            → in_effect L (Request request) ≡ Some request → RosterSumsUp genesis (L ++ Request request ∷ []) self.new }
    {
        match op {
            Op::Join(node, port) => self.join(*node, *port),
            Op::Leave(node) => self.leave(*node),
            Op::Table(_) | Op::Raise => unreachable!(),
        }
    }
}

// Returns the first window: the members of the genesis for each of the first alpha positions.
fn first_window(genesis: &Genesis) -> Window
    ensures { result ≡ sets_from genesis.now [] 1 genesis.now.alpha }
{
    let mut window = Window::new();
    for _ in 0..genesis.alpha {
        window.push(genesis.members.copy());
    }
    window
}

// Returns the greatest node of a set, which is the last one's, as members rise by node.
fn greatest_of(set: &Members) -> NodeNo
    ensures { result ≡ greatest_node set.now }
{
    let members = set.as_slice();
    members[members.len() - 1].node
}
