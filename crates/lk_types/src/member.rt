ghost use Rattle.std.specs.Prelude.{◌≡◌, ◌≤◌, ◌↔◌, ℕ, List, length, IsSome, IfSome};
ghost use Rattle.std.specs.List.{AllByRecursion};
ghost use Rattle.lk_types.specs.Rosters.{AreMembers, IsMember, members_rise};

use crate::limits::MAX_MEMBERS;
use crate::node::NodeNo;
use crate::port::Port;
use arrayvec::ArrayVec;
use std::marker::Model;

/// A member: a node and the port at which it is reached.
#[derive(Clone, Copy, Debug, PartialEq, Eq, Default)]
pub struct Member {
    pub node: NodeNo,
    pub port: Port,
}

impl Member {
    /// Shows the prover that each part is in its range. Does nothing at run time.
    pub fn facts(self)
        ensures { IsMember self }
    {}
}

/// A set of 1 to 7 members, listed by rising node number.
#[derive(Clone, Debug, PartialEq, Eq, Drop)]
pub struct Members {
    list: ArrayVec<Member, MAX_MEMBERS>,
}

impl Model for Members {
    ghost use Rattle.std.specs.Prelude.{List};
    ghost use Rattle.lk_types.specs.declared.member.Member.{Member};
    ghost use Rattle.lk_types.specs.Rosters.{AreMembers};

    ghost Value = { List Member };

    ghost view = { λ m. m.list.items };

    ghost invariant = { λ m. AreMembers m.list.items };

    ghost inverse = { λ xs. record { list = record { items = xs } } };
}

// Returns whether each node number is above the one before.
fn are_rising(members: &[Member]) -> bool
    ensures { result ≡ members_rise 0 members.now }
{
    let mut low = 0;
    for member in members {
        let node = member.node.get();
        if node <= low {
            return false;
        }
        low = node;
    }
    true
}

impl Members {
    /// The set, or `None` if there are not 1 to 7 members, strictly rising by node.
    pub fn of(members: &[Member]) -> Option<Members>
        ensures some { IsSome result ↔ AreMembers members.now }
        ensures value { IfSome result (λ m. m ≡ members.now) }
    {
        if members.is_empty() || !are_rising(members) {
            return None;
        }
        let list = ArrayVec::try_from(members).ok()?;
        Some(Members { list })
    }

    /// The members, rising by node.
    pub fn as_slice(&self) -> &[Member]
        ensures value { result.now ≡ self.now }
        ensures fits { AreMembers self.now }
    {
        self.list.as_slice()
    }

    /// Shows the prover that each member is in its range, and that they rise by node. Does nothing at run time.
    pub fn facts(&self)
        ensures members { AreMembers self.now }
        ensures ranges { AllByRecursion IsMember self.now }
    {
        let members = self.as_slice();
        for member in members {
            member.facts();
        }
    }

    /// The same set. Takes no memory.
    pub fn copy(&self) -> Members
        ensures { result ≡ self.now }
    {
        let list = self.list.clone().unwrap();
        Members { list }
    }
}
