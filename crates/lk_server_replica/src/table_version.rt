//! The version of a node's lock table. A machine has no call that returns it, so a copy is raised, and its answer shows
//! whether it was raised before. As that is expensive, a server keeps the result, and reads again only after a Raise or
//! another node's snapshot.

ghost use Rattle.std.specs.Prelude.{◌≡◌, ◌↔◌, IfSome, IsTrue};
ghost use Rattle.lk_state.specs.Packed.{packed, Packs};
ghost use Rattle.lk_state.specs.States.{WholeValue};
ghost use Rattle.lk_server_replica.specs.TableVersions.{WasRaised, TellsRaised};

use crate::replica_status::ReplicaStatus;
use bytes::BytesMut;
use lk_node::Node;
use lk_node_interface::Note;
use lk_state::{Machine, Whole};
use lk_types::{Answer, Command, Op};
use std::alloc::Global;

/// The version of its lock table that a server has read.
#[derive(Clone, Copy)]
pub enum TableVersion {
    /// Unknown: it has to be read.
    Unread,
    /// Not raised when it was read.
    First,
    /// Raised to the second version, permanently.
    Raised,
}

// Returns whether a note reports an executed Raise.
fn is_raise(note: &Note) -> bool {
    match note {
        Note::Ran(_, _, Command::Request(request)) => matches!(request.op, Op::Raise),
        _ => false,
    }
}

impl TableVersion {
    /// Makes it from what was read; `Unread` if that ran out of memory.
    pub fn of(is_raised: Option<bool>) -> TableVersion {
        match is_raised {
            Some(true) => TableVersion::Raised,
            Some(false) => TableVersion::First,
            None => TableVersion::Unread,
        }
    }

    /// Returns its number in a report: 0 if it has to be read.
    pub fn number(self) -> u8 {
        match self {
            TableVersion::Unread => 0,
            TableVersion::First => 1,
            TableVersion::Raised => 2,
        }
    }

    // Forgets the first version, which may have been raised since; a raised table stays raised.
    fn doubted(self) -> TableVersion {
        match self {
            TableVersion::Raised => TableVersion::Raised,
            TableVersion::First | TableVersion::Unread => TableVersion::Unread,
        }
    }

    /// Returns what is still known after a group with these notes: only a Raise changes the version.
    pub fn after(self, notes: &[Note]) -> TableVersion {
        for note in notes {
            if is_raise(note) {
                return self.doubted();
            }
        }
        self
    }

    /// Returns what is still known after a step: an installed snapshot, one above what was executed before, may be of a
    /// raised table.
    pub fn after_step(self, before: &ReplicaStatus, after: &ReplicaStatus) -> TableVersion {
        if after.snapshot.get() > before.executed.get() {
            return self.doubted();
        }
        self
    }
}

// Returns whether the machine of this packed text was raised, or `None` if it is out of memory. It raises a copy: only
// a raised machine answers AlreadyRaised.
fn is_raised_text<M: Machine>(alloc: Global, text: &[u8]) -> Option<bool>
    ensures { IfSome result (λ is. IsTrue is ↔ WasRaised M.meaning text.now) }
{
    let Ok(machine) = M::unpack(alloc, text) else {
        return None;
    };
    let mut machine = machine;
    Some(matches!(machine.raise(), Answer::AlreadyRaised))
}

// Returns the packed text of the machine in a packed state, of which a copy can be raised, or `None` if it is out of
// memory.
fn machine_text<M: Machine>(alloc: Global, state: &[u8]) -> Option<BytesMut>
    ensures { IfSome result (λ t. (w : WholeValue) → Packs M.IsText w state.now → t.items ≡ w.text) }
{
    let Ok(whole) = Whole::<M>::unpack(alloc, state) else {
        return None;
    };
    let mut text = BytesMut::new(alloc);
    match whole.machine().pack(&mut text) {
        Ok(()) => Some(text),
        Err(_) => None,
    }
}

// Returns whether the machine of a packed state was raised, or `None` if it is out of memory.
fn is_raised_state<M: Machine>(alloc: Global, state: &[u8]) -> Option<bool>
    ensures { IfSome result (TellsRaised M.meaning M.IsText state.now) }
{
    let Some(text) = machine_text::<M>(alloc, state) else {
        return None;
    };
    is_raised_text::<M>(alloc, &text)
}

/// Returns whether the machine of a node was raised, or `None` if it is out of memory.
pub fn is_raised<M: Machine>(alloc: Global, node: &Node<M>) -> Option<bool>
    ensures { IfSome result (TellsRaised M.meaning M.IsText (packed node.now.learner.whole)) }
{
    let Ok(standing) = node.standing() else {
        return None;
    };
    is_raised_state::<M>(alloc, &standing.snapshot)
}
