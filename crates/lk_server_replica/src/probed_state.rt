//! The part of a node's report to a probe that its replica knows.

ghost use Rattle.std.specs.Prelude.{◌≡◌, Some, min, length, slice_get};
ghost use Rattle.std.specs.FinMap as map;
ghost use Rattle.lk_locks.specs.Packed.{table_in};
ghost use Rattle.lk_server_replica.specs.Showing.{pending_in, IsShown};

use crate::table_machine::TableMachine;
use lk_disk::LogDisk;
use lk_members::Roster;
use lk_node::Node;
use lk_probe::{Leadership, Progress};
use lk_replica::Replica;
use lk_state::Machine;
use lk_types::Members;

/// The part of a node's report to a probe that its replica knows.
#[derive(Drop)]
pub struct ProbedState {
    pub leadership: Leadership,
    pub progress: Progress,
    /// How many requests wait to be proposed; 65,535 if there are more.
    pub waiting: u16,
    /// The members of the next position.
    pub members: Members,
    /// The members after all joins and leaves so far.
    pub newest: Members,
    /// The format of its store.
    pub format: u8,
    /// How many names its lock table has.
    pub names: u16,
}

/// The members of the next position.
pub fn next_members(roster: &Roster) -> &Members
    ensures { slice_get roster.now.sets 0 ≡ Some result.now }
{
    // It does nothing; by its contract the window is not empty.
    roster.facts();
    roster.window().as_slice()[0].set()
}

// Returns how many positions remain before the last granted join or leave takes effect: 0 if none is pending, and 255
// at most.
fn pending(roster: &Roster) -> u8
    ensures { result ≡ min (pending_in roster.now) 255 }
{
    let changed = roster.changed().get();
    if changed == 0 {
        return 0;
    }
    let in_force = changed + u64::from(roster.alpha());
    let left = in_force.saturating_sub(roster.executed().get() + 1);
    if left < 255 { left as u8 } else { 255 }
}

// Returns how many requests wait to be proposed; 65,535 if there are more.
fn waiting<M: Machine>(node: &Node<M>) -> u16
    ensures { result ≡ min (length node.now.leader.waiting) 65535 }
{
    let count = node.waiting();
    if count < 65535 { count as u16 } else { 65535 }
}

// Returns how many names the lock table has.
fn names<M: TableMachine>(node: &Node<M>) -> u16
    ensures { result ≡ map.len (table_in node.now.learner.whole.text).names }
{
    node.machine().table().len() as u16
}

impl ProbedState {
    /// Reads these values from a replica.
    pub fn of<M: TableMachine, D: LogDisk + Drop>(replica: &Replica<M, D>) -> ProbedState
        ensures { IsShown replica.now result }
    {
        let node = replica.node();
        ProbedState {
            leadership: Leadership {
                leads: node.leads(),
                leader: node.presumed_leader(),
                silence: u64::from(node.ticks()),
                promised: node.promised(),
            },
            progress: Progress {
                executed: node.executed(),
                snapshot: node.snapshot_position(),
                pending: pending(node.roster()),
            },
            waiting: waiting(node),
            members: next_members(node.roster()).copy(),
            newest: node.roster().newest().copy(),
            format: replica.format(),
            names: names(node),
        }
    }
}
