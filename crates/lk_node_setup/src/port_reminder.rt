//! Warns, each minute, that a node has heard of no leader and is not heard at the port that the genesis names.

ghost use Rattle.std.specs.Io.KnownBytes.{Appends};
ghost use Rattle.std.specs.Prelude.{◌≡◌, ◌↔◌, None, Some, IsTrue, IfSome, IsNone, OnOk, OnErr, ℕ};
ghost use Rattle.lk_node_setup.specs.Reminders.{IsDue, IsNoneDue, KnowsNobody, Reminds};
ghost use Rattle.lk_node_setup.specs.Reminders.{having_warned, reminder_line};

use crate::resources::NodePlan;
use lk_probe::{Leadership, Status};
use lk_types::Port;
use std::io;
use std::io::Write;

// The ticks between two warnings: a minute, since a node to which nobody writes ticks each 100 ms.
const MINUTE: u64 = 600;

/// When the next warning is due, in ticks since the start, and the port that the genesis names, if the node is not
/// heard there.
#[derive(Clone, Copy)]
pub struct PortReminder {
    pub unreached: Option<Port>,
    pub due: u64,
}

// Writes the line of a warning: the node, the port at which it listens, and the one that the genesis names.
#[tactic(auto, unfolding(crate::specs::Reminders::reminder_line))]
fn write_line<E: Write>(node: u32, own_port: u16, named: u16, err: &mut E) -> io::Result<()>
    ensures { OnOk result (Appends (E.contents err.old) (E.contents err.new) (reminder_line node own_port named)) }
{
    writeln!(
        err,
        "warning: node {node} has heard of no leader, and listens at port {own_port}; the genesis names port {named}"
    )
}

// Warns that the node has heard of no leader since its start.
fn write_reminder<E: Write>(plan: &NodePlan<'_>, named: Port, err: &mut E) -> io::Result<()>
    ensures { OnOk result (Appends (E.contents err.old) (E.contents err.new)
        (reminder_line plan.now.header.node plan.now.port named)) }
{
    let (node, own_port) = (plan.header.node().get(), plan.port.get());
    write_line(node, own_port, named.get(), err)
}

// Whether a node neither leads nor has heard of a leader since its start.
fn knows_nobody(leadership: &Leadership) -> bool
    ensures { IsTrue result ↔ KnowsNobody leadership.now }
{
    !leadership.leads && leadership.leader.is_none()
}

impl PortReminder {
    /// The reminder of a node that is not heard at that port. The first warning is due after a minute.
    pub fn of(unreached: Option<Port>) -> PortReminder
        ensures { result ≡ record { unreached = unreached; due = 600 } }
    {
        PortReminder {
            unreached,
            due: MINUTE,
        }
    }

    // Returns the port if a warning of it is due; the next one is then due a minute later.
    fn pop_due(&mut self, status: &Status) -> Option<Port>
        ensures some { IfSome result
            (λ port. IsDue self.old status.now port × (self.new ≡ having_warned self.old status.now)) }
        ensures none { IsNone result → IsNoneDue self.old status.now × (self.new ≡ self.old) }
    {
        let Some(named) = self.unreached else {
            return None;
        };
        if status.traffic.ticks < self.due || !knows_nobody(&status.leadership) {
            return None;
        }
        self.due = status.traffic.ticks.saturating_add(MINUTE);
        Some(named)
    }

    /// Warns after a turn if a warning is due, by the node's status. The error is that of writing it.
    pub fn remind<E: Write>(
        &mut self,
        status: &Status,
        plan: &NodePlan<'_>,
        err: &mut E,
    ) -> io::Result<()>
        // Its line is written exactly if a warning is due, and the next one is due a minute later.
        ensures reminds { OnOk result
            (Reminds plan.now.header.node plan.now.port status.now self.old self.new
            (E.contents err.old) (E.contents err.new)) }
        // A warning that fails was due, and the next one is due a minute later all the same.
        ensures fails { OnErr result
            ((port : ℕ) × IsDue self.old status.now port × (self.new ≡ having_warned self.old status.now)) }
        // A node that is heard at the port that the genesis names is never warned of.
        ensures heard { self.old.unreached ≡ None → (self.new ≡ self.old) × (err.new ≡ err.old) }
    {
        match self.pop_due(status) {
            Some(named) => write_reminder(plan, named, err),
            None => Ok(()),
        }
    }
}
