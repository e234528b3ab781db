//! The periods without a leader that a replica does not count, since their ticks were withheld from it.

ghost use Rattle.std.specs.Prelude.{◌≡◌};
ghost use Rattle.lk_server_replica.specs.Silences.{is_from, quiet_after, quiet_withheld};

use crate::replica_status::ReplicaStatus;
use lk_types::NodeNo;
use std::marker::Model;

/// The periods whose ticks were withheld from a replica since it began its own count of silent ticks.
#[derive(Clone, Copy)]
pub struct Silence {
    withheld: u64,
}

impl Model for Silence {
    ghost use Rattle.std.specs.Prelude.{ℕ};

    ghost Value = { ℕ };

    ghost view = { λ s. s.withheld };

    ghost inverse = { λ n. record { withheld = n } };
}

// Whether that node sent it, and is this one.
fn is_from(sender: Option<NodeNo>, node: Option<NodeNo>) -> bool
    ensures { result ≡ is_from sender node }
{
    match (sender, node) {
        (Some(sender), Some(node)) => sender == node,
        _ => false,
    }
}

impl Silence {
    /// No tick was withheld.
    pub fn none() -> Silence
        ensures { result ≡ 0 }
    {
        Silence { withheld: 0 }
    }

    /// Returns how many periods it counts.
    pub fn periods(self) -> u64
        ensures { result ≡ self }
    {
        self.withheld
    }

    /// Counts a period whose tick was withheld. A replica with a term counts no silence.
    pub fn count_withheld(&mut self, status: &ReplicaStatus)
        ensures { self.new ≡ quiet_withheld status.now self.old }
    {
        if status.term.is_none() {
            self.withheld = self.withheld.saturating_add(1);
        }
    }

    /// Begins anew if the replica did at an input, which that node sent if one did: if it has a term, or its own count
    /// fell, or is 0 and the node sent it that the replica follows.
    pub fn note_input(
        &mut self,
        sender: Option<NodeNo>,
        before: &ReplicaStatus,
        after: &ReplicaStatus,
    )
        ensures { self.new ≡ quiet_after sender before.now after.now self.old }
    {
        let has_fallen = after.silence < before.silence;
        let is_heard = after.silence == 0 && is_from(sender, after.known);
        if after.term.is_some() || has_fallen || is_heard {
            self.withheld = 0;
        }
    }
}
