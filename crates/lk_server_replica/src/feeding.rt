//! Whether the inputs of a group have fed a replica: brought it what others are ahead of it.

ghost use Rattle.std.specs.Prelude.{◌≡◌, ◌||◌, false};
ghost use Rattle.lk_server_replica.specs.Feedings.{is_fed};

use crate::replica_status::ReplicaStatus;
use std::marker::Model;

/// Whether some step has fed a replica since its group began.
#[derive(Clone, Copy)]
pub struct Feeding {
    is_fed: bool,
}

impl Model for Feeding {
    ghost use Rattle.std.specs.Prelude.{Bool};

    ghost Value = { Bool };

    ghost view = { λ f. f.is_fed };

    ghost inverse = { λ b. record { is_fed = b } };
}

// Whether a step between these states has fed a replica: it has gathered more of a snapshot, has installed one, or has
// executed two positions or more.
fn is_fed(before: &ReplicaStatus, after: &ReplicaStatus) -> bool
    ensures { result ≡ is_fed before.now after.now }
{
    let executed = before.executed.get();
    let has_installed = after.snapshot.get() > executed;
    after.gathered > before.gathered || has_installed || after.executed.get() > executed + 1
}

impl Feeding {
    /// Nothing has fed it.
    pub fn none() -> Feeding
        ensures { result ≡ false }
    {
        Feeding { is_fed: false }
    }

    /// Returns whether something has fed it.
    pub fn is_fed(self) -> bool
        ensures { result ≡ self }
    {
        self.is_fed
    }

    /// Notes whether the step between these states has fed it.
    pub fn note_step(&mut self, before: &ReplicaStatus, after: &ReplicaStatus)
        ensures { self.new ≡ (self.old || is_fed before.now after.now) }
    {
        self.is_fed = is_fed(before, after) || self.is_fed;
    }
}
