ghost use Rattle.std.specs.Prelude.{◌≡◌};

use lk_wire::Nack;

/// What a node tells at a nudge: how many positions it has executed, by a rejection of the least ballot.
#[derive(Clone, Copy)]
pub struct Progress {
    /// The number of the cluster.
    pub cluster: u64,
    pub nack: Nack,
}

impl Progress {
    /// Returns how many positions the node has executed.
    pub fn executed(&self) -> u64
        ensures { result ≡ self.now.nack.executed }
    {
        self.nack.executed.get()
    }
}
