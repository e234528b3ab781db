// The digest of a node's state at a position.
ghost use Rattle.std.specs.Prelude.{◌≡◌};
ghost use Rattle.lk_probe.specs.Grammar.{IsStateDigest, no_digest};
ghost use Rattle.lk_probe.specs.StateDigests.{are_comparable, do_differ};

use crate::status::STATE_DIGEST;
use lk_types::Executed;

/// The digest of a node's state, and the position at which the node had that state.
#[derive(Clone, Copy)]
pub struct StateDigest {
    /// How many positions the node had executed then; 0 if it has no digest yet.
    pub position: Executed,
    /// The first 16 bytes of the SHA-256 digest of the packed state; zeros if it has none yet.
    pub digest: [u8; STATE_DIGEST],
}

impl StateDigest {
    /// Returns what a node reports that has no digest yet: position 0, and zeros.
    pub fn none() -> StateDigest
        ensures { result ≡ no_digest }
    {
        StateDigest {
            position: Executed::default(),
            digest: [0; STATE_DIGEST],
        }
    }

    /// Whether both were taken, and of one position.
    pub fn is_comparable_to(&self, other: &StateDigest) -> bool
        ensures { result ≡ are_comparable self.now other.now }
    {
        self.position.get() != 0 && self.position == other.position
    }

    /// Whether both were taken of one position, and differ: then their nodes have executed other commands.
    pub fn differs_from(&self, other: &StateDigest) -> bool
        ensures { result ≡ do_differ self.now other.now }
    {
        self.is_comparable_to(other) && self.digest != other.digest
    }

    /// Shows the prover that each part is in its range. Does nothing at run time.
    pub fn facts(&self)
        ensures { IsStateDigest self.now }
    {
        let _ = self.position.get();
        let _digest = self.digest;
    }
}
