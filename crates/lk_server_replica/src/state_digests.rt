//! The digest of a node's state, by which nodes that hold other states at one position are found.

ghost use Rattle.std.specs.Prelude.{◌≡◌, IfSome};
ghost use Rattle.lk_server_replica.specs.StateDigests.{KeepsNodeDigest, digest_at, digest_bytes, is_digest_due};

use lk_node::Node;
use lk_probe::{STATE_DIGEST, StateDigest};
use lk_state::Machine;
use lk_types::Executed;
use sha2::{Digest, Sha256};

// A digest is taken at each multiple of so many positions.
const INTERVAL: u64 = 64;

// Whether a digest is due: the position is a multiple of 64, and the kept digest is of another one.
fn is_due(executed: Executed, kept: Executed) -> bool
    ensures { result ≡ is_digest_due executed kept }
{
    executed.get() % INTERVAL == 0 && executed != kept
}

// Returns the first 16 bytes of the SHA-256 digest of a packed state.
#[tactic(auto, unfolding(crate::specs::StateDigests::digest_bytes))]
fn digest_bytes(text: &[u8]) -> [u8; STATE_DIGEST]
    ensures { result ≡ digest_bytes text.now }
{
    let digest = Sha256::digest(text);
    match digest.first_chunk::<STATE_DIGEST>() {
        Some(first) => *first,
        None => [0; STATE_DIGEST],
    }
}

// Returns the digest of a node's state at the position that it has executed, or `None` if it is out of memory.
fn digest_of<M: Machine>(node: &Node<M>) -> Option<StateDigest>
    ensures { IfSome result (λ d. d ≡ digest_at node.now) }
{
    let Ok(standing) = node.standing() else {
        return None;
    };
    Some(StateDigest {
        position: standing.position,
        digest: digest_bytes(&standing.snapshot),
    })
}

/// Returns the digest to keep after a step of a node: that of its state if one is due, else the earlier one, also if
/// it is out of memory. It packs the state, which takes memory for a while.
pub fn next_digest<M: Machine>(node: &Node<M>, kept: StateDigest) -> StateDigest
    ensures { KeepsNodeDigest node.now kept result }
{
    if !is_due(node.executed(), kept.position) {
        return kept;
    }
    match digest_of(node) {
        Some(taken) => taken,
        None => kept,
    }
}
