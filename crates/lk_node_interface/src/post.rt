ghost use Rattle.std.specs.Prelude.{◌≡◌, ◌∷◌, ◌++◌, ℕ, Bool, is_ok, List, [], OnOk, OnErr};
ghost use Rattle.lk_disk.specs.Disk.{HasCause};
ghost use Rattle.lk_node_interface.specs.Envelopes.{EnvelopeValue};

use crate::to::To;
use thiserror::Error;

/// A datagram was not sent: error 15 of the replica.
#[derive(Clone, Copy, Debug, Error)]
#[error("the datagram was not sent")]
pub struct SendFault;

/// Something that sends datagrams.
///
/// The clauses about `sent` hold only for a post that `is_observable`; `Carries`, the effect of an envelope on the
/// post, holds for any. `failures` increases by one at each `Err`, up to 2^64 - 1, and is unchanged at `Ok`.
pub trait Post {
    /// What was sent, in order.
    ghost sent: { Self → List EnvelopeValue };

    /// It reveals what was sent. This is a property of its type, so no call can change it.
    ghost is_observable: { Type 0 };

    /// How many calls have failed.
    ghost failures: { Self → ℕ };

    /// The effect of one envelope on it: the post before, the envelope, whether that was sent, and the post after.
    ghost Carries: { Self → EnvelopeValue → Bool → Self → Type 0 };

    /// Sends bytes to a node or a client. A failed call sends nothing.
    fn send(&mut self, to: To, bytes: &[u8]) -> Result<(), SendFault>
        ensures ok { is_observable → OnOk result
            (sent self.new ≡ sent self.old ++ record { to = to; bytes = bytes.now } ∷ []) }
        ensures err { is_observable → OnErr result (sent self.new ≡ sent self.old) }
        ensures carries { Carries self.old (record { to = to; bytes = bytes.now }) (is_ok result) self.new }
        ensures cause { HasCause (failures self.old) (failures self.new) result };
}
