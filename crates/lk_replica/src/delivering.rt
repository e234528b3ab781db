// Sends the envelopes of a step or a group. It has no access to a device.
ghost use Rattle.std.specs.Prelude.{◌≡◌, true, false, [], ◌∷◌, ◌++◌};
ghost use Rattle.lk_disk.specs.Disk.{one_more};
ghost use Rattle.lk_replica.specs.Posts.{IsDelivered};

use lk_node_interface::{Envelope, Post, SendFault};

// Gives an envelope to the post. Returns whether it was sent; if not, it is lost.
fn is_sent<P: Post>(envelope: &Envelope, post: &mut P) -> bool
    ensures carries { P.Carries post.old envelope.now result post.new }
    ensures sent { P.is_observable → result ≡ true → P.sent post.new ≡ P.sent post.old ++ envelope.now ∷ [] }
    ensures lost { P.is_observable → result ≡ false → P.sent post.new ≡ P.sent post.old }
    ensures same { result ≡ true → P.failures post.new ≡ P.failures post.old }
    ensures rises { result ≡ false → P.failures post.new ≡ one_more (P.failures post.old) }
{
    match post.send(envelope.to, &envelope.bytes) {
        Ok(()) => true,
        Err(SendFault) => false,
    }
}

/// Sends the envelopes in order, and tries each of them: a failed send loses that envelope alone. Returns whether all
/// were sent.
pub fn deliver<P: Post>(envelopes: &[Envelope], post: &mut P) -> bool
    ensures { IsDelivered P.Carries P.sent P.failures P.is_observable envelopes.now result post.old post.new }
{
    let mut all = true;
    for envelope in envelopes {
        if !is_sent(envelope, post) {
            all = false;
        }
    }
    all
}
