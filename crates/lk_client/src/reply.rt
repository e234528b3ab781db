//! Reads a node's reply to a client.

ghost use Rattle.std.specs.Prelude.{◌≡◌, ℕ, IfSome, IsNone};
ghost use Rattle.lk_messages.specs.Grammar.{Spells};
ghost use Rattle.lk_wire.specs.Shown.{shown_node};
ghost use Rattle.lk_client.specs.Replies.{reply_message, reply_of};
ghost use Rattle.lk_client.specs.declared.reply.Reply.{Reply as ReplyValue};

use lk_types::{Answer, Member, Request, RequestNumber};
use lk_wire::{ContentRef, NodeMessageRef, view};

/// A reply to a request.
#[derive(Clone, Copy)]
pub enum Reply {
    Answer(Answer),
    /// The request will never be executed: a later one of its client was. Carries that greater number.
    Passed(RequestNumber),
    /// The node does not lead; this member may.
    Elsewhere(Member),
}

// Returns the reply in a node's message, if it names the client and number of the request.
fn reply_in(message: &NodeMessageRef<'_>, request: &Request) -> Option<Reply>
    ensures some { IfSome result (λ r. shown_node message.now ≡ reply_message request.now.client request.now.number r) }
    ensures none { IsNone result → (r : ReplyValue)
        → shown_node message.now ≡ reply_message request.now.client request.now.number r → ⊥ }
{
    let key = (request.client, request.number);
    match message {
        NodeMessageRef::Answer(a) if (a.client, a.number) == key => Some(Reply::Answer(a.answer)),
        NodeMessageRef::Passed(p) if (p.client(), p.number()) == key => Some(Reply::Passed(
            p.last(),
        )),
        NodeMessageRef::Elsewhere(e) if (e.client, e.number) == key => Some(Reply::Elsewhere(
            e.member,
        )),
        _ => None,
    }
}

/// Returns the reply in a datagram of a node of the cluster, if it is to this request; `None` for any other bytes.
pub fn read_reply(cluster: u64, request: &Request, bytes: &[u8]) -> Option<Reply>
    ensures some { IfSome result
        (λ r. (n : ℕ) × Spells (reply_of cluster n request.now.client request.now.number r) bytes.now) }
    ensures none { IsNone result → (n : ℕ) (r : ReplyValue)
        → Spells (reply_of cluster n request.now.client request.now.number r) bytes.now → ⊥ }
{
    let Ok(message) = view(bytes) else {
        return None;
    };
    match &message.content {
        ContentRef::Node(_, said) if message.cluster == cluster => reply_in(said, request),
        _ => None,
    }
}
