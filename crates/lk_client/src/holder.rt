// What the reply to a client that asks for a lock says of who holds it.

ghost use Rattle.std.specs.Prelude.{◌≡◌, ◌↔◌, ℕ, IfSome, IsNone, IsSomeAnd, IsTrue};
ghost use Rattle.lk_client.specs.Waits.{IsBusy, IsBusyAnswer, IsBusyAnswerAt, IsBusyAt, IsGrant, IsGrantAnswer};

use crate::reply::Reply;
use lk_types::{Answer, ClientNo, Fence};

// Returns the fence of a Busy of another client.
fn fence_in(client: ClientNo, answer: &Answer) -> Option<Fence>
    ensures some { IfSome result (λ fence. IsBusyAnswerAt client fence answer.now) }
    ensures none { IsNone result → IsBusyAnswer client answer.now → ⊥ }
{
    match answer {
        Answer::Busy(holder, fence) if *holder != client => Some(*fence),
        _ => None,
    }
}

/// Returns the fence of a Busy of another client, after which it makes sense to wait.
pub(crate) fn busy_fence(client: ClientNo, reply: &Option<Reply>) -> Option<Fence>
    ensures some { IfSome result (λ fence. IsSomeAnd reply.now (IsBusyAt client fence)) }
    ensures none { IsNone result → IsSomeAnd reply.now (IsBusy client) → ⊥ }
{
    match reply {
        Some(Reply::Answer(answer)) => fence_in(client, answer),
        _ => None,
    }
}

// Whether an answer grants the lock.
fn is_grant_answer(answer: &Answer) -> bool
    ensures { IsTrue result ↔ IsGrantAnswer answer.now }
{
    matches!(answer, Answer::Granted(_) | Answer::Shared(_))
}

/// Whether a reply grants the lock.
pub(crate) fn is_grant(reply: &Option<Reply>) -> bool
    ensures { IsTrue result ↔ IsSomeAnd reply.now IsGrant }
{
    match reply {
        Some(Reply::Answer(answer)) => is_grant_answer(answer),
        _ => false,
    }
}
