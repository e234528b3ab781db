//! The rules of the lock table: for each body its answer and the new lock entry of its name, given the lock entry
//! before and how many names there are.
ghost use Rattle.std.specs.Prelude.{◌≡◌, Some, [], ◌∷◌};
ghost use Rattle.lk_types.specs.declared.answer.Answer.TheVariants.{Shared};
ghost use Rattle.lk_locks.specs.declared.lock_entry.Holders.TheVariants.{SharedHold};
ghost use Rattle.lk_locks.specs.Plain.{unchanged, fence_after, first_fence, given, acquired, shared_with, shared};
ghost use Rattle.lk_locks.specs.Plain.{released};
ghost use Rattle.lk_locks.specs.Plain.{is_held_at, broken, asked, checked, transition};

use crate::body::Body;
use crate::lock_entry::{Holders, LockEntry};
use crate::sharers::Sharers;
use crate::transition::Transition;
use lk_types::limits::MAX_NAMES;
use lk_types::{Answer, ClientNo, Fence, LastFence};

// Returns an answer that leaves the lock entry as it is.
fn unchanged(answer: Answer) -> Transition
    ensures { result ≡ unchanged answer }
{
    let change = None;
    Transition { answer, change }
}

// Returns an answer with the new lock entry of the name.
fn changed(answer: Answer, fence: Fence, holders: Holders) -> Transition
    ensures { result ≡ record { answer = answer; change = Some (record { fence = fence; holders = holders }) } }
{
    let change = Some(LockEntry { fence, holders });
    Transition { answer, change }
}

// Returns the fence at which a name that nobody holds is granted next, or `Spent` above 2^48.
fn fence_after(fence: Fence) -> Result<Fence, Answer>
    ensures { result ≡ fence_after fence }
{
    Fence::of(fence.get() + 1).ok_or(Answer::Spent)
}

// Returns the fence of a new name, which is 1, or `NoRoom` if there are 512 names already.
fn first_fence(names: usize) -> Result<Fence, Answer>
    ensures { result ≡ first_fence names }
{
    if names >= MAX_NAMES {
        return Err(Answer::NoRoom);
    }
    Ok(Fence::default())
}

// The result when a client acquires a name. Its present holder gets `Busy` too.
fn acquire(client: ClientNo, lock_entry: Option<LockEntry>, names: usize) -> Transition
    ensures { result ≡ acquired client lock_entry names }
{
    let given = match lock_entry {
        None => first_fence(names),
        Some(LockEntry { fence, holders }) => match holders {
            Holders::Nobody => fence_after(fence),
            Holders::ExclusiveHold(holder) => Err(Answer::Busy(holder, fence)),
            Holders::SharedHold(clients) => Err(Answer::Busy(clients.least(), fence)),
        },
    };
    match given {
        Ok(fence) => changed(
            Answer::Granted(fence),
            fence,
            Holders::ExclusiveHold(client),
        ),
        Err(refusal) => unchanged(refusal),
    }
}

// The result when a client shares a name that is shared: a sharer gets its fence again, a new one joins at the same
// fence, or gets `Busy` if there are eight.
fn add_sharer(client: ClientNo, fence: Fence, clients: Sharers) -> Transition
    ensures { result ≡ shared_with client fence clients }
{
    if clients.has(client) {
        return unchanged(Answer::Shared(fence));
    }
    if clients.is_full() {
        return unchanged(Answer::Busy(clients.least(), fence));
    }
    let holders = Holders::SharedHold(clients.with(client));
    changed(Answer::Shared(fence), fence, holders)
}

// The result when a client shares a name that nobody holds, given the fence for it or why there is none.
fn first_share(client: ClientNo, fence: Result<Fence, Answer>) -> Transition
    ensures { result ≡ given Shared (SharedHold (client ∷ [])) fence }
{
    match fence {
        Ok(fence) => changed(
            Answer::Shared(fence),
            fence,
            Holders::SharedHold(Sharers::one(client)),
        ),
        Err(refusal) => unchanged(refusal),
    }
}

// The result when a client shares a name.
fn share(client: ClientNo, lock_entry: Option<LockEntry>, names: usize) -> Transition
    ensures { result ≡ shared client lock_entry names }
{
    match lock_entry {
        None => first_share(client, first_fence(names)),
        Some(LockEntry { fence, holders }) => match holders {
            Holders::Nobody => first_share(client, fence_after(fence)),
            Holders::ExclusiveHold(holder) => unchanged(Answer::Busy(holder, fence)),
            Holders::SharedHold(clients) => add_sharer(client, fence, clients),
        },
    }
}

// The result when a client releases a name at a fence. Other sharers keep the name.
fn release(client: ClientNo, fence: Fence, lock_entry: Option<LockEntry>) -> Transition
    ensures { result ≡ released client fence lock_entry }
{
    let Some(lock_entry) = lock_entry else {
        return unchanged(Answer::NotHeld);
    };
    if lock_entry.fence != fence {
        return unchanged(Answer::NotHeld);
    }
    match lock_entry.holders.left_by(client) {
        Some(holders) => changed(Answer::Released, fence, holders),
        None => unchanged(Answer::NotHeld),
    }
}

// Returns whether somebody holds the name of the lock entry at that fence.
fn is_held_at(fence: Fence, lock_entry: &Option<LockEntry>) -> bool
    ensures { result ≡ is_held_at fence lock_entry.now }
{
    match lock_entry {
        Some(lock_entry) => lock_entry.holders.is_held() && lock_entry.fence == fence,
        None => false,
    }
}

// The result when anybody breaks a name at a fence: it is freed of all who hold it at that fence.
fn break_up(fence: Fence, lock_entry: Option<LockEntry>) -> Transition
    ensures { result ≡ broken fence lock_entry }
{
    if !is_held_at(fence, &lock_entry) {
        return unchanged(Answer::Stale);
    }
    changed(Answer::Broken, fence, Holders::Nobody)
}

// Returns the answer to Ask: who holds the name, or the last fence of a free one, 0 if it was never granted.
fn ask(lock_entry: Option<LockEntry>) -> Answer
    ensures { result ≡ asked lock_entry }
{
    let Some(LockEntry { fence, holders }) = lock_entry else {
        return Answer::Free(LastFence::default());
    };
    match holders {
        Holders::Nobody => Answer::Free(LastFence::of(fence.get()).unwrap()),
        Holders::ExclusiveHold(holder) => Answer::Held(holder, fence),
        Holders::SharedHold(clients) => Answer::HeldShared(clients.count(), fence),
    }
}

// Returns the answer to Check: whether anybody holds the name at that fence.
fn check(fence: Fence, lock_entry: Option<LockEntry>) -> Answer
    ensures { result ≡ checked fence lock_entry }
{
    if is_held_at(fence, &lock_entry) {
        Answer::Valid
    } else {
        Answer::Stale
    }
}

/// Returns the result of a body, given the lock entry of its name, `None` if the name is new, and how many names there
/// are.
pub fn transition(
    client: ClientNo,
    body: &Body,
    lock_entry: Option<LockEntry>,
    names: usize,
) -> Transition
    ensures { result ≡ transition client body.now lock_entry names }
{
    match body {
        Body::Acquire(_) => acquire(client, lock_entry, names),
        Body::Release(_, fence) => release(client, *fence, lock_entry),
        Body::Ask(_) => unchanged(ask(lock_entry)),
        Body::Check(_, fence) => unchanged(check(*fence, lock_entry)),
        Body::Share(_) => share(client, lock_entry, names),
        Body::Break(_, fence) => break_up(*fence, lock_entry),
    }
}
