// Searches in, and copies of, votes that rise strictly by position.
ghost use Rattle.std.specs.Prelude.{◌≡◌, ◌↔◌, nat_lt, Contains, IsTrue, OnErr, IfOk, MatchOption};
ghost use Rattle.std.specs.List.{list_all};
ghost use Rattle.lk_types.specs.declared.vote.Vote.{Vote as VoteValue};
ghost use Rattle.lk_acceptor.specs.Replies.{Agrees};
ghost use Rattle.lk_store_format.specs.VoteLists.{AreRising};
ghost use Rattle.lk_acceptor.specs.VoteLists.{IsVoteAt, votes_from, votes_above, HasVoteFrom};

use lk_store_format::count_below;
use lk_types::{Executed, NoMemory, Position, Vote};
use std::alloc::Global;

// Returns the vote at a position, by binary search.
fn vote_at(votes: &[Vote], position: Position) -> Option<&Vote>
    requires { AreRising votes.now }
    ensures { MatchOption result ((v : VoteValue) → IsVoteAt position votes.now v → ⊥)
        (λ v. IsVoteAt position votes.now v.now × ((w : VoteValue) → IsVoteAt position votes.now w → w ≡ v.now)) }
{
    let vote = votes.get(count_below(position, votes))?;
    (vote.position == position).then_some(vote)
}

/// Copies the votes at a position and above it. Takes memory only if there are any.
pub fn votes_from(alloc: Global, votes: &[Vote], first: Position) -> Result<Vec<Vote>, NoMemory>
    requires { AreRising votes.now }
    ensures ok { IfOk result (λ vs. vs.items ≡ votes_from first votes.now) }
    ensures memory { OnErr result (HasVoteFrom first votes.now) }
{
    let rest = &votes[count_below(first, votes)..];
    let mut from = Vec::new(alloc);
    for vote in rest {
        from.push(vote.copy())?;
    }
    Ok(from)
}

/// Copies the votes above a position. They may be in any order.
pub fn votes_above(alloc: Global, votes: &[Vote], executed: Executed) -> Result<Vec<Vote>, NoMemory>
    ensures { IfOk result (λ vs. vs.items ≡ votes_above executed votes.now) }
{
    let mut above = Vec::new(alloc);
    for vote in votes {
        if vote.position.get() > executed.get() {
            above.push(vote.copy())?;
        }
    }
    Ok(above)
}

/// Whether each vote is at a position below `end`. Only the last one is looked at, as positions rise.
pub fn lie_below(votes: &[Vote], end: u64) -> bool
    requires { AreRising votes.now }
    ensures { result ≡ list_all (λ v. nat_lt v.position end) votes.now }
{
    match votes.last() {
        Some(vote) => vote.position.get() < end,
        None => true,
    }
}

// Whether the two votes are the same.
fn is_same(kept: &Vote, vote: &Vote) -> bool
    ensures { IsTrue result ↔ (kept.now ≡ vote.now) }
{
    *kept == *vote
}

/// Whether the vote is one of them.
pub fn holds(votes: &[Vote], vote: &Vote) -> bool
    requires { AreRising votes.now }
    ensures { IsTrue result ↔ Contains votes.now vote.now }
{
    match vote_at(votes, vote.position) {
        Some(kept) => is_same(kept, vote),
        None => false,
    }
}

// Whether the kept vote, if it is of the same position and ballot, has the same command.
fn agrees(kept: &Vote, vote: &Vote) -> bool
    ensures { IsTrue result ↔ Agrees kept.now vote.now }
{
    kept.position != vote.position || kept.ballot != vote.ballot || kept.command == vote.command
}

/// Whether no kept vote is of this vote's position and ballot with another command: a ballot has one command for each
/// position.
pub fn agree(votes: &[Vote], vote: &Vote) -> bool
    requires { AreRising votes.now }
    ensures { IsTrue result ↔ ((v : VoteValue) → Contains votes.now v → Agrees v vote.now) }
{
    match vote_at(votes, vote.position) {
        Some(kept) => agrees(kept, vote),
        None => true,
    }
}

/// Removes the votes up to a position. Takes no memory.
pub fn forget_to(votes: &mut Vec<Vote>, position: Executed)
    ensures { votes.new.items ≡ votes_above position votes.old.items }
{
    votes.retain(|vote| vote.position.get() > position.get());
}
