// Votes in order of their positions, at each position the one of greatest ballot: an acceptor keeps them like this,
// and so does what a store's entries stand for.
ghost use Rattle.std.specs.Prelude.{◌≡◌, ◌≤◌, length, vec_len, vec_capacity, OnOk, OnErr};
ghost use Rattle.lk_store_format.specs.VoteLists.{AreRising, count_below, votes_with};

use lk_types::{NoMemory, Position, Vote};

/// Returns how many votes have a smaller position: the index at which a vote at `position` is or belongs.
pub fn count_below(position: Position, votes: &[Vote]) -> usize
    requires { AreRising votes.now }
    ensures value { result ≡ count_below position votes.now }
    ensures within { result ≤ length votes.now }
{
    votes.partition_point(|vote| vote.position < position)
}

/// Inserts a vote in order of position. Of two votes at a position it keeps the one of greater ballot, the earlier if
/// they are equal. It allocates only if there is no spare capacity; out of memory it changes nothing.
#[tactic(auto, using(crate::proofs::VotesInOrder::at_end, crate::proofs::VotesInOrder::at_other, crate::proofs::VotesInOrder::at_below, crate::proofs::VotesInOrder::at_above))]
pub fn keep_vote(votes: &mut Vec<Vote>, vote: Vote) -> Result<(), NoMemory>
    requires { AreRising votes.old.items }
    ensures ok { OnOk result (votes.new.items ≡ votes_with vote votes.old.items) }
    ensures err { OnErr result (votes.new.items ≡ votes.old.items) }
    ensures memory { OnErr result (vec_capacity votes.old ≤ vec_len votes.old) }
{
    let i = count_below(vote.position, votes);
    if i == votes.len() {
        votes.push(vote)?;
        return Ok(());
    }
    if votes[i].position.get() != vote.position.get() {
        votes.insert(i, vote)?;
        return Ok(());
    }
    if votes[i].ballot.get().is_below(vote.ballot.get()) {
        votes[i] = vote;
    }
    Ok(())
}
