// Replaying the entries of a file into their standing: the recovered state.
ghost use Rattle.std.specs.Prelude.{◌≡◌, ◌≤◌, map, length, OnOk, OnErr, IfOk};
ghost use Rattle.lk_store_format.specs.Standings.{greater, greatest_of, ballot_of, pairs_below, with_pair, with_plain};
ghost use Rattle.lk_store_format.specs.Standings.{of_base, ArePairsRising, Rises, StandsFor};
ghost use Rattle.lk_log.specs.Stores.{HasStanding};
ghost use Rattle.lk_types.specs.declared.entry.Entry.TheVariants.{Vote as vote_entry, Decided as decided_entry};

use lk_store_format::{Base, Standing, Stored, keep_vote};
use lk_types::{Ballot, Command, Entry, Executed, NoMemory, Position, Vote};
use std::alloc::{AllocFailed, Global};

// Returns the greater of two ballots.
fn greater(a: Ballot, b: Ballot) -> Ballot
    ensures { result ≡ greater a b }
{
    if a.is_below(b) { b } else { a }
}

// Returns the greatest of a ballot and those of the votes.
fn greatest_of(ballot: Ballot, votes: &[Vote]) -> Ballot
    ensures { result ≡ greatest_of ballot (map ballot_of votes.now) }
{
    let mut greatest = ballot;
    for vote in votes {
        greatest = greater(greatest, vote.ballot.get());
    }
    greatest
}

// Returns how many pairs have a smaller position: the index at which a pair of this position belongs.
fn pairs_below(position: Position, pairs: &[(Position, Command)]) -> usize
    requires { ArePairsRising pairs.now }
    ensures value { result ≡ pairs_below position pairs.now }
    ensures within { result ≤ length pairs.now }
{
    pairs.partition_point(|pair| pair.0 < position)
}

// Inserts a decided command in the order of positions. If the position has one already, that one stays.
#[tactic(auto, using(lk_store_format::proofs::InOrder::pair_at_end, lk_store_format::proofs::InOrder::pair_at_other, lk_store_format::proofs::InOrder::pair_at_same))]
fn keep_pair(
    pairs: &mut Vec<(Position, Command)>,
    pair: (Position, Command),
) -> Result<(), AllocFailed<(Position, Command)>>
    requires { ArePairsRising pairs.old.items }
    ensures ok { OnOk result (pairs.new.items ≡ with_pair pair pairs.old.items) }
    ensures err { OnErr result (pairs.new.items ≡ pairs.old.items) }
{
    let i = pairs_below(pair.0, pairs);
    if i == pairs.len() {
        pairs.push(pair)?;
        return Ok(());
    }
    if pairs[i].0.get() != pair.0.get() {
        pairs.insert(i, pair)?;
    }
    Ok(())
}

// Returns the standing of no entries: nothing promised, executed, voted or decided.
fn nothing(alloc: Global) -> Standing
    ensures { Rises result }
{
    Standing {
        promised: Ballot::ZERO,
        position: Executed::default(),
        snapshot: Vec::new(alloc),
        votes: Vec::new(alloc),
        pairs: Vec::new(alloc),
    }
}

// Returns the standing of a Base alone. A vote also promises its ballot, so the promise is no lower than any vote.
fn of_base(base: Base) -> Standing
    ensures { result ≡ of_base base }
{
    let Base {
        generation: _,
        format: _,
        header: _,
        standing,
    } = base;
    let mut standing = standing;
    standing.promised = greatest_of(standing.promised, &standing.votes);
    standing
}

// Applies one more entry to the standing of those before it. Of two votes at a position it keeps the one of greater
// ballot, the earlier if they are equal, and it keeps the first decided command of a position.
fn add(standing: &mut Standing, entry: Entry) -> Result<(), NoMemory>
    requires { Rises standing.old }
    ensures ok { OnOk result (standing.new ≡ with_plain entry standing.old) }
    ensures err { OnErr result (standing.new ≡ standing.old) }
{
    match entry {
        Entry::Promise(ballot) => {
            standing.promised = greater(standing.promised, ballot.get());
            Ok(())
        }
        Entry::Vote(vote) => add_vote(standing, vote),
        Entry::Decided(position, command) => add_pair(standing, (position, command)),
    }
}

// Adds a vote, if its position is above the snapshot. Its ballot counts as promised in any case.
fn add_vote(standing: &mut Standing, vote: Vote) -> Result<(), NoMemory>
    requires { Rises standing.old }
    ensures ok { OnOk result (standing.new ≡ with_plain (vote_entry vote) standing.old) }
    ensures err { OnErr result (standing.new ≡ standing.old) }
{
    let ballot = vote.ballot.get();
    if vote.position.get() > standing.position.get() {
        keep_vote(&mut standing.votes, vote)?;
    }
    standing.promised = greater(standing.promised, ballot);
    Ok(())
}

// Adds a decided command, if its position is above the snapshot.
fn add_pair(standing: &mut Standing, pair: (Position, Command)) -> Result<(), NoMemory>
    requires { Rises standing.old }
    ensures ok { OnOk result (standing.new ≡ with_plain (decided_entry pair.0 pair.1) standing.old) }
    ensures err { OnErr result (standing.new ≡ standing.old) }
{
    if pair.0.get() > standing.position.get() {
        keep_pair(&mut standing.pairs, pair)?;
    }
    Ok(())
}

/// Replays entries, of which the first is a Base, into their standing. Votes and pairs are inserted by binary search:
/// entries in the order of positions cost no moves, and others move those of greater positions.
pub fn replay(alloc: Global, entries: Vec<Stored>) -> Result<Standing, NoMemory>
    requires { HasStanding entries.items }
    ensures { IfOk result (StandsFor entries.items) }
{
    let mut standing = nothing(alloc);
    for entry in entries {
        match entry {
            Stored::Base(base) => standing = of_base(base),
            Stored::Plain(entry) => add(&mut standing, entry)?,
        }
    }
    Ok(standing)
}
