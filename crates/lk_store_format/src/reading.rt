// Reading an entry of a file from the start of some bytes. Each `read_` function returns a value and the bytes after
// it, and fails if the bytes do not begin with a valid one.
ghost use Rattle.std.specs.Prelude.{◌≡◌, ◌++◌, IfSome, IfOk, Err};
ghost use Rattle.lk_types.specs.Ranges.{IsAlpha};
ghost use Rattle.lk_codec.specs.FieldReading.{read_vote, read_pair};
ghost use Rattle.lk_codec.specs.Parser.{Finds, many, whole};
ghost use Rattle.lk_types.specs.Votes.{are_votes_above};
ghost use Rattle.lk_store_format.specs.Entries.{are_pairs_above, spelling, IsStored};
ghost use Rattle.lk_store_format.specs.Files.{NoEntryNext};
ghost use Rattle.lk_store_format.specs.Parsing.{Gives, read_alpha, read_format, read_header, read_snapshot, read_few};
ghost use Rattle.lk_store_format.specs.Parsing.{read_votes, read_pairs, is_in_order, read_standing, read_base};
ghost use Rattle.lk_store_format.specs.Parsing.{read_fields};
ghost use Rattle.lk_store_format.specs.Parsing.{read_body, read_size, read_entry};

use crate::base::Base;
use crate::entry_fault::EntryFault;
use crate::header::Header;
use crate::standing::Standing;
use crate::stored::Stored;
use lk_codec::{
    read_any_ballot, read_ballot, read_command, read_executed, read_members, read_node,
    read_position, read_u8, read_u16, read_u32, read_u64, read_vote,
};
use lk_types::limits::{MAX_BASE, MAX_VOTES, MAX_WIDE_ALPHA};
use lk_types::{Command, Entry, Genesis, Position, Vote};
use std::alloc::Global;

#[tactic(auto, unfolding(crate::specs::Parsing::read_alpha))]
fn read_alpha(bytes: &[u8]) -> Option<(u8, &[u8])>
    ensures parsed { Finds (λ x. (x.0, x.1.now)) result (read_alpha bytes.now) }
    ensures in_range { IfSome result (λ x. IsAlpha x.0) }
{
    let (alpha, rest) = read_u8(bytes)?;
    if alpha < 1 || alpha > MAX_WIDE_ALPHA {
        return None;
    }
    Some((alpha, rest))
}

#[tactic(auto, unfolding(crate::specs::Parsing::read_format))]
fn read_format(bytes: &[u8]) -> Option<(u8, &[u8])>
    ensures { Finds (λ x. (x.0, x.1.now)) result (read_format bytes.now) }
{
    let (format, rest) = read_u8(bytes)?;
    if format < 1 || format > 2 {
        return None;
    }
    Some((format, rest))
}

#[tactic(auto, unfolding(crate::specs::Parsing::read_header))]
fn read_header(bytes: &[u8]) -> Option<(Header, &[u8])>
    ensures { Finds (λ x. (x.0, x.1.now)) result (read_header bytes.now) }
{
    let (cluster, rest) = read_u64(bytes)?;
    let Some((node, rest)) = read_node(rest) else {
        return None;
    };
    let (alpha, rest) = read_alpha(rest)?;
    let Some((members, rest)) = read_members(rest) else {
        return None;
    };
    let genesis = Genesis {
        cluster,
        alpha,
        members,
    };
    Some((Header::new(node, genesis), rest))
}

// Reads a four-byte length and that many bytes: 1 to 65,536.
#[tactic(auto, unfolding(crate::specs::Parsing::read_snapshot))]
fn read_snapshot(alloc: Global, bytes: &[u8]) -> Result<(Vec<u8>, &[u8]), EntryFault>
    ensures { Gives (λ x. (x.0.items, x.1.now)) result (read_snapshot bytes.now) }
{
    let Some((length, rest)) = read_u32(bytes) else {
        return Err(EntryFault::NoEntry);
    };
    let length = length as usize;
    if length < 1 || length > MAX_BASE || rest.len() < length {
        return Err(EntryFault::NoEntry);
    }
    let (text, rest) = rest.split_at(length);
    Ok((text.to_vec(alloc)?, rest))
}

// Reads the length of a list of votes or pairs: 0 to 128.
#[tactic(auto, unfolding(crate::specs::Parsing::read_few))]
fn read_few(bytes: &[u8]) -> Option<(u16, &[u8])>
    ensures { Finds (λ x. (x.0, x.1.now)) result (read_few bytes.now) }
{
    let (count, rest) = read_u16(bytes)?;
    if count as usize > MAX_VOTES {
        return None;
    }
    Some((count, rest))
}

// Reads this many votes, one after the other.
fn many_votes(alloc: Global, count: u16, bytes: &[u8]) -> Result<(Vec<Vote>, &[u8]), EntryFault>
    ensures { Gives (λ x. (x.0.items, x.1.now)) result (many read_vote count bytes.now) }
{
    let mut votes = Vec::new(alloc);
    let mut rest = bytes;
    for _ in 0..count {
        let Some((vote, after)) = read_vote(rest) else {
            return Err(EntryFault::NoEntry);
        };
        votes.push(vote)?;
        rest = after;
    }
    Ok((votes, rest))
}

#[tactic(auto, unfolding(crate::specs::Parsing::read_votes))]
fn read_votes(alloc: Global, bytes: &[u8]) -> Result<(Vec<Vote>, &[u8]), EntryFault>
    ensures { Gives (λ x. (x.0.items, x.1.now)) result (read_votes bytes.now) }
{
    let Some((count, rest)) = read_few(bytes) else {
        return Err(EntryFault::NoEntry);
    };
    many_votes(alloc, count, rest)
}

#[tactic(auto, unfolding(lk_codec::specs::FieldReading::read_pair))]
fn read_pair(bytes: &[u8]) -> Option<((Position, Command), &[u8])>
    ensures { Finds (λ x. (x.0, x.1.now)) result (read_pair bytes.now) }
{
    let Some((position, rest)) = read_position(bytes) else {
        return None;
    };
    let Some((command, rest)) = read_command(rest) else {
        return None;
    };
    Some(((position, command), rest))
}

// Reads this many pairs, one after the other.
fn many_pairs(
    alloc: Global,
    count: u16,
    bytes: &[u8],
) -> Result<(Vec<(Position, Command)>, &[u8]), EntryFault>
    ensures { Gives (λ x. (x.0.items, x.1.now)) result (many read_pair count bytes.now) }
{
    let mut pairs = Vec::new(alloc);
    let mut rest = bytes;
    for _ in 0..count {
        let Some((pair, after)) = read_pair(rest) else {
            return Err(EntryFault::NoEntry);
        };
        pairs.push(pair)?;
        rest = after;
    }
    Ok((pairs, rest))
}

#[tactic(auto, unfolding(crate::specs::Parsing::read_pairs))]
fn read_pairs(alloc: Global, bytes: &[u8]) -> Result<(Vec<(Position, Command)>, &[u8]), EntryFault>
    ensures { Gives (λ x. (x.0.items, x.1.now)) result (read_pairs bytes.now) }
{
    let Some((count, rest)) = read_few(bytes) else {
        return Err(EntryFault::NoEntry);
    };
    many_pairs(alloc, count, rest)
}

// Whether the votes rise strictly by position, the first above `low`.
fn are_votes_above(low: u64, votes: &[Vote]) -> bool
    ensures { result ≡ are_votes_above low votes.now }
{
    let mut low = low;
    for vote in votes {
        let position = vote.position.get();
        if position <= low {
            return false;
        }
        low = position;
    }
    true
}

// Whether the pairs rise strictly by position, the first above `low`.
fn are_pairs_above(low: u64, pairs: &[(Position, Command)]) -> bool
    ensures { result ≡ are_pairs_above low pairs.now }
{
    let mut low = low;
    for (position, _) in pairs {
        let position = position.get();
        if position <= low {
            return false;
        }
        low = position;
    }
    true
}

// Whether all votes and pairs are above the snapshot and rise.
fn is_in_order(standing: &Standing) -> bool
    ensures { result ≡ is_in_order standing.now }
{
    let low = standing.position.get();
    are_votes_above(low, &standing.votes) && are_pairs_above(low, &standing.pairs)
}

#[tactic(auto, unfolding(crate::specs::Parsing::read_standing))]
fn read_standing(alloc: Global, bytes: &[u8]) -> Result<(Standing, &[u8]), EntryFault>
    ensures { Gives (λ x. (x.0, x.1.now)) result (read_standing bytes.now) }
{
    let Some((promised, rest)) = read_any_ballot(bytes) else {
        return Err(EntryFault::NoEntry);
    };
    let Some((position, rest)) = read_executed(rest) else {
        return Err(EntryFault::NoEntry);
    };
    let (snapshot, rest) = read_snapshot(alloc, rest)?;
    let (votes, rest) = read_votes(alloc, rest)?;
    let (pairs, rest) = read_pairs(alloc, rest)?;
    let standing = Standing {
        promised,
        position,
        snapshot,
        votes,
        pairs,
    };
    if !is_in_order(&standing) {
        return Err(EntryFault::NoEntry);
    }
    Ok((standing, rest))
}

#[tactic(auto, unfolding(crate::specs::Parsing::read_base))]
fn read_base(alloc: Global, bytes: &[u8]) -> Result<(Base, &[u8]), EntryFault>
    ensures { Gives (λ x. (x.0, x.1.now)) result (read_base bytes.now) }
{
    let Some((generation, rest)) = read_position(bytes) else {
        return Err(EntryFault::NoEntry);
    };
    let Some((format, rest)) = read_format(rest) else {
        return Err(EntryFault::NoEntry);
    };
    let Some((header, rest)) = read_header(rest) else {
        return Err(EntryFault::NoEntry);
    };
    let (standing, rest) = read_standing(alloc, rest)?;
    let base = Base {
        generation: generation.get(),
        format,
        header,
        standing,
    };
    Ok((base, rest))
}

// Reads the fields of an entry of this kind: 1 for a Base, 2 for a promise, 3 for a vote, 4 for a decided command.
#[tactic(auto, unfolding(crate::specs::Parsing::read_fields))]
fn read_fields(alloc: Global, kind: u8, bytes: &[u8]) -> Result<(Stored, &[u8]), EntryFault>
    ensures { Gives (λ x. (x.0, x.1.now)) result (read_fields kind bytes.now) }
{
    match kind {
        1 => {
            let (base, rest) = read_base(alloc, bytes)?;
            Ok((Stored::Base(base), rest))
        }
        2 => {
            let Some((ballot, rest)) = read_ballot(bytes) else {
                return Err(EntryFault::NoEntry);
            };
            Ok((Stored::Plain(Entry::Promise(ballot)), rest))
        }
        3 => {
            let Some((vote, rest)) = read_vote(bytes) else {
                return Err(EntryFault::NoEntry);
            };
            Ok((Stored::Plain(Entry::Vote(vote)), rest))
        }
        4 => {
            let Some(((position, command), rest)) = read_pair(bytes) else {
                return Err(EntryFault::NoEntry);
            };
            Ok((Stored::Plain(Entry::Decided(position, command)), rest))
        }
        _ => Err(EntryFault::NoEntry),
    }
}

// Reads the kind and the fields of an entry. Fails if any byte follows them.
fn body_of(alloc: Global, bytes: &[u8]) -> Result<Stored, EntryFault>
    ensures { Gives (λ e. e) result (whole read_body bytes.now) }
{
    let Some((kind, rest)) = read_u8(bytes) else {
        return Err(EntryFault::NoEntry);
    };
    let (entry, rest) = read_fields(alloc, kind, rest)?;
    if !rest.is_empty() {
        return Err(EntryFault::NoEntry);
    }
    Ok(entry)
}

// Reads the length of an entry, in four bytes, and that many bytes as its kind and fields.
#[tactic(auto, unfolding(crate::specs::Parsing::read_entry, crate::specs::Parsing::read_size))]
fn read_entry(alloc: Global, bytes: &[u8]) -> Result<(Stored, &[u8]), EntryFault>
    ensures { Gives (λ x. (x.0, x.1.now)) result (read_entry bytes.now) }
{
    let Some((length, rest)) = read_u32(bytes) else {
        return Err(EntryFault::NoEntry);
    };
    let length = length as usize;
    if length > MAX_BASE - 4 || rest.len() < length {
        return Err(EntryFault::NoEntry);
    }
    let (text, rest) = rest.split_at(length);
    Ok((body_of(alloc, text)?, rest))
}

/// Reads the entry at the start of the bytes, and returns it with the bytes after it. `NoEntry` if no valid entry
/// begins them: they are torn, damaged or empty.
#[tactic(auto, using(crate::proofs::EntryLaws::is_found, crate::proofs::EntryLaws::is_none))]
pub fn first_entry(alloc: Global, bytes: &[u8]) -> Result<(Stored, &[u8]), EntryFault>
    ensures found { IfOk result (λ x. IsStored x.0 × (bytes.now ≡ spelling x.0 ++ x.1.now)) }
    ensures none { result ≡ Err EntryFault.NoEntry → NoEntryNext bytes.now }
{
    read_entry(alloc, bytes)
}
