//! Parses a field at the start of some bytes: returns the value and the bytes after it, or `None` if they are too few
//! or the value is out of range.

ghost use Rattle.std.specs.Prelude.{◌≡◌, ◌<◌, ◌≤◌, ◌^◌, length, IfSome};
ghost use Rattle.std.specs.List.{AllByRecursion};
ghost use Rattle.lk_types.specs.Limits.{max_members};
ghost use Rattle.lk_types.specs.Ranges.{IsNode, IsClient, IsPort, IsCount, IsTotal};
ghost use Rattle.lk_types.specs.Ballots.{IsRealBallot, IsBallot};
ghost use Rattle.lk_types.specs.Rosters.{IsMember, AreMembers};
ghost use Rattle.lk_types.specs.Commands.{IsOp, IsRequest, IsCommand};
ghost use Rattle.lk_types.specs.Votes.{IsVote};
ghost use Rattle.lk_types.specs.Answers.{IsAnswer};
ghost use Rattle.lk_codec.specs.Fields.{one, two, four, eight, ballot, member, members, op, request, command, vote};
ghost use Rattle.lk_codec.specs.Fields.{answer};
ghost use Rattle.lk_codec.specs.Fronts.{ReadsFront};
ghost use Rattle.lk_codec.specs.Parser.{Finds, read_byte, many};
ghost use Rattle.lk_codec.specs.FieldReading.{read_two, read_four, read_eight, read_node, read_client, read_port};
ghost use Rattle.lk_codec.specs.FieldReading.{read_count, read_total, read_sharer_count, read_ballot, read_any_ballot};
ghost use Rattle.lk_codec.specs.FieldReading.{read_member, read_members, read_payload, read_op, read_request};
ghost use Rattle.lk_codec.specs.FieldReading.{read_command, read_vote, bare_answer, read_held, read_sharing};
ghost use Rattle.lk_codec.specs.FieldReading.{read_answer};

use arrayvec::ArrayVec;
use bytes::Buf;
use lk_types::limits::MAX_MEMBERS;
use lk_types::{
    Answer, Ballot, ClientNo, Command, Executed, Fence, LastFence, Member, Members, NodeNo, Op,
    Payload, Port, Position, RealBallot, Request, RequestNumber, Round, SharerCount, Vote,
};

/// Reads a byte.
#[tactic(auto, using(crate::proofs::FrontLaws::one_front))]
pub fn read_u8(bytes: &[u8]) -> Option<(u8, &[u8])>
    ensures front { ReadsFront (λ x. (x.0, x.1.now)) one (λ n. n < 256) bytes.now result }
    ensures parsed { Finds (λ x. (x.0, x.1.now)) result (read_byte bytes.now) }
{
    let (byte, rest) = bytes.split_first()?;
    Some((*byte, rest))
}

/// Reads a big-endian number of two bytes.
#[tactic(auto, using(crate::proofs::FrontLaws::two_front), unfolding(crate::specs::FieldReading::read_two))]
pub fn read_u16(bytes: &[u8]) -> Option<(u16, &[u8])>
    ensures front { ReadsFront (λ x. (x.0, x.1.now)) two (λ n. n < 2 ^ 16) bytes.now result }
    ensures parsed { Finds (λ x. (x.0, x.1.now)) result (read_two bytes.now) }
{
    let mut rest = bytes;
    let number = rest.try_get_u16().ok()?;
    Some((number, rest))
}

/// Reads a big-endian number of four bytes.
#[tactic(auto, using(crate::proofs::FrontLaws::four_front), unfolding(crate::specs::FieldReading::read_four))]
pub fn read_u32(bytes: &[u8]) -> Option<(u32, &[u8])>
    ensures front { ReadsFront (λ x. (x.0, x.1.now)) four (λ n. n < 2 ^ 32) bytes.now result }
    ensures parsed { Finds (λ x. (x.0, x.1.now)) result (read_four bytes.now) }
{
    let mut rest = bytes;
    let number = rest.try_get_u32().ok()?;
    Some((number, rest))
}

/// Reads a big-endian number of eight bytes.
#[tactic(auto, using(crate::proofs::FrontLaws::eight_front), unfolding(crate::specs::FieldReading::read_eight))]
pub fn read_u64(bytes: &[u8]) -> Option<(u64, &[u8])>
    ensures front { ReadsFront (λ x. (x.0, x.1.now)) eight (λ n. n < 2 ^ 64) bytes.now result }
    ensures parsed { Finds (λ x. (x.0, x.1.now)) result (read_eight bytes.now) }
{
    let mut rest = bytes;
    let number = rest.try_get_u64().ok()?;
    Some((number, rest))
}

/// Reads a node's number in four bytes.
#[tactic(auto, using(crate::proofs::FrontLaws::node_front), unfolding(crate::specs::FieldReading::read_node))]
pub fn read_node(bytes: &[u8]) -> Option<(NodeNo, &[u8])>
    ensures front { ReadsFront (λ x. (x.0, x.1.now)) four IsNode bytes.now result }
    ensures parsed { Finds (λ x. (x.0, x.1.now)) result (read_node bytes.now) }
{
    let (number, rest) = read_u32(bytes)?;
    Some((NodeNo::of(number)?, rest))
}

/// Reads a client's number in two bytes.
#[tactic(auto, using(crate::proofs::FrontLaws::client_front), unfolding(crate::specs::FieldReading::read_client))]
pub fn read_client(bytes: &[u8]) -> Option<(ClientNo, &[u8])>
    ensures front { ReadsFront (λ x. (x.0, x.1.now)) two IsClient bytes.now result }
    ensures parsed { Finds (λ x. (x.0, x.1.now)) result (read_client bytes.now) }
{
    let (number, rest) = read_u16(bytes)?;
    Some((ClientNo::of(number)?, rest))
}

/// Reads a position in eight bytes.
#[tactic(auto, using(crate::proofs::FrontLaws::count_front), unfolding(crate::specs::FieldReading::read_count))]
pub fn read_position(bytes: &[u8]) -> Option<(Position, &[u8])>
    ensures front { ReadsFront (λ x. (x.0, x.1.now)) eight IsCount bytes.now result }
    ensures parsed { Finds (λ x. (x.0, x.1.now)) result (read_count bytes.now) }
{
    let (number, rest) = read_u64(bytes)?;
    Some((Position::of(number)?, rest))
}

/// Reads a request's number in eight bytes.
#[tactic(auto, using(crate::proofs::FrontLaws::count_front), unfolding(crate::specs::FieldReading::read_count))]
pub fn read_number(bytes: &[u8]) -> Option<(RequestNumber, &[u8])>
    ensures front { ReadsFront (λ x. (x.0, x.1.now)) eight IsCount bytes.now result }
    ensures parsed { Finds (λ x. (x.0, x.1.now)) result (read_count bytes.now) }
{
    let (number, rest) = read_u64(bytes)?;
    Some((RequestNumber::of(number)?, rest))
}

/// Reads a fence in eight bytes.
#[tactic(auto, using(crate::proofs::FrontLaws::count_front), unfolding(crate::specs::FieldReading::read_count))]
pub fn read_fence(bytes: &[u8]) -> Option<(Fence, &[u8])>
    ensures front { ReadsFront (λ x. (x.0, x.1.now)) eight IsCount bytes.now result }
    ensures parsed { Finds (λ x. (x.0, x.1.now)) result (read_count bytes.now) }
{
    let (number, rest) = read_u64(bytes)?;
    Some((Fence::of(number)?, rest))
}

/// Reads a count of positions, which may be 0, in eight bytes.
#[tactic(auto, using(crate::proofs::FrontLaws::total_front), unfolding(crate::specs::FieldReading::read_total))]
pub fn read_executed(bytes: &[u8]) -> Option<(Executed, &[u8])>
    ensures front { ReadsFront (λ x. (x.0, x.1.now)) eight IsTotal bytes.now result }
    ensures parsed { Finds (λ x. (x.0, x.1.now)) result (read_total bytes.now) }
{
    let (number, rest) = read_u64(bytes)?;
    Some((Executed::of(number)?, rest))
}

/// Reads a ballot that a node can lead, so not `Ballot::ZERO`: its round and its node.
#[tactic(auto, using(crate::proofs::FrontLaws::ballot_front), unfolding(crate::specs::FieldReading::read_ballot, crate::specs::FieldReading::read_count))]
pub fn read_ballot(bytes: &[u8]) -> Option<(RealBallot, &[u8])>
    ensures front { ReadsFront (λ x. (x.0, x.1.now)) ballot IsRealBallot bytes.now result }
    ensures parsed { Finds (λ x. (x.0, x.1.now)) result (read_ballot bytes.now) }
{
    let (round, rest) = read_u64(bytes)?;
    let round = Round::of(round)?;
    let Some((node, rest)) = read_node(rest) else {
        return None;
    };
    Some((RealBallot::new(round, node), rest))
}

/// Reads a ballot that may be `Ballot::ZERO`: its round and its node, both 0 for `Ballot::ZERO`.
#[tactic(auto, using(crate::proofs::FrontLaws::mark_front), unfolding(crate::specs::FieldReading::read_any_ballot))]
pub fn read_any_ballot(bytes: &[u8]) -> Option<(Ballot, &[u8])>
    ensures front { ReadsFront (λ x. (x.0, x.1.now)) ballot IsBallot bytes.now result }
    ensures parsed { Finds (λ x. (x.0, x.1.now)) result (read_any_ballot bytes.now) }
{
    let (round, rest) = read_u64(bytes)?;
    let (node, rest) = read_u32(rest)?;
    if round == 0 && node == 0 {
        return Some((Ballot::ZERO, rest));
    }
    Some((Ballot::of(round, node)?, rest))
}

/// Reads a node and its port.
#[tactic(auto, using(crate::proofs::FrontLaws::member_front), unfolding(crate::specs::FieldReading::read_member, crate::specs::FieldReading::read_port))]
pub fn read_member(bytes: &[u8]) -> Option<(Member, &[u8])>
    ensures front { ReadsFront (λ x. (x.0, x.1.now)) member IsMember bytes.now result }
    ensures parsed { Finds (λ x. (x.0, x.1.now)) result (read_member bytes.now) }
{
    let Some((node, rest)) = read_node(bytes) else {
        return None;
    };
    let (port, rest) = read_u16(rest)?;
    let port = Port::of(port)?;
    Some((Member { node, port }, rest))
}

// Reads this many members, one after the other, in any order.
fn many_members(count: u8, bytes: &[u8]) -> Option<(ArrayVec<Member, MAX_MEMBERS>, &[u8])>
    requires { count ≤ max_members }
    ensures read { Finds (λ x. (x.0.items, x.1.now)) result (many read_member count bytes.now) }
    ensures count { IfSome result (λ x. length x.0.items ≡ count) }
{
    let mut list = ArrayVec::new();
    let mut rest = bytes;
    for _ in 0..count {
        let Some((member, after)) = read_member(rest) else {
            return None;
        };
        list.push(member);
        rest = after;
    }
    Some((list, rest))
}

/// Reads a set of members: how many, 1 to 7, and then each, rising by node.
#[tactic(auto, using(crate::proofs::FrontLaws::members_front), unfolding(crate::specs::FieldReading::read_members))]
pub fn read_members(bytes: &[u8]) -> Option<(Members, &[u8])>
    ensures front { ReadsFront (λ x. (x.0, x.1.now)) members
        (λ ms. AreMembers ms × AllByRecursion IsMember ms) bytes.now result }
    ensures parsed { Finds (λ x. (x.0, x.1.now)) result (read_members bytes.now) }
{
    let (count, rest) = read_u8(bytes)?;
    if count < 1 || usize::from(count) > MAX_MEMBERS {
        return None;
    }
    let Some((list, rest)) = many_members(count, rest) else {
        return None;
    };
    let Some(set) = Members::of(list.as_slice()) else {
        return None;
    };
    Some((set, rest))
}

/// Reads the tag of an op and its fields. The only field of a Raise is the version, which is 2.
#[tactic(auto, using(crate::proofs::FrontLaws::op_front), unfolding(crate::specs::FieldReading::op_of, crate::specs::FieldReading::read_version))]
pub fn read_op(bytes: &[u8]) -> Option<(Op, &[u8])>
    ensures front { ReadsFront (λ x. (x.0, x.1.now)) op IsOp bytes.now result }
    ensures parsed { Finds (λ x. (x.0, x.1.now)) result (read_op bytes.now) }
{
    let (tag, rest) = read_u8(bytes)?;
    match tag {
        0 => {
            let Some((payload, rest)) = read_payload(rest) else {
                return None;
            };
            Some((Op::Table(payload), rest))
        }
        1 => {
            let Some((member, rest)) = read_member(rest) else {
                return None;
            };
            Some((Op::Join(member.node, member.port), rest))
        }
        2 => {
            let Some((node, rest)) = read_node(rest) else {
                return None;
            };
            Some((Op::Leave(node), rest))
        }
        3 => {
            let (version, rest) = read_u8(rest)?;
            if version != 2 {
                return None;
            }
            Some((Op::Raise, rest))
        }
        _ => None,
    }
}

/// Reads a request: a client, a number and an op.
#[tactic(auto, unfolding(crate::specs::FieldReading::read_request))]
pub fn read_request(bytes: &[u8]) -> Option<(Request, &[u8])>
    ensures { Finds (λ x. (x.0, x.1.now)) result (read_request bytes.now) }
{
    if let Some((client, rest)) = read_client(bytes)
        && let Some((number, rest)) = read_number(rest)
        && let Some((op, rest)) = read_op(rest)
    {
        return Some((Request { client, number, op }, rest));
    }
    None
}

/// Reads the tag of a command, 0 for a no-op and 1 for a request, and then the request.
#[tactic(auto, using(crate::proofs::FrontLaws::command_front), unfolding(crate::specs::FieldReading::command_of))]
pub fn read_command(bytes: &[u8]) -> Option<(Command, &[u8])>
    ensures front { ReadsFront (λ x. (x.0, x.1.now)) command IsCommand bytes.now result }
    ensures parsed { Finds (λ x. (x.0, x.1.now)) result (read_command bytes.now) }
{
    let (tag, rest) = read_u8(bytes)?;
    match tag {
        0 => Some((Command::Noop, rest)),
        1 => {
            let Some((request, rest)) = read_request(rest) else {
                return None;
            };
            Some((Command::Request(request), rest))
        }
        _ => None,
    }
}

/// Reads a vote: a position, a ballot and a command.
#[tactic(auto, using(crate::proofs::FrontLaws::vote_front), unfolding(crate::specs::FieldReading::read_vote))]
pub fn read_vote(bytes: &[u8]) -> Option<(Vote, &[u8])>
    ensures front { ReadsFront (λ x. (x.0, x.1.now)) vote IsVote bytes.now result }
    ensures parsed { Finds (λ x. (x.0, x.1.now)) result (read_vote bytes.now) }
{
    if let Some((position, rest)) = read_position(bytes)
        && let Some((ballot, rest)) = read_ballot(rest)
        && let Some((command, rest)) = read_command(rest)
    {
        let vote = Vote {
            position,
            ballot,
            command,
        };
        return Some((vote, rest));
    }
    None
}

/// Reads the tag of an answer, and its fields.
#[tactic(auto, using(crate::proofs::FrontLaws::answer_front), unfolding(crate::specs::FieldReading::answer_of, crate::specs::FieldReading::read_total))]
pub fn read_answer(bytes: &[u8]) -> Option<(Answer, &[u8])>
    ensures front { ReadsFront (λ x. (x.0, x.1.now)) answer IsAnswer bytes.now result }
    ensures parsed { Finds (λ x. (x.0, x.1.now)) result (read_answer bytes.now) }
{
    let (tag, rest) = read_u8(bytes)?;
    match tag {
        1 => {
            let Some((fence, rest)) = read_fence(rest) else {
                return None;
            };
            Some((Answer::Granted(fence), rest))
        }
        2 | 6 => {
            let Some((holder, fence, rest)) = read_held(rest) else {
                return None;
            };
            if tag == 2 {
                return Some((Answer::Busy(holder, fence), rest));
            }
            Some((Answer::Held(holder, fence), rest))
        }
        5 => {
            let (fence, rest) = read_u64(rest)?;
            Some((Answer::Free(LastFence::of(fence)?), rest))
        }
        12 => {
            let Some((fence, rest)) = read_fence(rest) else {
                return None;
            };
            Some((Answer::Shared(fence), rest))
        }
        13 => {
            let Some((count, fence, rest)) = read_sharing(rest) else {
                return None;
            };
            Some((Answer::HeldShared(count, fence), rest))
        }
        _ => bare_answer(tag, rest),
    }
}

/// Reads a payload: its length, 1 to 64, in a byte, and then so many bytes.
#[tactic(auto, unfolding(crate::specs::FieldReading::read_payload))]
pub fn read_payload(bytes: &[u8]) -> Option<(Payload, &[u8])>
    ensures { Finds (λ x. (x.0, x.1.now)) result (read_payload bytes.now) }
{
    let (length, rest) = read_u8(bytes)?;
    let length = length as usize;
    if rest.len() < length {
        return None;
    }
    let (text, rest) = rest.split_at(length);
    Some((Payload::of(text)?, rest))
}

// Returns the answer of a tag that has no fields, and `rest`; `None` for any other tag.
#[tactic(auto, unfolding(crate::specs::FieldReading::bare_answer))]
fn bare_answer<'a>(tag: u8, rest: &'a [u8]) -> Option<(Answer, &'a [u8])>
    ensures { Finds (λ x. (x.0, x.1.now)) result (bare_answer tag rest.now) }
{
    let answer = match tag {
        3 => Answer::Released,
        4 => Answer::NotHeld,
        7 => Answer::Valid,
        8 => Answer::Stale,
        9 => Answer::NoRoom,
        10 => Answer::Bad,
        11 => Answer::Spent,
        14 => Answer::Broken,
        32 => Answer::Joined,
        33 => Answer::Used,
        34 => Answer::Full,
        35 => Answer::Left,
        36 => Answer::NotMember,
        37 => Answer::Last,
        38 => Answer::Raised,
        39 => Answer::AlreadyRaised,
        _ => return None,
    };
    Some((answer, rest))
}

// Reads the fields of Busy and Held: a holder and its fence.
fn read_held(bytes: &[u8]) -> Option<(ClientNo, Fence, &[u8])>
    ensures { Finds (λ x. ((x.0, x.1), x.2.now)) result (read_held bytes.now) }
{
    if let Some((holder, rest)) = read_client(bytes)
        && let Some((fence, rest)) = read_fence(rest)
    {
        return Some((holder, fence, rest));
    }
    None
}

// Reads the fields of HeldShared: how many clients share the name, and its fence.
#[tactic(auto, unfolding(crate::specs::FieldReading::read_sharer_count))]
fn read_sharing(bytes: &[u8]) -> Option<(SharerCount, Fence, &[u8])>
    ensures { Finds (λ x. ((x.0, x.1), x.2.now)) result (read_sharing bytes.now) }
{
    let (count, rest) = read_u8(bytes)?;
    let count = SharerCount::of(count)?;
    let Some((fence, rest)) = read_fence(rest) else {
        return None;
    };
    Some((count, fence, rest))
}
