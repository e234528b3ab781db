//! Appends a field in its canonical bytes, numbers big-endian. Out of memory, a function with a clause `err` appends
//! nothing; the others may leave a prefix. The clause `room` gives the most bytes that a call uses: with so many
//! reserved it cannot run out of memory.

ghost use Rattle.std.specs.Prelude.{◌≡◌, ◌≤◌, ◌+◌, ◌*◌, ◌++◌, length, OnOk, OnErr};
ghost use Rattle.lk_types.specs.Limits.{max_members};
ghost use Rattle.lk_codec.specs.Fields.{one, two, four, eight, ballot, member, members, payload, op, request, command};
ghost use Rattle.lk_codec.specs.Fields.{vote, answer, answer_fields, answer_tag};
ghost use Rattle.lk_codec.specs.Rooms.{UsesRoom, ballot_room, member_room, members_room, payload_room, op_room};
ghost use Rattle.lk_codec.specs.Rooms.{request_room, command_room, vote_room, held_room, answer_room};

use crate::room::{ANSWER, BALLOT, COMMAND, MEMBER, MEMBERS, VOTE};
use bytes::{BufMut, BytesMut};
use lk_types::{
    Answer, Ballot, ClientNo, Command, Executed, Fence, LastFence, Member, NodeNo, Op, Payload,
    Port, Position, RealBallot, Request, RequestNumber, Vote,
};
use std::alloc::AllocError;

/// Appends a byte.
pub fn put_u8(out: &mut BytesMut, value: u8) -> Result<(), AllocError>
    ensures ok { OnOk result (out.new.items ≡ out.old.items ++ one value) }
    ensures err { OnErr result (out.new.items ≡ out.old.items) }
    ensures room { UsesRoom result out.old.spare out.new.spare 1 }
{
    out.put_u8(value)
}

/// Appends a number in two bytes.
#[tactic(auto, unfolding(crate::specs::Fields::two))]
pub fn put_u16(out: &mut BytesMut, value: u16) -> Result<(), AllocError>
    ensures ok { OnOk result (out.new.items ≡ out.old.items ++ two value) }
    ensures err { OnErr result (out.new.items ≡ out.old.items) }
    ensures room { UsesRoom result out.old.spare out.new.spare 2 }
{
    out.put_u16(value)
}

/// Appends a number in four bytes.
#[tactic(auto, unfolding(crate::specs::Fields::four))]
pub fn put_u32(out: &mut BytesMut, value: u32) -> Result<(), AllocError>
    ensures ok { OnOk result (out.new.items ≡ out.old.items ++ four value) }
    ensures err { OnErr result (out.new.items ≡ out.old.items) }
    ensures room { UsesRoom result out.old.spare out.new.spare 4 }
{
    out.put_u32(value)
}

/// Appends a number in eight bytes.
#[tactic(auto, unfolding(crate::specs::Fields::eight))]
pub fn put_u64(out: &mut BytesMut, value: u64) -> Result<(), AllocError>
    ensures ok { OnOk result (out.new.items ≡ out.old.items ++ eight value) }
    ensures err { OnErr result (out.new.items ≡ out.old.items) }
    ensures room { UsesRoom result out.old.spare out.new.spare 8 }
{
    out.put_u64(value)
}

/// Appends a node in four bytes.
pub fn put_node(out: &mut BytesMut, node: NodeNo) -> Result<(), AllocError>
    ensures ok { OnOk result (out.new.items ≡ out.old.items ++ four node) }
    ensures err { OnErr result (out.new.items ≡ out.old.items) }
    ensures room { UsesRoom result out.old.spare out.new.spare 4 }
{
    put_u32(out, node.get())
}

/// Appends a client in two bytes.
pub fn put_client(out: &mut BytesMut, client: ClientNo) -> Result<(), AllocError>
    ensures ok { OnOk result (out.new.items ≡ out.old.items ++ two client) }
    ensures err { OnErr result (out.new.items ≡ out.old.items) }
    ensures room { UsesRoom result out.old.spare out.new.spare 2 }
{
    put_u16(out, client.get())
}

/// Appends a position in eight bytes.
pub fn put_position(out: &mut BytesMut, position: Position) -> Result<(), AllocError>
    ensures ok { OnOk result (out.new.items ≡ out.old.items ++ eight position) }
    ensures err { OnErr result (out.new.items ≡ out.old.items) }
    ensures room { UsesRoom result out.old.spare out.new.spare 8 }
{
    put_u64(out, position.get())
}

/// Appends a request's number in eight bytes.
pub fn put_number(out: &mut BytesMut, number: RequestNumber) -> Result<(), AllocError>
    ensures ok { OnOk result (out.new.items ≡ out.old.items ++ eight number) }
    ensures err { OnErr result (out.new.items ≡ out.old.items) }
    ensures room { UsesRoom result out.old.spare out.new.spare 8 }
{
    put_u64(out, number.get())
}

/// Appends a fence in eight bytes.
pub fn put_fence(out: &mut BytesMut, fence: Fence) -> Result<(), AllocError>
    ensures ok { OnOk result (out.new.items ≡ out.old.items ++ eight fence) }
    ensures err { OnErr result (out.new.items ≡ out.old.items) }
    ensures room { UsesRoom result out.old.spare out.new.spare 8 }
{
    put_u64(out, fence.get())
}

/// Appends a count of positions in eight bytes.
pub fn put_executed(out: &mut BytesMut, executed: Executed) -> Result<(), AllocError>
    ensures ok { OnOk result (out.new.items ≡ out.old.items ++ eight executed) }
    ensures err { OnErr result (out.new.items ≡ out.old.items) }
    ensures room { UsesRoom result out.old.spare out.new.spare 8 }
{
    put_u64(out, executed.get())
}

/// Appends a ballot: its round and its node, twelve zero bytes for `Ballot::ZERO`.
pub fn put_any_ballot(out: &mut BytesMut, value: Ballot) -> Result<(), AllocError>
    ensures ok { OnOk result (out.new.items ≡ out.old.items ++ ballot value) }
    ensures err { OnErr result (out.new.items ≡ out.old.items) }
    ensures room { UsesRoom result out.old.spare out.new.spare ballot_room }
{
    out.reserve(BALLOT)?;
    put_u64(out, value.round())?;
    put_u32(out, value.node())
}

/// Appends a ballot: its round and its node.
pub fn put_ballot(out: &mut BytesMut, value: RealBallot) -> Result<(), AllocError>
    ensures ok { OnOk result (out.new.items ≡ out.old.items ++ ballot value) }
    ensures err { OnErr result (out.new.items ≡ out.old.items) }
    ensures room { UsesRoom result out.old.spare out.new.spare ballot_room }
{
    put_any_ballot(out, value.get())
}

/// Appends a node and its port.
pub fn put_member(out: &mut BytesMut, value: Member) -> Result<(), AllocError>
    ensures ok { OnOk result (out.new.items ≡ out.old.items ++ member value) }
    ensures err { OnErr result (out.new.items ≡ out.old.items) }
    ensures room { UsesRoom result out.old.spare out.new.spare member_room }
{
    out.reserve(MEMBER)?;
    put_node(out, value.node)?;
    put_u16(out, value.port.get())
}

// Appends how many members there are, and then each. Out of memory it may leave a prefix.
fn put_list(out: &mut BytesMut, list: &[Member]) -> Result<(), AllocError>
    requires { length list.now ≤ max_members }
    ensures ok { OnOk result (out.new.items ≡ out.old.items ++ members list.now) }
    ensures room { UsesRoom result out.old.spare out.new.spare (1 + member_room * length list.now) }
{
    put_u8(out, list.len() as u8)?;
    for member in list {
        put_member(out, *member)?;
    }
    Ok(())
}

/// Appends a set of members, of which there are at most 7: how many, and then each.
pub fn put_members(out: &mut BytesMut, list: &[Member]) -> Result<(), AllocError>
    requires { length list.now ≤ max_members }
    ensures ok { OnOk result (out.new.items ≡ out.old.items ++ members list.now) }
    ensures err { OnErr result (out.new.items ≡ out.old.items) }
    ensures room { UsesRoom result out.old.spare out.new.spare members_room }
{
    out.reserve(MEMBERS)?;
    put_list(out, list)
}

// Appends the length of a payload in one byte, and its bytes. Out of memory it may leave a prefix.
fn put_payload(out: &mut BytesMut, value: &Payload) -> Result<(), AllocError>
    ensures ok { OnOk result (out.new.items ≡ out.old.items ++ payload value.now) }
    ensures room { UsesRoom result out.old.spare out.new.spare payload_room }
{
    let bytes = value.as_slice();
    put_u8(out, bytes.len() as u8)?;
    out.put_slice(bytes)
}

// Appends the tag of an op and its fields; a Raise has one, the version 2. Out of memory it may leave a prefix.
fn put_op(out: &mut BytesMut, value: &Op) -> Result<(), AllocError>
    ensures ok { OnOk result (out.new.items ≡ out.old.items ++ op value.now) }
    ensures room { UsesRoom result out.old.spare out.new.spare op_room }
{
    match value {
        Op::Table(payload) => {
            put_u8(out, 0)?;
            put_payload(out, payload)?;
        }
        Op::Join(node, port) => {
            put_u8(out, 1)?;
            put_node(out, *node)?;
            put_u16(out, port.get())?;
        }
        Op::Leave(node) => {
            put_u8(out, 2)?;
            put_node(out, *node)?;
        }
        Op::Raise => {
            put_u8(out, 3)?;
            put_u8(out, 2)?;
        }
    }
    Ok(())
}

/// Appends a client, a number and an op. Out of memory it may leave a prefix.
pub fn put_request(out: &mut BytesMut, value: &Request) -> Result<(), AllocError>
    ensures ok { OnOk result (out.new.items ≡ out.old.items ++ request value.now) }
    ensures room { UsesRoom result out.old.spare out.new.spare request_room }
{
    put_client(out, value.client)?;
    put_number(out, value.number)?;
    put_op(out, &value.op)
}

/// Appends the tag of a command, 0 for a no-op and 1 for a request, and then the request.
pub fn put_command(out: &mut BytesMut, value: &Command) -> Result<(), AllocError>
    ensures ok { OnOk result (out.new.items ≡ out.old.items ++ command value.now) }
    ensures err { OnErr result (out.new.items ≡ out.old.items) }
    ensures room { UsesRoom result out.old.spare out.new.spare command_room }
{
    out.reserve(COMMAND)?;
    match value {
        Command::Noop => put_u8(out, 0)?,
        Command::Request(request) => {
            put_u8(out, 1)?;
            put_request(out, request)?;
        }
    }
    Ok(())
}

/// Appends a position, a ballot and a command.
pub fn put_vote(out: &mut BytesMut, value: &Vote) -> Result<(), AllocError>
    ensures ok { OnOk result (out.new.items ≡ out.old.items ++ vote value.now) }
    ensures err { OnErr result (out.new.items ≡ out.old.items) }
    ensures room { UsesRoom result out.old.spare out.new.spare vote_room }
{
    out.reserve(VOTE)?;
    put_position(out, value.position)?;
    put_ballot(out, value.ballot)?;
    put_command(out, &value.command)
}

// Returns the tag of an answer: from 32 on for joins, leaves and raises, below 32 for the lock table.
fn tag_of(value: &Answer) -> u8
    ensures { result ≡ answer_tag value.now }
{
    match value {
        Answer::Granted(_) => 1,
        Answer::Busy(_, _) => 2,
        Answer::Released => 3,
        Answer::NotHeld => 4,
        Answer::Free(_) => 5,
        Answer::Held(_, _) => 6,
        Answer::Valid => 7,
        Answer::Stale => 8,
        Answer::NoRoom => 9,
        Answer::Bad => 10,
        Answer::Spent => 11,
        Answer::Shared(_) => 12,
        Answer::HeldShared(_, _) => 13,
        Answer::Broken => 14,
        Answer::Joined => 32,
        Answer::Used => 33,
        Answer::Full => 34,
        Answer::Left => 35,
        Answer::NotMember => 36,
        Answer::Last => 37,
        Answer::Raised => 38,
        Answer::AlreadyRaised => 39,
    }
}

// Appends the fields of an answer without its tag. Out of memory it may leave a prefix.
fn put_answer_fields(out: &mut BytesMut, value: &Answer) -> Result<(), AllocError>
    ensures ok { OnOk result (out.new.items ≡ out.old.items ++ answer_fields value.now) }
    ensures room { UsesRoom result out.old.spare out.new.spare held_room }
{
    match value {
        Answer::Granted(fence) | Answer::Shared(fence) => put_fence(out, *fence)?,
        Answer::Busy(holder, fence) | Answer::Held(holder, fence) => {
            put_client(out, *holder)?;
            put_fence(out, *fence)?;
        }
        Answer::Free(fence) => put_u64(out, fence.get())?,
        Answer::HeldShared(count, fence) => {
            put_u8(out, count.get())?;
            put_fence(out, *fence)?;
        }
        _ => {}
    }
    Ok(())
}

/// Appends the tag of an answer, and its fields.
pub fn put_answer(out: &mut BytesMut, value: Answer) -> Result<(), AllocError>
    ensures ok { OnOk result (out.new.items ≡ out.old.items ++ answer value) }
    ensures err { OnErr result (out.new.items ≡ out.old.items) }
    ensures room { UsesRoom result out.old.spare out.new.spare answer_room }
{
    out.reserve(ANSWER)?;
    put_u8(out, tag_of(&value))?;
    put_answer_fields(out, &value)
}
