// Writing a message as a datagram. Each `put_` function appends one part of it; the clauses `room` bound the reserved
// bytes that it uses.
ghost use Rattle.std.specs.Prelude.{◌≡◌, ◌<◌, ◌+◌, ◌*◌, ◌++◌, length, OnOk, OnErr};
ghost use Rattle.lk_codec.specs.Rooms.{UsesRoom, ballot_room, command_room, vote_room};
ghost use Rattle.lk_wire.specs.Rooms.{header_room, node_fields_room, fields_room};
ghost use Rattle.lk_messages.specs.Grammar.{votes, promise, proposal, nack, commands, decided, part, node_kind};
ghost use Rattle.lk_messages.specs.Grammar.{node_fields, fields, header, kind, spelling, Spells};

use bytes::{BufMut, BytesMut};
use lk_codec::{
    put_answer, put_any_ballot, put_ballot, put_client, put_command, put_executed, put_member,
    put_number, put_position, put_request, put_u8, put_u16, put_u32, put_u64, put_vote, room,
};
use lk_messages::{Content, Decided, Message, Nack, NodeMessage, Part, Promise};
use lk_types::{Command, NoMemory, Vote};
use std::alloc::AllocError;

fn put_votes(out: &mut BytesMut, list: &[Vote]) -> Result<(), AllocError>
    requires { length list.now < 256 }
    ensures ok { OnOk result (out.new.items ≡ out.old.items ++ votes list.now) }
    ensures room { UsesRoom result out.old.spare out.new.spare (1 + vote_room * length list.now) }
{
    put_u8(out, list.len() as u8)?;
    for vote in list {
        put_vote(out, vote)?;
    }
    Ok(())
}

fn put_promise(out: &mut BytesMut, value: &Promise) -> Result<(), AllocError>
    ensures ok { OnOk result (out.new.items ≡ out.old.items ++ promise value.now) }
    ensures room { UsesRoom result out.old.spare out.new.spare
        (ballot_room + 8 + 1 + vote_room * length value.now.votes) }
{
    value.facts();
    let (ballot, first, votes) = value.fields();
    put_ballot(out, ballot)?;
    put_position(out, first)?;
    put_votes(out, votes)
}

fn put_proposal(out: &mut BytesMut, value: &Vote) -> Result<(), AllocError>
    ensures ok { OnOk result (out.new.items ≡ out.old.items ++ proposal value.now) }
    ensures room { UsesRoom result out.old.spare out.new.spare vote_room }
{
    put_ballot(out, value.ballot)?;
    put_position(out, value.position)?;
    put_command(out, &value.command)
}

fn put_nack(out: &mut BytesMut, value: &Nack) -> Result<(), AllocError>
    ensures ok { OnOk result (out.new.items ≡ out.old.items ++ nack value.now) }
    ensures room { UsesRoom result out.old.spare out.new.spare (ballot_room + ballot_room + 8) }
{
    put_ballot(out, value.ballot)?;
    put_any_ballot(out, value.promised)?;
    put_executed(out, value.executed)
}

fn put_commands(out: &mut BytesMut, list: &[Command]) -> Result<(), AllocError>
    requires { length list.now < 256 }
    ensures ok { OnOk result (out.new.items ≡ out.old.items ++ commands list.now) }
    ensures room { UsesRoom result out.old.spare out.new.spare (1 + command_room * length list.now) }
{
    put_u8(out, list.len() as u8)?;
    for command in list {
        put_command(out, command)?;
    }
    Ok(())
}

fn put_decided(out: &mut BytesMut, value: &Decided) -> Result<(), AllocError>
    ensures ok { OnOk result (out.new.items ≡ out.old.items ++ decided value.now) }
    ensures room { UsesRoom result out.old.spare out.new.spare (8 + 1 + command_room * length value.now.commands) }
{
    value.facts();
    let (first, commands) = value.fields();
    put_position(out, first)?;
    put_commands(out, commands)
}

fn put_part(out: &mut BytesMut, value: &Part) -> Result<(), AllocError>
    ensures ok { OnOk result (out.new.items ≡ out.old.items ++ part value.now) }
    ensures room { UsesRoom result out.old.spare out.new.spare (8 + 4 + 4 + 2 + length value.now.bytes) }
{
    value.facts();
    let (position, total, offset, bytes) = value.fields();
    put_position(out, position)?;
    put_u32(out, total)?;
    put_u32(out, offset)?;
    put_u16(out, bytes.len() as u16)?;
    out.put_slice(bytes)
}

// Returns the kind byte of a node's message. Kind 9 is a client's request.
fn kind_of(message: &NodeMessage) -> u8
    ensures { result ≡ node_kind message.now }
{
    match message {
        NodeMessage::Prepare(_, _) => 1,
        NodeMessage::Promise(_) => 2,
        NodeMessage::Accept(_) => 3,
        NodeMessage::Accepted(_) => 4,
        NodeMessage::Nack(_) => 5,
        NodeMessage::Decided(_) => 6,
        NodeMessage::Want(_) => 7,
        NodeMessage::Part(_) => 8,
        NodeMessage::Answer(_) => 10,
        NodeMessage::Elsewhere(_) => 11,
        NodeMessage::Passed(_) => 12,
        NodeMessage::Lead(_, _) => 13,
    }
}

fn put_node_fields(out: &mut BytesMut, message: &NodeMessage) -> Result<(), AllocError>
    ensures ok { OnOk result (out.new.items ≡ out.old.items ++ node_fields message.now) }
    ensures room { UsesRoom result out.old.spare out.new.spare (node_fields_room message.now) }
{
    match message {
        NodeMessage::Prepare(ballot, first) => {
            put_ballot(out, *ballot)?;
            put_position(out, *first)
        }
        NodeMessage::Promise(promise) => put_promise(out, promise),
        NodeMessage::Accept(vote) | NodeMessage::Accepted(vote) => put_proposal(out, vote),
        NodeMessage::Nack(nack) => put_nack(out, nack),
        NodeMessage::Decided(decided) => put_decided(out, decided),
        NodeMessage::Want(want) => {
            put_position(out, want.first())?;
            put_u32(out, want.offset())
        }
        NodeMessage::Part(part) => put_part(out, part),
        NodeMessage::Answer(answered) => {
            put_client(out, answered.client)?;
            put_number(out, answered.number)?;
            put_answer(out, answered.answer)
        }
        NodeMessage::Elsewhere(elsewhere) => {
            put_client(out, elsewhere.client)?;
            put_number(out, elsewhere.number)?;
            put_member(out, elsewhere.member)
        }
        NodeMessage::Passed(passed) => {
            put_client(out, passed.client())?;
            put_number(out, passed.number())?;
            put_number(out, passed.last())
        }
        NodeMessage::Lead(ballot, executed) => {
            put_ballot(out, *ballot)?;
            put_executed(out, *executed)
        }
    }
}

// Appends the header: the letters LK, version 1, the kind, the cluster, and the sender, which is 0 for a client.
fn put_header(out: &mut BytesMut, kind: u8, cluster: u64, sender: u32) -> Result<(), AllocError>
    ensures ok { OnOk result (out.new.items ≡ out.old.items ++ header kind cluster sender) }
    ensures room { UsesRoom result out.old.spare out.new.spare header_room }
{
    out.put_slice(&[0x4c, 0x4b, 1, kind])?;
    put_u64(out, cluster)?;
    put_u32(out, sender)
}

fn put_message(out: &mut BytesMut, message: &Message) -> Result<(), AllocError>
    ensures ok { OnOk result (out.new.items ≡ out.old.items ++ spelling message.now) }
    ensures room { UsesRoom result out.old.spare out.new.spare (header_room + fields_room message.now.content) }
{
    match &message.content {
        Content::Request(request) => {
            put_header(out, 9, message.cluster, 0)?;
            put_request(out, request)?;
        }
        Content::Node(node, content) => {
            put_header(out, kind_of(content), message.cluster, node.get())?;
            put_node_fields(out, content)?;
        }
    }
    Ok(())
}

// The length of a header: two letters and the version, the kind, the cluster and the sender.
const HEADER_ROOM: usize = 3 + 1 + 8 + 4;

// Returns how many bytes to reserve for the fields of a message: an upper bound.
fn room_of(content: &Content) -> usize
    ensures { result ≡ fields_room content.now }
{
    content.facts();
    match content {
        Content::Request(_) => room::REQUEST,
        Content::Node(_, NodeMessage::Promise(promise)) => {
            promise.facts();
            room::BALLOT + 8 + 1 + room::VOTE * promise.fields().2.len()
        }
        Content::Node(_, NodeMessage::Decided(decided)) => {
            decided.facts();
            8 + 1 + room::COMMAND * decided.fields().1.len()
        }
        Content::Node(_, NodeMessage::Part(part)) => {
            part.facts();
            8 + 4 + 4 + 2 + part.fields().3.len()
        }
        Content::Node(_, _) => room::VOTE,
    }
}

/// Appends the message's spelling, its only valid encoding. It reserves memory once, before it begins; out of memory it
/// appends nothing.
pub fn write(message: &Message, out: &mut BytesMut) -> Result<(), NoMemory>
    ensures ok { OnOk result (out.new.items ≡ out.old.items ++ spelling message.now) }
    ensures spells { Spells message.now (spelling message.now) }
    ensures err { OnErr result (out.new.items ≡ out.old.items) }
    ensures room { UsesRoom result out.old.spare out.new.spare (header_room + fields_room message.now.content) }
{
    message.facts();
    out.reserve(HEADER_ROOM + room_of(&message.content))?;
    put_message(out, message)?;
    Ok(())
}
