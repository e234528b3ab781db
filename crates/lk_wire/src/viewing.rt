//! Parsing a datagram: `view` does it in place, without copying or allocating, and `read` copies such a view. Each
//! `read_` function returns a part of the message and the bytes after it, or `None` if the bytes do not begin with one.

ghost use Rattle.std.specs.Prelude.{◌≡◌, ◌⊎◌, List, ℕ, Ok, Err, IfOk, IsOkAnd};
ghost use Rattle.lk_messages.specs.declared.message.Message.{Message};
ghost use Rattle.lk_messages.specs.declared.message.NodeMessage.TheVariants as kinds;
ghost use Rattle.lk_messages.specs.Grammar.{Spells};
ghost use Rattle.lk_codec.specs.Parser.{Finds, made};
ghost use Rattle.lk_messages.specs.Reading.{read_prepare, read_promise, read_proposal, read_nack, read_decided};
ghost use Rattle.lk_messages.specs.Reading.{read_want, read_part, read_answered, read_elsewhere, read_passed};
ghost use Rattle.lk_messages.specs.Reading.{read_lead, read_node_message, read_asked, content_of};
ghost use Rattle.lk_messages.specs.Reading.{read_header, read_message};
ghost use Rattle.lk_messages.specs.Reading.{all_of};
ghost use Rattle.lk_wire.specs.Shown.{shown_node, shown_content, shown, LieAtTheirOffsets};

pub(crate) mod command;
pub(crate) mod decided;
pub(crate) mod message;

use crate::fault::{Bad, ReadFault};
use command::{RequestRef, VoteRef};
use decided::DecidedRef;
use lk_codec::{
    read_answer, read_any_ballot, read_ballot, read_client, read_executed, read_member,
    read_number, read_position, read_u8, read_u32, read_u64,
};
use lk_messages::{Answered, Elsewhere, Message, Nack, PartRef, Passed, PromiseRef, Want};
use lk_types::NodeNo;
use message::{ContentRef, MessageRef, NodeMessageRef};
use std::alloc::Global;

#[tactic(auto, unfolding(lk_messages::specs::Reading::read_prepare))]
fn read_prepare(bytes: &[u8]) -> Option<(NodeMessageRef<'_>, &[u8])>
    ensures { Finds (λ x. (shown_node x.0, x.1.now)) result (read_prepare bytes.now) }
{
    if let Some((ballot, rest)) = read_ballot(bytes)
        && let Some((first, rest)) = read_position(rest)
    {
        return Some((NodeMessageRef::Prepare(ballot, first), rest));
    }
    None
}

fn read_promise(bytes: &[u8]) -> Option<(NodeMessageRef<'_>, &[u8])>
    ensures { Finds (λ x. (shown_node x.0, x.1.now)) result (made kinds.Promise read_promise bytes.now) }
{
    let Some((promise, rest)) = PromiseRef::of(bytes) else {
        return None;
    };
    Some((NodeMessageRef::Promise(promise), rest))
}

fn read_accept(bytes: &[u8]) -> Option<(NodeMessageRef<'_>, &[u8])>
    ensures { Finds (λ x. (shown_node x.0, x.1.now)) result (made kinds.Accept read_proposal bytes.now) }
{
    let Some((vote, rest)) = VoteRef::of(bytes) else {
        return None;
    };
    Some((NodeMessageRef::Accept(vote), rest))
}

fn read_accepted(bytes: &[u8]) -> Option<(NodeMessageRef<'_>, &[u8])>
    ensures { Finds (λ x. (shown_node x.0, x.1.now)) result (made kinds.Accepted read_proposal bytes.now) }
{
    let Some((vote, rest)) = VoteRef::of(bytes) else {
        return None;
    };
    Some((NodeMessageRef::Accepted(vote), rest))
}

#[tactic(auto, unfolding(lk_messages::specs::Reading::read_nack))]
fn read_nack(bytes: &[u8]) -> Option<(NodeMessageRef<'_>, &[u8])>
    ensures { Finds (λ x. (shown_node x.0, x.1.now)) result (made kinds.Nack read_nack bytes.now) }
{
    if let Some((ballot, rest)) = read_ballot(bytes)
        && let Some((promised, rest)) = read_any_ballot(rest)
        && let Some((executed, rest)) = read_executed(rest)
    {
        let nack = Nack {
            ballot,
            promised,
            executed,
        };
        return Some((NodeMessageRef::Nack(nack), rest));
    }
    None
}

fn read_decided(bytes: &[u8]) -> Option<(NodeMessageRef<'_>, &[u8])>
    ensures { Finds (λ x. (shown_node x.0, x.1.now)) result (made kinds.Decided read_decided bytes.now) }
{
    let Some((decided, rest)) = DecidedRef::of(bytes) else {
        return None;
    };
    Some((NodeMessageRef::Decided(decided), rest))
}

#[tactic(auto, unfolding(lk_messages::specs::Reading::read_want))]
fn read_want(bytes: &[u8]) -> Option<(NodeMessageRef<'_>, &[u8])>
    ensures { Finds (λ x. (shown_node x.0, x.1.now)) result (made kinds.Want read_want bytes.now) }
{
    if let Some((first, rest)) = read_position(bytes)
        && let Some((offset, rest)) = read_u32(rest)
    {
        return Some((NodeMessageRef::Want(Want::of(first, offset)?), rest));
    }
    None
}

fn read_part(bytes: &[u8]) -> Option<(NodeMessageRef<'_>, &[u8])>
    ensures { Finds (λ x. (shown_node x.0, x.1.now)) result (made kinds.Part read_part bytes.now) }
{
    let Some((part, rest)) = PartRef::of(bytes) else {
        return None;
    };
    Some((NodeMessageRef::Part(part), rest))
}

#[tactic(auto, unfolding(lk_messages::specs::Reading::read_answered))]
fn read_answered(bytes: &[u8]) -> Option<(NodeMessageRef<'_>, &[u8])>
    ensures { Finds (λ x. (shown_node x.0, x.1.now)) result (made kinds.Answer read_answered bytes.now) }
{
    if let Some((client, rest)) = read_client(bytes)
        && let Some((number, rest)) = read_number(rest)
        && let Some((answer, rest)) = read_answer(rest)
    {
        let answered = Answered {
            client,
            number,
            answer,
        };
        return Some((NodeMessageRef::Answer(answered), rest));
    }
    None
}

#[tactic(auto, unfolding(lk_messages::specs::Reading::read_elsewhere))]
fn read_elsewhere(bytes: &[u8]) -> Option<(NodeMessageRef<'_>, &[u8])>
    ensures { Finds (λ x. (shown_node x.0, x.1.now)) result (made kinds.Elsewhere read_elsewhere bytes.now) }
{
    if let Some((client, rest)) = read_client(bytes)
        && let Some((number, rest)) = read_number(rest)
        && let Some((member, rest)) = read_member(rest)
    {
        let elsewhere = Elsewhere {
            client,
            number,
            member,
        };
        return Some((NodeMessageRef::Elsewhere(elsewhere), rest));
    }
    None
}

#[tactic(auto, unfolding(lk_messages::specs::Reading::read_passed))]
fn read_passed(bytes: &[u8]) -> Option<(NodeMessageRef<'_>, &[u8])>
    ensures { Finds (λ x. (shown_node x.0, x.1.now)) result (made kinds.Passed read_passed bytes.now) }
{
    if let Some((client, rest)) = read_client(bytes)
        && let Some((number, rest)) = read_number(rest)
        && let Some((last, rest)) = read_number(rest)
    {
        let passed = Passed::of(client, number, last)?;
        return Some((NodeMessageRef::Passed(passed), rest));
    }
    None
}

#[tactic(auto, unfolding(lk_messages::specs::Reading::read_lead))]
fn read_lead(bytes: &[u8]) -> Option<(NodeMessageRef<'_>, &[u8])>
    ensures { Finds (λ x. (shown_node x.0, x.1.now)) result (read_lead bytes.now) }
{
    if let Some((ballot, rest)) = read_ballot(bytes)
        && let Some((executed, rest)) = read_executed(rest)
    {
        return Some((NodeMessageRef::Lead(ballot, executed), rest));
    }
    None
}

// Reads the fields of a node's message of this kind. `None` also for a kind that no node sends.
#[tactic(auto, unfolding(lk_messages::specs::Reading::read_node_message, lk_messages::specs::Reading::small_of))]
fn read_node_message(kind: u8, bytes: &[u8]) -> Option<(NodeMessageRef<'_>, &[u8])>
    ensures { Finds (λ x. (shown_node x.0, x.1.now)) result (read_node_message kind bytes.now) }
{
    match kind {
        1 => read_prepare(bytes),
        2 => read_promise(bytes),
        3 => read_accept(bytes),
        4 => read_accepted(bytes),
        5 => read_nack(bytes),
        6 => read_decided(bytes),
        7 => read_want(bytes),
        8 => read_part(bytes),
        10 => read_answered(bytes),
        11 => read_elsewhere(bytes),
        12 => read_passed(bytes),
        13 => read_lead(bytes),
        _ => None,
    }
}

// Reads the header, and returns the kind, the cluster, the sender and the bytes after it.
#[tactic(auto, unfolding(lk_messages::specs::Reading::read_header))]
fn read_header(bytes: &[u8]) -> Option<(u8, u64, u32, &[u8])>
    ensures { Finds (λ x. ((x.0, (x.1, x.2)), x.3.now)) result (read_header bytes.now) }
{
    match bytes {
        [0x4c, 0x4b, 1, rest @ ..] => {
            let (kind, rest) = read_u8(rest)?;
            let (cluster, rest) = read_u64(rest)?;
            let (sender, rest) = read_u32(rest)?;
            Some((kind, cluster, sender, rest))
        }
        _ => None,
    }
}

// Reads a client's request, whose sender must be 0.
#[tactic(auto, unfolding(lk_messages::specs::Reading::read_asked))]
fn read_asked(sender: u32, bytes: &[u8]) -> Option<(ContentRef<'_>, &[u8])>
    ensures { Finds (λ x. (shown_content x.0, x.1.now)) result (read_asked sender bytes.now) }
{
    if sender == 0
        && let Some((request, rest)) = RequestRef::of(bytes)
    {
        return Some((ContentRef::Request(request), rest));
    }
    None
}

// Reads what follows the header: a request if the kind is 9, otherwise a message of the node `sender`.
#[tactic(auto, unfolding(lk_messages::specs::Reading::content_of))]
fn content_of(kind: u8, sender: u32, bytes: &[u8]) -> Option<(ContentRef<'_>, &[u8])>
    ensures { Finds (λ x. (shown_content x.0, x.1.now)) result (content_of kind sender bytes.now) }
{
    if kind == 9 {
        return read_asked(sender, bytes);
    }
    let node = NodeNo::of(sender)?;
    let Some((message, rest)) = read_node_message(kind, bytes) else {
        return None;
    };
    Some((ContentRef::Node(node, message), rest))
}

// Reads a message that takes up all of the bytes.
#[tactic(auto, unfolding(lk_messages::specs::Reading::read_message))]
fn all_of(bytes: &[u8]) -> Option<MessageRef<'_>>
    ensures { Finds shown result (all_of bytes.now) }
{
    let (kind, cluster, sender, rest) = read_header(bytes)?;
    let Some((content, rest)) = content_of(kind, sender, rest) else {
        return None;
    };
    if !rest.is_empty() {
        return None;
    }
    Some(MessageRef { cluster, content })
}

/// Parses the bytes in place: the votes, commands, request or piece of a snapshot in the message are slices of the
/// bytes. Fails exactly if the bytes spell no message.
pub fn view(bytes: &[u8]) -> Result<MessageRef<'_>, Bad>
    // A returned message is spelled by the bytes.
    ensures found { IfOk result (λ m. Spells (shown m) bytes.now) }
    // If the bytes spell a message, it is returned.
    ensures only { (m : Message) → Spells m bytes.now → IsOkAnd result (λ r. shown r ≡ m) }
    // Each slice is at its offset in the bytes.
    ensures offsets { IfOk result (λ m. LieAtTheirOffsets (shown m).content bytes.now) }
{
    let Some(message) = all_of(bytes) else {
        return Err(Bad);
    };
    Ok(message)
}

/// Parses the bytes into a message that owns its parts.
pub fn read(alloc: Global, bytes: &[u8]) -> Result<Message, ReadFault>
    // A returned message is spelled by the bytes.
    ensures found { IfOk result (λ m. Spells m bytes.now) }
    // If the bytes spell a message, it is returned, unless memory runs out.
    ensures only { (m : Message) → Spells m bytes.now → (result ≡ Ok m) ⊎ (result ≡ Err ReadFault.NoMemory) }
    // The bytes are bad exactly if they spell no message.
    ensures bad { result ≡ Err ReadFault.Bad → (m : Message) → Spells m bytes.now → ⊥ }
{
    let Ok(message) = view(bytes) else {
        return Err(ReadFault::Bad);
    };
    match message.copy(alloc) {
        Ok(message) => Ok(message),
        Err(NoMemory) => Err(ReadFault::NoMemory),
    }
}
