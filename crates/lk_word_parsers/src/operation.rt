//! Reads a client's operation.

ghost use Rattle.std.specs.Prelude.{◌≡◌, ◌≤◌, ℕ, List, [], length, IfSome, IsNone};
ghost use Rattle.std.specs.Fmt.{decimal};
ghost use Rattle.lk_types.specs.Ranges.{IsNode, IsPort};
ghost use Rattle.lk_types.specs.declared.command.Op.{Op as OpValue};
ghost use Rattle.lk_word_parsers.specs.Operations.{IsNameWord, body, AsksOfName, AsksOfFence, AsksToJoin, AsksToLeave};
ghost use Rattle.lk_word_parsers.specs.Operations.{AsksToRaise, AsksInHex, SpellsOperation, SpellsOp};

use crate::number::read_number;
use crate::verb::Verb;
use crate::word::split_word;
use arrayvec::ArrayVec;
use lk_types::limits::{MAX_COUNT, MAX_NODE, MAX_PAYLOAD, MAX_PORT};
use lk_types::{NodeNo, Op, Payload, Port};

// The most bytes of a name: with its length, a fence and a first byte it fits a body.
const MAX_NAME_WORD: usize = 54;

// Returns the body of an operation on a name: its first byte, the length of the name, the name, and `rest`. `None` if
// the word is no name of 1 to 54 bytes without a space.
fn body_of(kind: u8, name: &[u8], rest: &[u8]) -> Option<Payload>
    requires { length rest.now ≤ 8 }
    ensures some { IfSome result (λ b. IsNameWord name.now × (b ≡ body kind name.now rest.now)) }
    ensures none { IsNone result → IsNameWord name.now → ⊥ }
{
    if name.is_empty() || name.len() > MAX_NAME_WORD || name.contains(&b' ') {
        return None;
    }
    let mut bytes = ArrayVec::<u8, MAX_PAYLOAD>::new();
    bytes.push(kind);
    bytes.push(name.len() as u8);
    bytes.try_extend_from_slice(name).unwrap();
    bytes.try_extend_from_slice(rest).unwrap();
    Payload::of(bytes.as_slice())
}

// Reads `NAME` as an operation whose body has this first byte.
fn read_name_op(kind: u8, words: &[u8]) -> Option<Op>
    ensures some { IfSome result (AsksOfName kind words.now) }
    ensures none { IsNone result → (o : OpValue) → AsksOfName kind words.now o → ⊥ }
{
    match body_of(kind, words, &[]) {
        Some(body) => Some(Op::Table(body)),
        None => None,
    }
}

// Reads `NAME FENCE` as an operation whose body has this first byte, and the fence in eight bytes at its end.
#[tactic(auto, unfolding(lk_codec::specs::Fields::eight))]
fn read_fence_op(kind: u8, words: &[u8]) -> Option<Op>
    ensures some { IfSome result (AsksOfFence kind words.now) }
    ensures none { IsNone result → (o : OpValue) → AsksOfFence kind words.now o → ⊥ }
{
    let (name, word) = split_word(words)?;
    let fence = read_number(word, MAX_COUNT)?;
    match body_of(kind, name, &fence.to_be_bytes()) {
        Some(body) => Some(Op::Table(body)),
        None => None,
    }
}

/// Reads the number of a node, 1 to 2^31. `None` if the word spells none.
pub fn node_of(word: &[u8]) -> Option<NodeNo>
    ensures some { IfSome result (λ n. IsNode n × (word.now ≡ decimal n)) }
    ensures none { IsNone result → (n : ℕ) → IsNode n → word.now ≡ decimal n → ⊥ }
{
    let number = read_number(word, u64::from(MAX_NODE))?;
    NodeNo::of(number as u32)
}

/// Reads a port, 1 to 65535. `None` if the word spells none.
pub fn port_of(word: &[u8]) -> Option<Port>
    ensures some { IfSome result (λ n. IsPort n × (word.now ≡ decimal n)) }
    ensures none { IsNone result → (n : ℕ) → IsPort n → word.now ≡ decimal n → ⊥ }
{
    let number = read_number(word, u64::from(MAX_PORT))?;
    Port::of(number as u16)
}

// Reads `NODE PORT` as a join.
fn read_join(words: &[u8]) -> Option<Op>
    ensures some { IfSome result (AsksToJoin words.now) }
    ensures none { IsNone result → (o : OpValue) → AsksToJoin words.now o → ⊥ }
{
    let (node, port) = split_word(words)?;
    let Some(node) = node_of(node) else {
        return None;
    };
    match port_of(port) {
        Some(port) => Some(Op::Join(node, port)),
        None => None,
    }
}

// Reads `NODE` as a leave.
fn read_leave(words: &[u8]) -> Option<Op>
    ensures some { IfSome result (AsksToLeave words.now) }
    ensures none { IsNone result → (o : OpValue) → AsksToLeave words.now o → ⊥ }
{
    match node_of(words) {
        Some(node) => Some(Op::Leave(node)),
        None => None,
    }
}

// Reads `2`, the only version to which the lock table can be raised.
fn read_raise(words: &[u8]) -> Option<Op>
    ensures some { IfSome result (AsksToRaise words.now) }
    ensures none { IsNone result → (o : OpValue) → AsksToRaise words.now o → ⊥ }
{
    match words {
        b"2" => Some(Op::Raise),
        _ => None,
    }
}

// Reads hex digits, in either case, as a body of 1 to 64 bytes.
fn read_hex(digits: &[u8]) -> Option<Op>
    ensures some { IfSome result (AsksInHex digits.now) }
    ensures none { IsNone result → (o : OpValue) → AsksInHex digits.now o → ⊥ }
{
    let mut bytes = [0; MAX_PAYLOAD];
    let room = bytes.get_mut(..digits.len() / 2)?;
    hex::decode_to_slice(digits, room).ok()?;
    match Payload::of(room) {
        Some(body) => Some(Op::Table(body)),
        None => None,
    }
}

// Reads the words after a verb. `None` if they do not fit that verb.
fn op_of(verb: Verb, words: &[u8]) -> Option<Op>
    ensures some { IfSome result (SpellsOperation verb words.now) }
    ensures none { IsNone result → (o : OpValue) → SpellsOperation verb words.now o → ⊥ }
{
    match verb {
        Verb::Acquire => read_name_op(1, words),
        Verb::Release => read_fence_op(2, words),
        Verb::Ask => read_name_op(3, words),
        Verb::Check => read_fence_op(4, words),
        Verb::Share => read_name_op(5, words),
        Verb::Break => read_fence_op(6, words),
        Verb::Join => read_join(words),
        Verb::Leave => read_leave(words),
        Verb::Raise => read_raise(words),
        Verb::Raw => read_hex(words),
    }
}

/// The operation that words separated by one space spell: `acquire NAME`, `release NAME FENCE`, `ask NAME`, `check
/// NAME FENCE`, `share NAME`, `break NAME FENCE`, `join NODE PORT`, `leave NODE`, `raise 2` or `raw HEX`, or `None` if
/// they are none of these.
///
/// A name has 1 to 54 bytes, none of them a space, and enters the body unchanged: the lock table checks it. A fence is
/// 0 to 2^48. Numbers are decimal without leading zeros, and the bytes of a raw body are 1 to 64.
pub fn read_operation(text: &[u8]) -> Option<Op>
    ensures some { IfSome result (SpellsOp text.now) }
    ensures none { IsNone result → (o : OpValue) → SpellsOp text.now o → ⊥ }
{
    let (word, words) = split_word(text)?;
    let verb = Verb::of(word)?;
    op_of(verb, words)
}
