// Skips fields: consumes exactly the bytes that reading would, and refuses the same ones, but builds no values.
ghost use Rattle.std.specs.Prelude.{◌≡◌, ◌-◌, length, take};
ghost use Rattle.lk_codec.specs.Parser.{Finds, made};
ghost use Rattle.lk_codec.specs.FieldReading.{read_payload, read_op, read_request, read_command, read_vote};
ghost use Rattle.lk_codec.specs.Parser.{past};

use crate::read::{
    read_ballot, read_client, read_member, read_node, read_number, read_position, read_u8,
};
use lk_types::Position;
use lk_types::limits::MAX_PAYLOAD;

// Returns the bytes after a payload, or `None` if none is at the start.
#[tactic(auto, unfolding(crate::specs::FieldReading::read_payload))]
fn skip_payload(bytes: &[u8]) -> Option<&[u8]>
    ensures { Finds (λ x. x.now) result (past read_payload bytes.now) }
{
    let (length, rest) = read_u8(bytes)?;
    let length = length as usize;
    if length < 1 || length > MAX_PAYLOAD || rest.len() < length {
        return None;
    }
    Some(rest.split_at(length).1)
}

// Returns the bytes after an op, or `None` if none is at the start.
#[tactic(auto, unfolding(crate::specs::FieldReading::op_of, crate::specs::FieldReading::read_version))]
fn skip_op(bytes: &[u8]) -> Option<&[u8]>
    ensures { Finds (λ x. x.now) result (past read_op bytes.now) }
{
    let (tag, rest) = read_u8(bytes)?;
    match tag {
        0 => skip_payload(rest),
        1 => {
            let Some((_, rest)) = read_member(rest) else {
                return None;
            };
            Some(rest)
        }
        2 => {
            let Some((_, rest)) = read_node(rest) else {
                return None;
            };
            Some(rest)
        }
        3 => {
            let (version, rest) = read_u8(rest)?;
            if version == 2 { Some(rest) } else { None }
        }
        _ => None,
    }
}

/// Returns the bytes after a request, or `None` if none is at the start.
#[tactic(auto, unfolding(crate::specs::FieldReading::read_request))]
pub fn skip_request(bytes: &[u8]) -> Option<&[u8]>
    ensures { Finds (λ x. x.now) result (past read_request bytes.now) }
{
    if let Some((_, rest)) = read_client(bytes)
        && let Some((_, rest)) = read_number(rest)
    {
        return skip_op(rest);
    }
    None
}

/// Returns the bytes after a command, or `None` if none is at the start.
#[tactic(auto, unfolding(crate::specs::FieldReading::command_of))]
pub fn skip_command(bytes: &[u8]) -> Option<&[u8]>
    ensures { Finds (λ x. x.now) result (past read_command bytes.now) }
{
    let (tag, rest) = read_u8(bytes)?;
    match tag {
        0 => Some(rest),
        1 => skip_request(rest),
        _ => None,
    }
}

/// Returns the position of a vote and the bytes after the vote, or `None` if no vote is at the start.
#[tactic(auto, unfolding(crate::specs::FieldReading::read_vote))]
pub fn skip_vote(bytes: &[u8]) -> Option<(Position, &[u8])>
    ensures { Finds (λ x. (x.0, x.1.now)) result (made (λ v. v.position) read_vote bytes.now) }
{
    if let Some((position, rest)) = read_position(bytes)
        && let Some((_, rest)) = read_ballot(rest)
        && let Some(rest) = skip_command(rest)
    {
        return Some((position, rest));
    }
    None
}

/// Returns the bytes without the last ones: the part that a parser consumed if it left `rest`. Only the lengths count.
pub fn front_of<'a>(bytes: &'a [u8], rest: &[u8]) -> &'a [u8]
    ensures { result.now ≡ take (length bytes.now - length rest.now) bytes.now }
{
    bytes.split_at(bytes.len().saturating_sub(rest.len())).0
}
