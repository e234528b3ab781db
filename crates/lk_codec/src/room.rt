//! The most bytes that each field takes.

use lk_types::limits::{MAX_MEMBERS, MAX_PAYLOAD};

/// A round and a node.
pub const BALLOT: usize = 8 + 4;
/// A node and a port.
pub const MEMBER: usize = 4 + 2;
/// How many, and the most members.
pub const MEMBERS: usize = 1 + MEMBER * MAX_MEMBERS;
/// The tag of an op, and the longest op: the length and the bytes of a payload.
pub const OP: usize = 1 + 1 + MAX_PAYLOAD;
/// A client, a number and an op.
pub const REQUEST: usize = 2 + 8 + OP;
/// The tag of a command, and the request.
pub const COMMAND: usize = 1 + REQUEST;
/// A position, a ballot and a command.
pub const VOTE: usize = 8 + BALLOT + COMMAND;
/// The tag of an answer, and the longest answer: a holder and its fence.
pub const ANSWER: usize = 1 + 2 + 8;
