//! The limits that all crates share, each with its reason. `specs/Limits.antt` has the same numbers for contracts.

/// Rounds, positions, fences, request numbers and generations: 2^48, so that sums of them fit 64 bits with room.
pub const MAX_COUNT: u64 = 1 << 48;
/// Numbers of nodes: 2^31, so that the next one still fits 32 bits.
pub const MAX_NODE: u32 = 1 << 31;
/// Clients, and therefore sessions of a state.
pub const MAX_CLIENT: u16 = 256;
/// The last UDP port.
pub const MAX_PORT: u16 = 65_535;
/// The greatest alpha, unless the genesis is wide: how many positions ahead of the executed ones the members are known.
pub const MAX_ALPHA: u8 = 16;
/// The greatest alpha of a wide genesis: its votes and pairs still fit a Base, beside the longest machine.
pub const MAX_WIDE_ALPHA: u8 = 64;
/// Positions whose members are known, and at which proposals may be open at once.
pub const MAX_WINDOW: usize = MAX_WIDE_ALPHA as usize;
/// Members of a position.
pub const MAX_MEMBERS: usize = 7;
/// Bytes of a payload.
pub const MAX_PAYLOAD: usize = 64;
/// Names in a table.
pub const MAX_NAMES: usize = 512;
/// Clients that share a name at once: their numbers are in an array of fixed size.
pub const MAX_SHARERS: u8 = 8;
/// Bytes of a name: with its length, a fence and the op it fits a payload.
pub const MAX_NAME: usize = 32;
/// Votes, or decided commands, of a Base, and votes of a Promise: none is more than twice alpha above what is executed.
pub const MAX_VOTES: usize = 2 * MAX_WINDOW;
/// Commands of one Decided, of a wide genesis too: so what a step appends is as short as ever.
pub const MAX_COMMANDS: usize = 16;
/// Bytes of a snapshot in one Part.
pub const MAX_PART: usize = 1024;
/// Bytes of the longest datagram that is received; every one that is sent is shorter.
pub const MAX_DATAGRAM: usize = 16 * 1024;
/// The most bytes of a packed machine: up to alpha 32 its state, with members, sessions, votes and pairs, then fits a
/// Base of 48 KiB.
pub const MAX_MACHINE: usize = 30_631;
/// Bytes of a Base including its length field, and so of the snapshot in it. Up to alpha 32 no Base has more than 48
/// KiB.
pub const MAX_BASE: usize = 64 * 1024;
/// The greatest length that a torn entry at the end of a file may state; a greater one is damage. No entry states more:
/// a Base, the longest, states its length without the four bytes of the length field.
pub const MAX_TORN: usize = 64 * 1024;
