//! Encodes and decodes the fields that datagrams, store entries and packed states share: `put_x` appends the canonical
//! bytes of a field, `read_x` parses a field at the start of some bytes, and `skip_x` passes over one.
#![tactic(auto)]

mod put;
mod read;
pub mod room;
mod skip;

pub use put::{
    put_answer, put_any_ballot, put_ballot, put_client, put_command, put_executed, put_fence,
    put_member, put_members, put_node, put_number, put_position, put_request, put_u8, put_u16,
    put_u32, put_u64, put_vote,
};
pub use read::{
    read_answer, read_any_ballot, read_ballot, read_client, read_command, read_executed,
    read_fence, read_member, read_members, read_node, read_number, read_op, read_position,
    read_request, read_u8, read_u16, read_u32, read_u64, read_vote,
};
pub use skip::{front_of, skip_command, skip_request, skip_vote};
