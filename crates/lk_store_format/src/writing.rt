// Writing an entry of a file: its only encoding (its spelling). Each `put_` function appends one part of it; out of
// memory it may leave some of that part.
ghost use Rattle.std.specs.Prelude.{◌≡◌, ◌≤◌, ◌+◌, ◌-◌, ◌++◌, ◌∷◌, length, OnOk, IfOk};
ghost use Rattle.std.specs.List.{AllByRecursion};
ghost use Rattle.lk_types.specs.Limits.{max_votes, max_base};
ghost use Rattle.lk_store_format.specs.Entries.{header, snapshot, votes, pairs, standing, base, body, spelling};
ghost use Rattle.lk_store_format.specs.Entries.{spelling_of_all, IsStanding, IsBase, IsEntry, IsStored, plain};
ghost use Rattle.lk_codec.specs.Fields.{four, pair};
ghost use Rattle.lk_store_format.specs.declared.stored.Stored.TheVariants.{Base as base_entry, Plain};

use crate::base::Base;
use crate::header::Header;
use crate::standing::Standing;
use bytes::{BufMut, BytesMut};
use lk_codec::{
    put_any_ballot, put_ballot, put_command, put_executed, put_members, put_node, put_position,
    put_u8, put_u16, put_u32, put_u64, put_vote,
};
use lk_types::{Command, Entry, Position, Vote};
use std::alloc::{AllocError, Global};

fn put_header(out: &mut BytesMut, value: &Header) -> Result<(), AllocError>
    ensures { OnOk result (out.new.items ≡ out.old.items ++ header value.now) }
{
    put_u64(out, value.genesis().cluster)?;
    put_node(out, value.node())?;
    put_u8(out, value.genesis().alpha)?;
    put_members(out, value.genesis().members.as_slice())?;
    Ok(())
}

fn put_snapshot(out: &mut BytesMut, text: &[u8]) -> Result<(), AllocError>
    requires { length text.now ≤ max_base }
    ensures { OnOk result (out.new.items ≡ out.old.items ++ snapshot text.now) }
{
    put_u32(out, text.len() as u32)?;
    out.put_slice(text)?;
    Ok(())
}

fn put_votes(out: &mut BytesMut, list: &[Vote]) -> Result<(), AllocError>
    requires { length list.now ≤ max_votes }
    ensures { OnOk result (out.new.items ≡ out.old.items ++ votes list.now) }
{
    put_u16(out, list.len() as u16)?;
    for vote in list {
        put_vote(out, vote)?;
    }
    Ok(())
}

fn put_pair(out: &mut BytesMut, position: Position, command: &Command) -> Result<(), AllocError>
    ensures { OnOk result (out.new.items ≡ out.old.items ++ pair (position, command.now)) }
{
    put_position(out, position)?;
    put_command(out, command)?;
    Ok(())
}

fn put_pairs(out: &mut BytesMut, list: &[(Position, Command)]) -> Result<(), AllocError>
    requires { length list.now ≤ max_votes }
    ensures { OnOk result (out.new.items ≡ out.old.items ++ pairs list.now) }
{
    put_u16(out, list.len() as u16)?;
    for (position, command) in list {
        put_pair(out, *position, command)?;
    }
    Ok(())
}

// Appends a standing: the promised ballot, the position, the snapshot, the votes and the pairs.
fn put_standing(out: &mut BytesMut, value: &Standing) -> Result<(), AllocError>
    requires { IsStanding value.now }
    ensures { OnOk result (out.new.items ≡ out.old.items ++ standing value.now) }
{
    put_any_ballot(out, value.promised)?;
    put_executed(out, value.position)?;
    put_snapshot(out, &value.snapshot)?;
    put_votes(out, &value.votes)?;
    put_pairs(out, &value.pairs)?;
    Ok(())
}

// Appends the kind and the fields of a Base, without the length in front.
#[tactic(auto, unfolding(crate::specs::Entries::base))]
fn put_base_body(
    out: &mut BytesMut,
    generation: u64,
    format: u8,
    whose: &Header,
    value: &Standing,
) -> Result<(), AllocError>
    requires { IsBase (record { generation = generation; format = format; header = whose.now; standing = value.now }) }
    ensures { OnOk result (out.new.items ≡ out.old.items
        ++ body (base_entry (record {
          generation = generation;
          format = format;
          header = whose.now;
          standing = value.now;
        }))) }
{
    put_u8(out, 1)?;
    put_u64(out, generation)?;
    put_u8(out, format)?;
    put_header(out, whose)?;
    put_standing(out, value)?;
    Ok(())
}

// Appends the kind and the fields of an entry that is no Base, without the length in front.
fn put_plain_body(out: &mut BytesMut, value: &Entry) -> Result<(), AllocError>
    ensures { OnOk result (out.new.items ≡ out.old.items ++ body (Plain value.now)) }
{
    match value {
        Entry::Promise(ballot) => {
            put_u8(out, 2)?;
            put_ballot(out, *ballot)?;
        }
        Entry::Vote(vote) => {
            put_u8(out, 3)?;
            put_vote(out, vote)?;
        }
        Entry::Decided(position, command) => {
            put_u8(out, 4)?;
            put_pair(out, *position, command)?;
        }
    }
    Ok(())
}

// Appends the length of the bytes, in four bytes, and then the bytes.
fn put_length_prefixed(out: &mut BytesMut, text: &[u8]) -> Result<(), AllocError>
    requires { length text.now ≤ max_base - 4 }
    ensures { OnOk result (out.new.items ≡ out.old.items ++ (four (length text.now) ++ text.now)) }
{
    put_u32(out, text.len() as u32)?;
    out.put_slice(text)?;
    Ok(())
}

/// Returns the bytes of a Base with these parts. They are borrowed, so that a store need not build a `Base` to write
/// one.
#[tactic(auto, using(crate::proofs::EntryLaws::body_short), unfolding(crate::specs::Entries::spelling))]
pub fn encode_parts(
    alloc: Global,
    generation: u64,
    format: u8,
    whose: &Header,
    value: &Standing,
) -> Result<BytesMut, AllocError>
    requires { IsStored (base_entry
        (record { generation = generation; format = format; header = whose.now; standing = value.now })) }
    ensures { IfOk result (λ out. out.items
        ≡ spelling (base_entry (record {
          generation = generation;
          format = format;
          header = whose.now;
          standing = value.now;
        }))) }
{
    let mut text = BytesMut::new(alloc);
    put_base_body(&mut text, generation, format, whose, value)?;
    let mut out = BytesMut::new(alloc);
    put_length_prefixed(&mut out, &text)?;
    Ok(out)
}

/// Returns the bytes of a Base as an entry of a file.
pub fn encode_base(alloc: Global, value: &Base) -> Result<BytesMut, AllocError>
    requires { IsStored (base_entry value.now) }
    ensures { IfOk result (λ out. out.items ≡ spelling (base_entry value.now)) }
{
    encode_parts(
        alloc,
        value.generation,
        value.format,
        &value.header,
        &value.standing,
    )
}

// Shows the prover that each part of an entry is in its range. Does nothing at run time.
fn entry_facts(entry: &Entry)
    ensures { IsEntry entry.now }
{
    match entry {
        Entry::Promise(ballot) => {
            let _ = ballot.get();
        }
        Entry::Vote(vote) => vote.facts(),
        Entry::Decided(position, command) => {
            let _ = position.get();
            command.facts();
        }
    }
}

/// Shows the prover that each entry is valid in a file. Does nothing at run time.
pub fn entries_facts(entries: &[Entry])
    ensures { AllByRecursion IsStored (plain entries.now) }
{
    for entry in entries {
        entry_facts(entry);
    }
}

// Appends an entry that is no Base, with its length in front.
#[tactic(auto, using(crate::proofs::EntryLaws::plain_short), unfolding(crate::specs::Entries::spelling))]
fn put_plain(alloc: Global, out: &mut BytesMut, entry: &Entry) -> Result<(), AllocError>
    ensures { OnOk result (out.new.items ≡ out.old.items ++ spelling (Plain entry.now)) }
{
    entry_facts(entry);
    let mut text = BytesMut::new(alloc);
    put_plain_body(&mut text, entry)?;
    put_length_prefixed(out, &text)?;
    Ok(())
}

/// Returns the bytes of entries, one after the other, as a file has them after its Base.
pub fn encode(alloc: Global, entries: &[Entry]) -> Result<BytesMut, AllocError>
    ensures { IfOk result (λ out. out.items ≡ spelling_of_all (plain entries.now)) }
{
    let mut out = BytesMut::new(alloc);
    for entry in entries {
        put_plain(alloc, &mut out, entry)?;
    }
    Ok(out)
}
