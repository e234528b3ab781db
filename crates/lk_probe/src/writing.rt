// Writes probes and reports as datagrams. Numbers are big-endian; each `put_..` appends one field, and requires room.
ghost use Rattle.std.specs.Prelude.{◌≡◌, ◌≤◌, ◌+◌, ◌*◌, ◌++◌, [], is_some, length};
ghost use Rattle.arrayvec.specs.ArrayVec.{array_vec_len};
ghost use Rattle.lk_types.specs.Limits.{max_members};
ghost use Rattle.lk_codec.specs.Fields.{one, two, four, eight, ballot, member, members};
ghost use Rattle.lk_probe.specs.Grammar.{probe_length, flag, genesis_in, or_zero, version, identity, leadership};
ghost use Rattle.lk_probe.specs.Grammar.{progress, traffic, status, form, front, probe, report, padded, probe_spelling};
ghost use Rattle.lk_probe.specs.Grammar.{report_spelling, blank, heard_number, reach, reach_in, reach_length};
ghost use Rattle.lk_probe.specs.Grammar.{state_digest};

use crate::datagram::{ProbeDatagram, form_number};
use crate::neighbours::Origin;
use crate::probe::{Probe, Report};
use crate::reach::Reach;
use crate::state_digest::StateDigest;
use crate::status::{
    DIGEST, Identity, LENGTH, Leadership, Progress, REACH, Status, Traffic, Version,
};
use arrayvec::ArrayVec;
use lk_types::{Ballot, ClientNo, Member, NodeNo};

// The bytes of a datagram that have been written so far.
type Bytes = ArrayVec<u8, LENGTH>;

fn put(out: &mut Bytes, bytes: &[u8])
    requires { array_vec_len out.old + length bytes.now ≤ probe_length }
    ensures items { out.new.items ≡ out.old.items ++ bytes.now }
    ensures len { array_vec_len out.new ≡ array_vec_len out.old + length bytes.now }
{
    out.try_extend_from_slice(bytes).unwrap();
}

fn put_u8(out: &mut Bytes, value: u8)
    requires { array_vec_len out.old + 1 ≤ probe_length }
    ensures items { out.new.items ≡ out.old.items ++ one value }
    ensures len { array_vec_len out.new ≡ array_vec_len out.old + 1 }
{
    put(out, &[value]);
}

#[tactic(auto, unfolding(lk_codec::specs::Fields::two))]
fn put_u16(out: &mut Bytes, value: u16)
    requires { array_vec_len out.old + 2 ≤ probe_length }
    ensures items { out.new.items ≡ out.old.items ++ two value }
    ensures len { array_vec_len out.new ≡ array_vec_len out.old + 2 }
{
    put(out, &value.to_be_bytes());
}

#[tactic(auto, unfolding(lk_codec::specs::Fields::four))]
fn put_u32(out: &mut Bytes, value: u32)
    requires { array_vec_len out.old + 4 ≤ probe_length }
    ensures items { out.new.items ≡ out.old.items ++ four value }
    ensures len { array_vec_len out.new ≡ array_vec_len out.old + 4 }
{
    put(out, &value.to_be_bytes());
}

#[tactic(auto, unfolding(lk_codec::specs::Fields::eight))]
fn put_u64(out: &mut Bytes, value: u64)
    requires { array_vec_len out.old + 8 ≤ probe_length }
    ensures items { out.new.items ≡ out.old.items ++ eight value }
    ensures len { array_vec_len out.new ≡ array_vec_len out.old + 8 }
{
    put(out, &value.to_be_bytes());
}

// Appends the number of a node, four zeros for none.
fn put_maybe_node(out: &mut Bytes, node: Option<NodeNo>)
    requires { array_vec_len out.old + 4 ≤ probe_length }
    ensures items { out.new.items ≡ out.old.items ++ four (or_zero node) }
    ensures len { array_vec_len out.new ≡ array_vec_len out.old + 4 }
{
    match node {
        Some(node) => put_u32(out, node.get()),
        None => put_u32(out, 0),
    }
}

// Appends the number of a client, two zeros for none.
fn put_maybe_client(out: &mut Bytes, client: Option<ClientNo>)
    requires { array_vec_len out.old + 2 ≤ probe_length }
    ensures items { out.new.items ≡ out.old.items ++ two (or_zero client) }
    ensures len { array_vec_len out.new ≡ array_vec_len out.old + 2 }
{
    match client {
        Some(client) => put_u16(out, client.get()),
        None => put_u16(out, 0),
    }
}

// Appends the digest of the asking node's genesis, 32 zeros if no node asks.
fn put_genesis(out: &mut Bytes, origin: &Option<Origin>)
    requires { array_vec_len out.old + 32 ≤ probe_length }
    ensures items { out.new.items ≡ out.old.items ++ genesis_in origin.now }
    ensures len { array_vec_len out.new ≡ array_vec_len out.old + 32 }
{
    match origin {
        Some(origin) => put(out, &origin.genesis),
        None => put(out, &[0; DIGEST]),
    }
}

fn put_version(out: &mut Bytes, value: Version)
    requires { array_vec_len out.old + 3 ≤ probe_length }
    ensures items { out.new.items ≡ out.old.items ++ version value }
    ensures len { array_vec_len out.new ≡ array_vec_len out.old + 3 }
{
    put_u8(out, value.major);
    put_u8(out, value.minor);
    put_u8(out, value.patch);
}

fn put_identity(out: &mut Bytes, value: &Identity)
    requires { array_vec_len out.old + 37 ≤ probe_length }
    ensures items { out.new.items ≡ out.old.items ++ identity value.now }
    ensures len { array_vec_len out.new ≡ array_vec_len out.old + 37 }
{
    put(out, &value.genesis);
    put_version(out, value.program);
    put_u8(out, value.format);
    put_u8(out, value.table);
}

// Appends a ballot, which may be `Ballot::ZERO`: its round, then its node.
fn put_any_ballot(out: &mut Bytes, value: Ballot)
    requires { array_vec_len out.old + 12 ≤ probe_length }
    ensures items { out.new.items ≡ out.old.items ++ ballot value }
    ensures len { array_vec_len out.new ≡ array_vec_len out.old + 12 }
{
    put_u64(out, value.round());
    put_u32(out, value.node());
}

fn put_flag(out: &mut Bytes, value: bool)
    requires { array_vec_len out.old + 1 ≤ probe_length }
    ensures items { out.new.items ≡ out.old.items ++ one (flag value) }
    ensures len { array_vec_len out.new ≡ array_vec_len out.old + 1 }
{
    if value {
        put_u8(out, 1);
    } else {
        put_u8(out, 0);
    }
}

fn put_leadership(out: &mut Bytes, value: &Leadership)
    requires { array_vec_len out.old + 25 ≤ probe_length }
    ensures items { out.new.items ≡ out.old.items ++ leadership value.now }
    ensures len { array_vec_len out.new ≡ array_vec_len out.old + 25 }
{
    put_flag(out, value.leads);
    put_maybe_node(out, value.leader);
    put_u64(out, value.silence);
    put_any_ballot(out, value.promised);
}

fn put_progress(out: &mut Bytes, value: &Progress)
    requires { array_vec_len out.old + 17 ≤ probe_length }
    ensures items { out.new.items ≡ out.old.items ++ progress value.now }
    ensures len { array_vec_len out.new ≡ array_vec_len out.old + 17 }
{
    put_u64(out, value.executed.get());
    put_u64(out, value.snapshot.get());
    put_u8(out, value.pending);
}

fn put_traffic(out: &mut Bytes, value: &Traffic)
    requires { array_vec_len out.old + 26 ≤ probe_length }
    ensures items { out.new.items ≡ out.old.items ++ traffic value.now }
    ensures len { array_vec_len out.new ≡ array_vec_len out.old + 26 }
{
    put_u16(out, value.waiting);
    put_u64(out, value.unread);
    put_u64(out, value.unsent);
    put_u64(out, value.ticks);
}

fn put_member(out: &mut Bytes, value: Member)
    requires { array_vec_len out.old + 6 ≤ probe_length }
    ensures items { out.new.items ≡ out.old.items ++ member value }
    ensures len { array_vec_len out.new ≡ array_vec_len out.old + 6 }
{
    put_u32(out, value.node.get());
    put_u16(out, value.port.get());
}

// Appends how many members there are, then each of them.
fn put_members(out: &mut Bytes, list: &[Member])
    requires few { length list.now ≤ max_members }
    requires room { array_vec_len out.old + 43 ≤ probe_length }
    ensures items { out.new.items ≡ out.old.items ++ members list.now }
    ensures len { array_vec_len out.new ≡ array_vec_len out.old + 1 + 6 * length list.now }
{
    put_u8(out, list.len() as u8);
    for member in list {
        put_member(out, *member);
    }
}

fn put_status(out: &mut Bytes, value: &Status)
    requires { array_vec_len out.old + 148 ≤ probe_length }
    ensures { out.new.items ≡ out.old.items ++ status value.now }
{
    value.members.facts();
    put_identity(out, &value.identity);
    put_leadership(out, &value.leadership);
    put_progress(out, &value.progress);
    put_traffic(out, &value.traffic);
    put_members(out, value.members.as_slice());
}

// Appends how many members are heard, plus 1; two zeros if that is not known.
fn put_heard(out: &mut Bytes, heard: Option<u8>)
    requires { array_vec_len out.old + 2 ≤ probe_length }
    ensures items { out.new.items ≡ out.old.items ++ two (heard_number heard) }
    ensures len { array_vec_len out.new ≡ array_vec_len out.old + 2 }
{
    match heard {
        Some(count) => put_u16(out, u16::from(count) + 1),
        None => put_u16(out, 0),
    }
}

// Appends the digest of a state, after its position.
fn put_state_digest(out: &mut Bytes, value: &StateDigest)
    requires { array_vec_len out.old + 24 ≤ probe_length }
    ensures items { out.new.items ≡ out.old.items ++ state_digest value.now }
    ensures len { array_vec_len out.new ≡ array_vec_len out.old + 24 }
{
    put_u64(out, value.position.get());
    put(out, &value.digest);
}

// Returns the bytes of a reach.
fn reach_bytes(value: &Reach) -> Bytes
    ensures items { result.items ≡ reach value.now }
    ensures len { array_vec_len result ≡ reach_length }
{
    let mut out = ArrayVec::new();
    put_heard(&mut out, value.heard);
    put_flag(&mut out, value.reads_bundles);
    put_flag(&mut out, value.sends_bundles);
    put_u16(&mut out, value.watches);
    put_u16(&mut out, value.names);
    put_state_digest(&mut out, &value.state);
    out
}

// Returns what a report has after the bytes of form 1: its reach, if it has one.
fn tail_of(value: &Option<Reach>) -> Bytes
    ensures items { result.items ≡ reach_in value.now }
    ensures len { array_vec_len result ≤ reach_length }
{
    match value {
        Some(reach) => reach_bytes(reach),
        None => ArrayVec::new(),
    }
}

// Returns what a probe has after the bytes of form 1: zeros in place of a reach, if it asks for one.
fn blank_of(asks_reach: bool) -> Bytes
    ensures items { result.items ≡ blank asks_reach }
    ensures len { array_vec_len result ≤ reach_length }
{
    let mut out = ArrayVec::new();
    if asks_reach {
        put(&mut out, &[0; REACH]);
    }
    out
}

// Returns the first four bytes: `LP`, the form, and the kind, 9 for a probe or 10 for a report.
fn with_header(has_reach: bool, kind: u8) -> Bytes
    ensures items { result.items ≡ front (form has_reach) kind [] }
    ensures len { array_vec_len result ≡ 4 }
{
    let mut out = ArrayVec::new();
    put(&mut out, &[b'L', b'P', form_number(has_reach), kind]);
    out
}

// Returns what is written, with zeros up to `LENGTH`.
#[tactic(auto, unfolding(crate::specs::Grammar::padded))]
fn filled(written: &Bytes) -> [u8; LENGTH]
    ensures { result ≡ padded written.now.items }
{
    let written = written.as_slice();
    let mut bytes = [0; LENGTH];
    bytes[..written.len()].copy_from_slice(written);
    bytes
}

/// Returns the datagram of a probe.
pub fn write_probe(value: &Probe) -> ProbeDatagram
    ensures { result ≡ probe_spelling value.now }
{
    let mut out = with_header(value.asks_reach, 9);
    put_u64(&mut out, value.cluster);
    put_maybe_node(&mut out, value.node());
    put_maybe_client(&mut out, value.client);
    put_u64(&mut out, value.token);
    put_genesis(&mut out, &value.origin);
    ProbeDatagram::of(&filled(&out), blank_of(value.asks_reach).as_slice())
}

/// Returns the datagram of a report.
pub fn write_report(value: &Report) -> ProbeDatagram
    ensures { result ≡ report_spelling value.now }
{
    let mut out = with_header(value.reach.is_some(), 10);
    put_u64(&mut out, value.cluster);
    put_u32(&mut out, value.node.get());
    put_maybe_client(&mut out, value.client);
    put_u64(&mut out, value.token);
    put_status(&mut out, &value.status);
    ProbeDatagram::of(&filled(&out), tail_of(&value.reach).as_slice())
}
