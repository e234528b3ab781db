// Writes watches and notices as datagrams. Numbers are big-endian; each `put_..` appends one field, and requires room.
ghost use Rattle.std.specs.Prelude.{◌≡◌, ◌≤◌, ◌+◌, ◌++◌, [], length};
ghost use Rattle.arrayvec.specs.ArrayVec.{array_vec_len};
ghost use Rattle.lk_codec.specs.Fields.{one, two, four, eight};
ghost use Rattle.lk_watch.specs.Grammar.{mode_number, news_number, name_field, ticket, front, watch_spelling};
ghost use Rattle.lk_watch.specs.Grammar.{notice_spelling};

use crate::datagram::{LENGTH, WatchDatagram};
use crate::notice::{News, Notice};
use crate::ticket::{Mode, Ticket};
use crate::watch::Watch;
use arrayvec::ArrayVec;
use lk_locks::Name;
use lk_types::limits::MAX_NAME;

/// The length of the field of a name: a byte for its length, and the most bytes of a name.
pub const NAME_FIELD: usize = 1 + MAX_NAME;

// The bytes of a datagram that have been written so far.
type Bytes = ArrayVec<u8, LENGTH>;

fn put(out: &mut Bytes, bytes: &[u8])
    requires { array_vec_len out.old + length bytes.now ≤ LENGTH }
    ensures items { out.new.items ≡ out.old.items ++ bytes.now }
    ensures len { array_vec_len out.new ≡ array_vec_len out.old + length bytes.now }
{
    out.try_extend_from_slice(bytes).unwrap();
}

fn put_u8(out: &mut Bytes, value: u8)
    requires { array_vec_len out.old + 1 ≤ LENGTH }
    ensures items { out.new.items ≡ out.old.items ++ one value }
    ensures len { array_vec_len out.new ≡ array_vec_len out.old + 1 }
{
    put(out, &[value]);
}

#[tactic(auto, unfolding(lk_codec::specs::Fields::two))]
fn put_u16(out: &mut Bytes, value: u16)
    requires { array_vec_len out.old + 2 ≤ LENGTH }
    ensures items { out.new.items ≡ out.old.items ++ two value }
    ensures len { array_vec_len out.new ≡ array_vec_len out.old + 2 }
{
    put(out, &value.to_be_bytes());
}

#[tactic(auto, unfolding(lk_codec::specs::Fields::four))]
fn put_u32(out: &mut Bytes, value: u32)
    requires { array_vec_len out.old + 4 ≤ LENGTH }
    ensures items { out.new.items ≡ out.old.items ++ four value }
    ensures len { array_vec_len out.new ≡ array_vec_len out.old + 4 }
{
    put(out, &value.to_be_bytes());
}

#[tactic(auto, unfolding(lk_codec::specs::Fields::eight))]
fn put_u64(out: &mut Bytes, value: u64)
    requires { array_vec_len out.old + 8 ≤ LENGTH }
    ensures items { out.new.items ≡ out.old.items ++ eight value }
    ensures len { array_vec_len out.new ≡ array_vec_len out.old + 8 }
{
    put(out, &value.to_be_bytes());
}

// Returns the number of a mode.
fn mode_number(mode: Mode) -> u8
    ensures { result ≡ mode_number mode }
{
    match mode {
        Mode::Exclusive => 1,
        Mode::Share => 2,
    }
}

// Returns the number of what a node says.
fn news_number(news: News) -> u8
    ensures { result ≡ news_number news }
{
    match news {
        News::Free => 1,
        News::Held => 2,
        News::NotHere => 3,
    }
}

// Appends the length of a name, its bytes, and zeros up to 33 bytes.
#[tactic(auto, unfolding(crate::specs::Grammar::name_field))]
fn put_name(out: &mut Bytes, name: &Name)
    requires { array_vec_len out.old + 33 ≤ LENGTH }
    ensures items { out.new.items ≡ out.old.items ++ name_field name.now }
    ensures len { array_vec_len out.new ≡ array_vec_len out.old + 33 }
{
    let bytes = name.as_slice();
    let zeros = [0; MAX_NAME];
    put_u8(out, bytes.len() as u8);
    put(out, bytes);
    put(out, &zeros[bytes.len()..]);
}

fn put_ticket(out: &mut Bytes, value: &Ticket)
    requires { array_vec_len out.old + 52 ≤ LENGTH }
    ensures items { out.new.items ≡ out.old.items ++ ticket value.now }
    ensures len { array_vec_len out.new ≡ array_vec_len out.old + 52 }
{
    put_u16(out, value.client.get());
    put_u64(out, value.number);
    put_u64(out, value.fence.get());
    put_u8(out, mode_number(value.mode));
    put_name(out, &value.name);
}

// Returns the first four bytes: `LW`, the version, and the kind, 9 for a watch or 10 for a notice.
fn with_header(kind: u8) -> Bytes
    ensures items { result.items ≡ front kind [] }
    ensures len { array_vec_len result ≡ 4 }
{
    let mut out = ArrayVec::new();
    put(&mut out, &[b'L', b'W', 1, kind]);
    out
}

// Returns the datagram of all its bytes.
fn written(bytes: &Bytes) -> WatchDatagram
    requires { array_vec_len bytes.now ≡ LENGTH }
    ensures { result ≡ bytes.now.items }
{
    let mut datagram = [0; LENGTH];
    datagram.copy_from_slice(bytes.as_slice());
    WatchDatagram::of(&datagram)
}

/// Returns the datagram of a watch.
pub fn write_watch(value: &Watch) -> WatchDatagram
    ensures { result ≡ watch_spelling value.now }
{
    let mut out = with_header(9);
    put_u64(&mut out, value.cluster);
    put_u32(&mut out, 0);
    put_ticket(&mut out, &value.ticket);
    put_u8(&mut out, value.periods);
    put_u16(&mut out, 0);
    written(&out)
}

/// Returns the datagram of a notice.
pub fn write_notice(value: &Notice) -> WatchDatagram
    ensures { result ≡ notice_spelling value.now }
{
    let mut out = with_header(10);
    put_u64(&mut out, value.cluster);
    put_u32(&mut out, value.node.get());
    put_ticket(&mut out, &value.ticket);
    put_u8(&mut out, news_number(value.news));
    put_u16(&mut out, value.place);
    written(&out)
}
