//! A name and its lock entry as bytes, read and written: one format for a raised table, another for one that is not.
ghost use Rattle.std.specs.Prelude.{◌≡◌, ◌<◌, ◌≤◌, [], ◌∷◌, ◌++◌, true, false, length, OnOk, OnErr, IfSome};
ghost use Rattle.lk_types.specs.Limits.{max_sharers};
ghost use Rattle.lk_codec.specs.Fields.{two};
ghost use Rattle.lk_codec.specs.FieldReading.{read_client};
ghost use Rattle.lk_codec.specs.Parser.{Finds, many, tagged};
ghost use Rattle.lk_codec.specs.Fronts.{KeepsFront};
ghost use Rattle.lk_locks.specs.Bodies.{lock_name};
ghost use Rattle.lk_locks.specs.Holders.{is_kept};
ghost use Rattle.lk_locks.specs.Packed.{holder_number, sharers, holders, lock_entry, entry, read_holder, read_sharers};
ghost use Rattle.lk_locks.specs.Packed.{holders_of, read_holders, read_lock_entry, read_entry};

use crate::body::read_name;
use crate::lock_entry::{Holders, LockEntry};
use crate::name::Name;
use crate::sharers::Sharers;
use arrayvec::ArrayVec;
use bytes::{BufMut, BytesMut};
use lk_codec::{
    put_client, put_fence, put_u8, put_u16, read_client, read_fence, read_u8, read_u16,
};
use lk_types::ClientNo;
use lk_types::limits::MAX_SHARERS;
use std::alloc::AllocError;

// Reads who holds a name, in a table that was not raised: a client in two bytes, 0 for nobody.
#[tactic(auto, unfolding(crate::specs::Packed::read_holder))]
fn read_holder(bytes: &[u8]) -> Option<(Holders, &[u8])>
    ensures read { Finds (λ x. (x.0, x.1.now)) result (read_holder bytes.now) }
    ensures kept { IfSome result (λ x. is_kept false x.0 ≡ true) }
{
    let (number, rest) = read_u16(bytes)?;
    if number == 0 {
        return Some((Holders::Nobody, rest));
    }
    let Some(client) = ClientNo::of(number) else {
        return None;
    };
    Some((Holders::ExclusiveHold(client), rest))
}

// Appends a client to a list that is not full.
fn push(clients: &mut ArrayVec<ClientNo, 8>, client: ClientNo)
    requires { length clients.old.items < max_sharers }
    ensures { clients.new.items ≡ clients.old.items ++ client ∷ [] }
{
    clients.push(client);
}

// Reads this many clients, in any order.
fn many_clients(count: u8, bytes: &[u8]) -> Option<(ArrayVec<ClientNo, 8>, &[u8])>
    requires { count ≤ max_sharers }
    ensures read { Finds (λ x. (x.0.items, x.1.now)) result (many read_client count bytes.now) }
    ensures count { IfSome result (λ x. length x.0.items ≡ count) }
{
    let mut clients = ArrayVec::new();
    let mut rest = bytes;
    for _ in 0..count {
        let Some(found) = read_client(rest) else {
            return None;
        };
        push(&mut clients, found.0);
        rest = found.1;
    }
    Some((clients, rest))
}

// Reads how many sharers there are, 1 to 8, and then each, rising.
#[tactic(auto, unfolding(crate::specs::Packed::read_sharers))]
fn read_sharers(bytes: &[u8]) -> Option<(Sharers, &[u8])>
    ensures { Finds (λ x. (x.0, x.1.now)) result (read_sharers bytes.now) }
{
    let (count, rest) = read_u8(bytes)?;
    if count < 1 || count > MAX_SHARERS {
        return None;
    }
    let Some((clients, rest)) = many_clients(count, rest) else {
        return None;
    };
    let Some(clients) = Sharers::of(clients) else {
        return None;
    };
    Some((clients, rest))
}

// Reads who holds a name, in a raised table: a mode, 0 for nobody, 1 for one client and 2 for sharers, and then those.
#[tactic(auto, unfolding(crate::specs::Packed::holders_of))]
fn read_mode(bytes: &[u8]) -> Option<(Holders, &[u8])>
    ensures read { Finds (λ x. (x.0, x.1.now)) result (tagged holders_of bytes.now) }
    ensures kept { IfSome result (λ x. is_kept true x.0 ≡ true) }
{
    let (mode, rest) = read_u8(bytes)?;
    match mode {
        0 => Some((Holders::Nobody, rest)),
        1 => {
            let Some((client, rest)) = read_client(rest) else {
                return None;
            };
            Some((Holders::ExclusiveHold(client), rest))
        }
        2 => {
            let Some((clients, rest)) = read_sharers(rest) else {
                return None;
            };
            Some((Holders::SharedHold(clients), rest))
        }
        _ => None,
    }
}

// Reads who holds a name, in the format of a raised table or of one that is not.
fn read_holders(raised: bool, bytes: &[u8]) -> Option<(Holders, &[u8])>
    ensures read { Finds (λ x. (x.0, x.1.now)) result (read_holders raised bytes.now) }
    ensures kept { IfSome result (λ x. is_kept raised x.0 ≡ true) }
{
    if raised {
        read_mode(bytes)
    } else {
        read_holder(bytes)
    }
}

// Reads the last fence of a name, and who holds it.
#[tactic(auto, unfolding(crate::specs::Packed::read_lock_entry))]
fn read_lock_entry(raised: bool, bytes: &[u8]) -> Option<(LockEntry, &[u8])>
    ensures read { Finds (λ x. (x.0, x.1.now)) result (read_lock_entry raised bytes.now) }
    ensures kept { IfSome result (λ x. is_kept raised x.0.holders ≡ true) }
{
    let Some((fence, rest)) = read_fence(bytes) else {
        return None;
    };
    let Some((holders, rest)) = read_holders(raised, rest) else {
        return None;
    };
    Some((LockEntry { fence, holders }, rest))
}

/// Reads a name and its lock entry, in the format of a raised table or of one that is not.
#[tactic(auto, unfolding(crate::specs::Packed::read_entry))]
pub fn read_entry(raised: bool, bytes: &[u8]) -> Option<(Name, LockEntry, &[u8])>
    ensures read { Finds (λ x. ((x.0, x.1), x.2.now)) result (read_entry raised bytes.now) }
    ensures kept { IfSome result (λ x. is_kept raised x.1.holders ≡ true) }
{
    let Some((name, rest)) = read_name(bytes) else {
        return None;
    };
    let Some((lock_entry, rest)) = read_lock_entry(raised, rest) else {
        return None;
    };
    Some((name, lock_entry, rest))
}

// Appends the length of a name in a byte, and its bytes. Out of memory, each `put_` of this file may leave a prefix.
#[tactic(auto, using(lk_codec::proofs::Spellings::keeps_same, lk_codec::proofs::Spellings::keeps_behind))]
fn put_name(out: &mut BytesMut, name: &Name) -> Result<(), AllocError>
    ensures ok { OnOk result (out.new.items ≡ out.old.items ++ lock_name name.now) }
    ensures err { OnErr result (KeepsFront out.old.items out.new.items) }
{
    let bytes = name.as_slice();
    put_u8(out, bytes.len() as u8)?;
    out.put_slice(bytes)?;
    Ok(())
}

// Appends who holds a name, in a table that was not raised: a client in two bytes, 0 for nobody. Such a table has no
// sharers.
#[tactic(auto, using(lk_codec::proofs::Spellings::keeps_same))]
fn put_holder(out: &mut BytesMut, value: &Holders) -> Result<(), AllocError>
    ensures ok { OnOk result (out.new.items ≡ out.old.items ++ two (holder_number value.now)) }
    ensures err { OnErr result (KeepsFront out.old.items out.new.items) }
{
    let number = match value {
        Holders::ExclusiveHold(client) => client.get(),
        Holders::Nobody | Holders::SharedHold(_) => 0,
    };
    put_u16(out, number)?;
    Ok(())
}

// Appends how many sharers there are in a byte, and then each.
#[tactic(auto, using(lk_codec::proofs::Spellings::keeps_same, lk_codec::proofs::Spellings::keeps_behind))]
fn put_sharers(out: &mut BytesMut, value: &Sharers) -> Result<(), AllocError>
    ensures ok { OnOk result (out.new.items ≡ out.old.items ++ sharers value.now) }
    ensures err { OnErr result (KeepsFront out.old.items out.new.items) }
{
    let clients = value.as_slice();
    put_u8(out, clients.len() as u8)?;
    for client in clients {
        put_client(out, *client)?;
    }
    Ok(())
}

// Appends who holds a name, in a raised table: a mode, and then the client or the sharers.
#[tactic(auto, using(lk_codec::proofs::Spellings::keeps_same, lk_codec::proofs::Spellings::keeps_behind))]
fn put_mode(out: &mut BytesMut, value: &Holders) -> Result<(), AllocError>
    ensures ok { OnOk result (out.new.items ≡ out.old.items ++ holders true value.now) }
    ensures err { OnErr result (KeepsFront out.old.items out.new.items) }
{
    match value {
        Holders::Nobody => put_u8(out, 0)?,
        Holders::ExclusiveHold(client) => {
            put_u8(out, 1)?;
            put_client(out, *client)?;
        }
        Holders::SharedHold(clients) => {
            put_u8(out, 2)?;
            put_sharers(out, clients)?;
        }
    }
    Ok(())
}

// Appends who holds a name, in the format of a raised table or of one that is not.
fn put_holders(out: &mut BytesMut, raised: bool, value: &Holders) -> Result<(), AllocError>
    ensures ok { OnOk result (out.new.items ≡ out.old.items ++ holders raised value.now) }
    ensures err { OnErr result (KeepsFront out.old.items out.new.items) }
{
    if raised {
        put_mode(out, value)
    } else {
        put_holder(out, value)
    }
}

// Appends the last fence of a name, and who holds it.
#[tactic(auto, using(lk_codec::proofs::Spellings::keeps_same, lk_codec::proofs::Spellings::keeps_behind))]
fn put_lock_entry(out: &mut BytesMut, raised: bool, value: &LockEntry) -> Result<(), AllocError>
    ensures ok { OnOk result (out.new.items ≡ out.old.items ++ lock_entry raised value.now) }
    ensures err { OnErr result (KeepsFront out.old.items out.new.items) }
{
    put_fence(out, value.fence)?;
    put_holders(out, raised, &value.holders)?;
    Ok(())
}

/// Appends a name and its lock entry, in the format of a raised table or of one that is not. Out of memory it may leave
/// a prefix of the two.
#[tactic(auto, using(lk_codec::proofs::Spellings::keeps_same, lk_codec::proofs::Spellings::keeps_behind))]
pub fn put_entry(
    out: &mut BytesMut,
    raised: bool,
    name: &Name,
    value: &LockEntry,
) -> Result<(), AllocError>
    ensures ok { OnOk result (out.new.items ≡ out.old.items ++ entry raised (name.now, value.now)) }
    ensures err { OnErr result (KeepsFront out.old.items out.new.items) }
{
    put_name(out, name)?;
    put_lock_entry(out, raised, value)?;
    Ok(())
}
