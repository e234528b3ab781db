// Opening a store, and reading one without changing it.
ghost use Rattle.std.specs.Prelude.{◌≡◌, ◌≤◌, ◌<◌, ◌+◌, ◌-◌, ◌^◌, ◌↔◌, List, ℕ, [], true, false, length, IsTrue, IfOk};
ghost use Rattle.std.specs.Prelude.{IfErr, IfSome, OnOk, IsErrOf, MatchResult, Ok};
ghost use Rattle.lk_disk.specs.Disk.{other, HasCause};
ghost use Rattle.lk_disk.specs.Meters.{CallsSucceed};
ghost use Rattle.lk_disk.specs.declared.device.Side.{Side};
ghost use Rattle.lk_disk.specs.declared.device.Side.TheVariants.{A, B};
ghost use Rattle.lk_types.specs.Limits.{max_base_of};
ghost use Rattle.lk_store_format.specs.Headers.{IsHeader};
ghost use Rattle.lk_store_format.specs.Bases.{generation};
ghost use Rattle.lk_store_format.specs.Standings.{HasHeader};
ghost use Rattle.lk_store_format.specs.Values.{HeaderValue};
ghost use Rattle.lk_store_format.specs.declared.stored.Stored.{Stored};
ghost use Rattle.lk_log.specs.Causes.{ComesBy};
ghost use Rattle.lk_log.specs.OpenCauses.{IsCaused, FailuresRise, failures_after, IsMetered, IsRefusedBy};
ghost use Rattle.lk_log.specs.Images.{IsEmpty, IsDamaged, seen};
ghost use Rattle.lk_log.specs.Rooms.{StaysWithin};
ghost use Rattle.lk_log.specs.StoreValue.{disks};
ghost use Rattle.lk_log.specs.Stores.{first_base, cut_calls, OpensBy, FoundLive, IsWrittenOver, OpensOn, Opens};
ghost use Rattle.lk_log.specs.Stores.{IsOpened, StaysDamaged, StaysWrong, Shows, NarrowsOrIsNew, HasStanding};
ghost use Rattle.lk_log.specs.Stores.{StandsForSome};

use crate::fault::{OpenFault, ReopenFault};
use crate::file::{File, generation_of};
use crate::opening::{cut_and_sync, find};
use crate::replaying::replay;
use crate::store::Store;
use lk_disk::{DeviceFault, LogDisk, Side};
use lk_store_format::{Base, Header, Standing, Stored, encode_base, format_of};
use lk_types::{Ballot, Executed};
use std::alloc::{AllocError, Global};

// The fields of an opened store except its device, and its standing.
#[derive(Drop)]
struct Opened {
    live: Side,
    generation: u64,
    format: u8,
    standing: Standing,
    is_new: bool,
}

/// An open store, and its standing: the state that its entries recover.
#[derive(Drop)]
pub struct Reopened<D: LogDisk + Drop> {
    pub store: Store<D>,
    pub standing: Standing,
    /// Whether there was no store, and this one is new.
    pub is_new: bool,
}

// Replaces a file with these bytes, and syncs it. After an error it has a prefix of the old bytes or of these.
pub(crate) fn write_over<D: LogDisk>(
    device: &mut D,
    side: Side,
    bytes: &[u8],
) -> Result<(), DeviceFault>
    ensures ok { D.is_honest → OnOk result (D.disk device.new side ≡ record { synced = bytes.now; unsynced = [] }) }
    ensures every_image { D.is_honest → IsWrittenOver (D.disk device.old side) bytes.now (D.disk device.new side) }
    ensures beside { D.is_honest → D.disk device.new (other side) ≡ D.disk device.old (other side) }
    ensures cause { HasCause (D.failures device.old) (D.failures device.new) result }
    ensures metered { D.is_metered → D.is_honest → ComesBy (D.meter device.old) (D.meter device.new) 3 result }
{
    device.cut(side, 0)?;
    device.append(side, bytes)?;
    device.sync(side)?;
    Ok(())
}

// Returns the Base of a new store, of generation 1 and format 2. `zero` is the packed state at position 0.
fn first_base(alloc: Global, header: &Header, zero: &[u8]) -> Result<Base, AllocError>
    requires some { 1 ≤ length zero.now }
    requires room { length zero.now ≤ 49054 }
    ensures value { IfOk result (λ b. b ≡ first_base header.now zero.now) }
    ensures header { IsHeader header.now }
{
    header.facts();
    Ok(Base {
        generation: 1,
        format: 2,
        header: header.copy(),
        standing: Standing {
            promised: Ballot::ZERO,
            position: Executed::default(),
            snapshot: zero.to_vec(alloc)?,
            votes: Vec::new(alloc),
            pairs: Vec::new(alloc),
        },
    })
}

// Begins a new store: writes its Base over file A, and syncs it.
fn create_store<D: LogDisk>(
    alloc: Global,
    device: &mut D,
    header: &Header,
    zero: &[u8],
) -> Result<Opened, OpenFault>
    requires some { 1 ≤ length zero.now }
    requires room { length zero.now ≤ 49054 }
    ensures opens { D.is_honest → IsEmpty (seen (D.disk device.old))
        → IfOk result (λ o. OpensOn (seen (D.disk device.old)) header.now zero.now (D.disk device.new o.live)
        (D.disk device.new (other o.live)) o.generation o.format o.standing) }
    ensures stays { D.is_honest → IsEmpty (seen (D.disk device.old))
        → NarrowsOrIsNew (D.disk device.old) (D.disk device.new) header.now zero.now }
    ensures room { D.is_honest → StaysWithin (max_base_of header.now.alpha) (D.disk device.old) (D.disk device.new) }
    ensures in_a { IfOk result (λ o. o.live ≡ A) }
    ensures is_new { IfOk result (λ o. o.is_new ≡ true) }
    ensures stands { IfOk result (λ o. StandsForSome o.standing) }
    ensures cause { IsCaused (D.failures device.old) (D.failures device.new) result }
    ensures metered { D.is_metered → D.is_honest → IsMetered (D.meter device.old) (D.meter device.new) 3 result }
{
    let base = first_base(alloc, header, zero)?;
    let bytes = encode_base(alloc, &base)?;
    write_over(device, Side::A, &bytes)?;
    let Base {
        generation,
        format,
        header: _,
        standing,
    } = base;
    Ok(Opened {
        live: Side::A,
        generation,
        format,
        standing,
        is_new: true,
    })
}

// Returns whether the Base at the start is of the same node and genesis.
fn has_header(entries: &[Stored], header: &Header) -> bool
    ensures { IsTrue result ↔ HasHeader entries.now header.now }
{
    match entries {
        [Stored::Base(base), ..] => base.header.is_same(header),
        _ => false,
    }
}

// Opens the store of a live file: cuts off its torn end, syncs it, and replays its entries.
fn open<D: LogDisk>(
    alloc: Global,
    device: &mut D,
    live: Side,
    file: File,
) -> Result<Opened, OpenFault>
    requires { HasStanding file.entries.items }
    ensures opens { D.is_honest → FoundLive (D.disk device.old) live file.entries.items file.end file.size
        → (whose : HeaderValue) (zero : List ℕ) → HasHeader file.entries.items whose
        → IfOk result (λ o. OpensOn (seen (D.disk device.old)) whose zero (D.disk device.new o.live)
        (D.disk device.new (other o.live)) o.generation o.format o.standing) }
    ensures stays { D.is_honest → FoundLive (D.disk device.old) live file.entries.items file.end file.size
        → (whose : HeaderValue) (zero : List ℕ)
        → NarrowsOrIsNew (D.disk device.old) (D.disk device.new) whose zero }
    ensures room { D.is_honest → StaysWithin 0 (D.disk device.old) (D.disk device.new) }
    ensures is_old { IfOk result (λ o. o.is_new ≡ false) }
    ensures stands { IfOk result (λ o. StandsForSome o.standing) }
    ensures cause { IsCaused (D.failures device.old) (D.failures device.new) result }
    ensures metered { D.is_metered → D.is_honest
        → FoundLive (D.disk device.old) live file.entries.items file.end file.size
        → IsMetered (D.meter device.old) (D.meter device.new) (cut_calls file.end file.size + 1) result }
{
    let File {
        entries,
        end,
        size,
        ..
    } = file;
    cut_and_sync(device, live, end, size)?;
    let generation = generation_of(&entries);
    let format = format_of(&entries);
    let standing = replay(alloc, entries)?;
    Ok(Opened {
        live,
        generation,
        format,
        standing,
        is_new: false,
    })
}

// Opens the store of the live file, or begins one if neither file has a Base. A store of another node or genesis is
// unchanged, and the error is `WrongStore`.
fn recover<D: LogDisk>(
    alloc: Global,
    device: &mut D,
    header: &Header,
    zero: &[u8],
) -> Result<Opened, OpenFault>
    requires some { 1 ≤ length zero.now }
    requires room { length zero.now ≤ 49054 }
    ensures opens { D.is_honest
        → IfOk result (λ o. OpensOn (seen (D.disk device.old)) header.now zero.now (D.disk device.new o.live)
        (D.disk device.new (other o.live)) o.generation o.format o.standing) }
    ensures stays { D.is_honest → NarrowsOrIsNew (D.disk device.old) (D.disk device.new) header.now zero.now }
    ensures room { D.is_honest → StaysWithin (max_base_of header.now.alpha) (D.disk device.old) (D.disk device.new) }
    ensures starts_in_a { D.is_honest → IsEmpty (seen (D.disk device.old)) → IfOk result (λ o. o.live ≡ A) }
    ensures is_new { D.is_honest → IfOk result (λ o. IsTrue o.is_new ↔ IsEmpty (seen (D.disk device.old))) }
    ensures stands { IfOk result (λ o. StandsForSome o.standing) }
    ensures damaged { D.is_honest → IsErrOf result OpenFault.Damaged
        → StaysDamaged (D.disk device.old) (D.disk device.new) }
    ensures wrong { D.is_honest → IsErrOf result OpenFault.WrongStore
        → StaysWrong (D.disk device.old) (D.disk device.new) header.now }
    ensures cause { FailuresRise (D.failures device.old) (D.failures device.new) result }
    ensures metered { D.is_metered → D.is_honest → MatchResult result
        (λ _. (k : ℕ) × OpensBy (seen (D.disk device.old)) k × CallsSucceed (D.meter device.old) (D.meter device.new) k)
        (λ e. IsRefusedBy (D.meter device.old) (D.meter device.new) e) }
{
    match find(alloc, device)? {
        Some((live, file)) => {
            if !has_header(&file.entries, header) {
                return Err(OpenFault::WrongStore);
            }
            open(alloc, device, live, file)
        }
        None => create_store(alloc, device, header, zero),
    }
}

/// Opens a store that a stop may have left, or begins one if there is none: then `zero` is the packed state at
/// position 0, of 1 to 49,054 bytes.
///
/// The torn end is cut off the live file, and the file is synced. It fails with `Device` (7), `NoMemory` (8),
/// `Damaged` (9) and `WrongStore` (10), and returns the device. A stop in the middle of it is harmless: it can be
/// repeated.
pub fn reopen<D: LogDisk + Drop>(
    alloc: Global,
    device: D,
    header: &Header,
    zero: &[u8],
) -> Result<Reopened<D>, ReopenFault<D>>
    requires some { 1 ≤ length zero.now }
    requires room { length zero.now ≤ 49054 }
    // The standing is that of the whole entries of the live file, or of a new store, and all of it is synced.
    ensures ok { D.is_honest → IfOk result (λ r. Opens (seen (D.disk device)) header.now zero.now r.store r.standing) }
    ensures open { IfOk result (λ r. IsOpened header.now r.store r.standing) }
    // However it ends, each image has the verdict and the entries of an image before it, or is a new store.
    ensures stays { D.is_honest → MatchResult result
        (λ r. NarrowsOrIsNew (D.disk device) (disks r.store) header.now zero.now)
        (λ e. NarrowsOrIsNew (D.disk device) (D.disk e.device) header.now zero.now) }
    // However it ends, neither file has grown, except up to the size of a Base of this alpha.
    ensures room { D.is_honest
        → MatchResult result (λ r. StaysWithin (max_base_of header.now.alpha) (D.disk device) (disks r.store))
        (λ e. StaysWithin (max_base_of header.now.alpha) (D.disk device) (D.disk e.device)) }
    // A store is new exactly if there was no Base, and then begins in A.
    ensures starts_in_a { D.is_honest → IsEmpty (seen (D.disk device)) → IfOk result (λ r. r.store.live ≡ A) }
    ensures is_new { D.is_honest → IfOk result (λ r. IsTrue r.is_new ↔ IsEmpty (seen (D.disk device))) }
    // A damaged store and another's are unchanged.
    ensures damaged { D.is_honest
        → IfErr result (λ e. e.fault ≡ OpenFault.Damaged → StaysDamaged (D.disk device) (D.disk e.device)) }
    ensures wrong { D.is_honest
        → IfErr result (λ e. e.fault ≡ OpenFault.WrongStore → StaysWrong (D.disk device) (D.disk e.device) header.now) }
    ensures cause { MatchResult result (λ r. r.store.failures ≡ D.failures device)
        (λ e. D.failures e.device ≡ failures_after e.fault (D.failures device)) }
    // For a metered device it says which of its calls were made.
    ensures metered { D.is_metered → D.is_honest → MatchResult result
        (λ r. (k : ℕ) × OpensBy (seen (D.disk device)) k × CallsSucceed (D.meter device) r.store.meter k)
        (λ e. IsRefusedBy (D.meter device) (D.meter e.device) e.fault) }
{
    let mut device = device;
    match recover(alloc, &mut device, header, zero) {
        Ok(opened) => {
            let Opened {
                live,
                generation,
                format,
                standing,
                is_new,
            } = opened;
            let store = Store {
                alloc,
                device,
                live,
                generation,
                format,
                header: header.copy(),
                failed: false,
            };
            Ok(Reopened {
                store,
                standing,
                is_new,
            })
        }
        Err(fault) => Err(ReopenFault { fault, device }),
    }
}

/// The live file as `look` reads it.
#[derive(Drop)]
pub struct LiveFile {
    pub generation: u64,
    /// 1 or 2.
    pub format: u8,
    pub standing: Standing,
}

/// Reads the generation, the format and the standing of the live file; `None` if neither file has a Base. Changes
/// nothing.
///
/// It fails with `Device` (7), `NoMemory` (8) and `Damaged` (9).
pub fn look<D: LogDisk>(alloc: Global, device: &mut D) -> Result<Option<LiveFile>, OpenFault>
    ensures unchanged { D.is_honest → (s : Side) → D.disk device.new s ≡ D.disk device.old s }
    ensures some { D.is_honest
        → IfOk result (λ r. IfSome r (λ x. Shows (seen (D.disk device.old)) x.generation x.format x.standing)) }
    ensures none { D.is_honest → result ≡ Ok None → IsEmpty (seen (D.disk device.old)) }
    ensures damaged { D.is_honest → IsErrOf result OpenFault.Damaged → IsDamaged (seen (D.disk device.old)) }
    ensures wrong { IsErrOf result OpenFault.WrongStore → ⊥ }
    ensures cause { FailuresRise (D.failures device.old) (D.failures device.new) result }
    // For a metered device: no changing call.
    ensures metered { D.is_metered → D.is_honest → IsMetered (D.meter device.old) (D.meter device.new) 0 result }
{
    let Some((_, file)) = find(alloc, device)? else {
        return Ok(None);
    };
    let File { entries, .. } = file;
    let generation = generation_of(&entries);
    let format = format_of(&entries);
    let standing = replay(alloc, entries)?;
    Ok(Some(LiveFile {
        generation,
        format,
        standing,
    }))
}
