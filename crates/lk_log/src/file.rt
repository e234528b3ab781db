// Reading a file of a device.
ghost use Rattle.std.specs.Prelude.{◌≡◌, ◌++◌, ◌||◌, not, length, false, IfOk};
ghost use Rattle.std.specs.List.{AllByRecursion};
ghost use Rattle.lk_disk.specs.Disk.{contents};
ghost use Rattle.lk_store_format.specs.Entries.{spelling_of_all, IsStored};
ghost use Rattle.lk_store_format.specs.Files.{is_torn, IsFile};
ghost use Rattle.lk_store_format.specs.Formats.{is_mixed};
ghost use Rattle.lk_store_format.specs.Bases.{generation, is_misplaced, has_base};
ghost use Rattle.lk_log.specs.OpenCauses.{IsCaused, IsMetered};

use crate::fault::OpenFault;
use lk_codec::read_u32;
use lk_disk::{LogDisk, Side};
use lk_store_format::{EntryFault, Stored, first_entry, is_mixed};
use lk_types::NoMemory;
use lk_types::limits::MAX_TORN;
use std::alloc::Global;

/// A file as it was read and parsed.
#[derive(Drop)]
pub struct File {
    // The whole entries, in order.
    pub entries: Vec<Stored>,
    // The offset at which they end.
    pub end: usize,
    // The length of the file in bytes.
    pub size: usize,
    // Whether no stop explains the bytes after the entries, or the entries mix the two formats.
    pub is_damaged: bool,
}

// Returns whether a stop may have left these bytes after whole entries: none, a cut length field, or a length from 1 to
// `MAX_TORN` with fewer bytes after it.
#[tactic(auto, unfolding(lk_store_format::specs::Files::stated_length, lk_codec::specs::FieldReading::read_four))]
fn is_torn(rest: &[u8]) -> bool
    ensures { result ≡ is_torn rest.now }
{
    let Some((told, _)) = read_u32(rest) else {
        return true;
    };
    let told = told as usize;
    told >= 1 && told <= MAX_TORN && rest.len() < 4 + told
}

// Returns whether a file is damaged, given its whole entries and the bytes after them.
fn is_damaged(entries: &[Stored], rest: &[u8]) -> bool
    ensures { result ≡ (not (is_torn rest.now) || is_mixed entries.now) }
{
    !is_torn(rest) || is_mixed(entries)
}

// Parses the bytes of a file, up to the first ones that are no whole entry.
fn file_of(alloc: Global, bytes: &[u8]) -> Result<File, NoMemory>
    ensures file { IfOk result (λ f. IsFile bytes.now f.entries.items f.is_damaged) }
    ensures end { IfOk result (λ f. f.end ≡ length (spelling_of_all f.entries.items)) }
    ensures size { IfOk result (λ f. f.size ≡ length bytes.now) }
{
    let mut entries = Vec::new(alloc);
    let mut rest = bytes;
    'read: loop {
        match first_entry(alloc, rest) {
            Ok((entry, more)) => {
                entries.push(entry)?;
                rest = more;
            }
            Err(EntryFault::NoEntry) => break,
            Err(EntryFault::NoMemory) => return Err(NoMemory),
        }
    }
    let is_damaged = is_damaged(&entries, rest);
    Ok(File {
        entries,
        end: bytes.len() - rest.len(),
        size: bytes.len(),
        is_damaged,
    })
}

// Reads all bytes of a file.
fn read_bytes<D: LogDisk>(alloc: Global, device: &mut D, side: Side) -> Result<Vec<u8>, OpenFault>
    ensures unchanged { D.is_honest → (s : _) → D.disk device.new s ≡ D.disk device.old s }
    ensures value { D.is_honest → IfOk result (λ v. v.items ≡ contents (D.disk device.old side)) }
    ensures cause { IsCaused (D.failures device.old) (D.failures device.new) result }
    ensures metered { D.is_metered → D.is_honest → IsMetered (D.meter device.old) (D.meter device.new) 0 result }
{
    let count = device.length(side)?;
    let mut bytes = vec![in alloc; 0; count]?;
    device.read_into(side, 0, &mut bytes)?;
    Ok(bytes)
}

/// Reads and parses a file of the device. Damage is no error: the result has it as `is_damaged`.
pub fn read_file<D: LogDisk>(alloc: Global, device: &mut D, side: Side) -> Result<File, OpenFault>
    ensures unchanged { D.is_honest → (s : _) → D.disk device.new s ≡ D.disk device.old s }
    ensures file { D.is_honest
        → IfOk result (λ f. IsFile (contents (D.disk device.old side)) f.entries.items f.is_damaged) }
    ensures fit { IfOk result (λ f. AllByRecursion IsStored f.entries.items) }
    ensures end { IfOk result (λ f. f.end ≡ length (spelling_of_all f.entries.items)) }
    ensures size { D.is_honest → IfOk result (λ f. f.size ≡ length (contents (D.disk device.old side))) }
    ensures cause { IsCaused (D.failures device.old) (D.failures device.new) result }
    ensures metered { D.is_metered → D.is_honest → IsMetered (D.meter device.old) (D.meter device.new) 0 result }
{
    let bytes = read_bytes(alloc, device, side)?;
    let file = file_of(alloc, &bytes)?;
    Ok(file)
}

/// Returns the generation of the Base at the start, or 0 if there is none.
pub fn generation_of(entries: &[Stored]) -> u64
    ensures { result ≡ generation entries.now }
{
    match entries {
        [Stored::Base(base), ..] => base.generation,
        _ => 0,
    }
}

fn has_base(entries: &[Stored]) -> bool
    ensures { result ≡ has_base entries.now }
{
    for entry in entries {
        if let Stored::Base(_) = entry {
            return true;
        }
    }
    false
}

/// Returns whether a Base is misplaced: the first entry is not a Base, or a later one is. An empty list is in order.
pub fn is_misplaced(entries: &[Stored]) -> bool
    ensures { result ≡ is_misplaced entries.now }
{
    match entries {
        [] => false,
        [Stored::Base(_), rest @ ..] => has_base(rest),
        [Stored::Plain(_), ..] => true,
    }
}
