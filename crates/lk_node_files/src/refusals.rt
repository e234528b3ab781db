//! Explains why a store does not open: what was found, and what to do.

ghost use Rattle.std.specs.Prelude.{◌≡◌, ◌≢◌, ◌≤◌, length, IfSome, IsTrue};
ghost use Rattle.lk_disk.specs.Disk.{contents};
ghost use Rattle.lk_disk.specs.declared.device.Side.{Side as SideValue};
ghost use Rattle.lk_node_files.specs.Ends.{EndsAt};

use crate::causes::{FailureCause, write_failed_calls};
use crate::older::read_file;
use lk_disk::{LogDisk, Side};
use lk_program_fault::ProgramFault;
use lk_store_format::{EntryFault, Header, Stored, first_entry};
use std::alloc::Global;
use std::io;
use std::io::Write;

// The sides of a device, and the names of their files.
const FILES: [(Side, &str); 2] = [(Side::A, "a"), (Side::B, "b")];

// Reads a whole file. `None` if it cannot be read, or memory runs out.
fn bytes_of<D: LogDisk>(alloc: Global, device: &mut D, side: Side) -> Option<Vec<u8>>
    ensures unchanged { D.is_honest → (s : SideValue) → D.disk device.new s ≡ D.disk device.old s }
    ensures bytes { D.is_honest → IfSome result (λ bytes. bytes.items ≡ contents (D.disk device.old side)) }
{
    read_file(alloc, device, side).ok()
}

// Returns the offset where the valid entries end, which is the length if all of the file is entries. `None` if memory
// runs out.
fn end_of(alloc: Global, bytes: &[u8]) -> Option<usize>
    ensures { IfSome result (EndsAt bytes.now) }
{
    let mut rest = bytes;
    'entries: loop {
        match first_entry(alloc, rest) {
            Ok((_entry, more)) => rest = more,
            Err(EntryFault::NoEntry) => return Some(bytes.len().saturating_sub(rest.len())),
            Err(EntryFault::NoMemory) => return None,
        }
    }
}

// Returns that offset of a file, and the file's size. `None` if it cannot be read, or memory runs out.
fn extent_of<D: LogDisk>(alloc: Global, device: &mut D, side: Side) -> Option<(usize, usize)>
    ensures unchanged { D.is_honest → (s : SideValue) → D.disk device.new s ≡ D.disk device.old s }
    ensures end { D.is_honest → IfSome result (λ e. EndsAt (contents (D.disk device.old side)) e.0) }
    ensures size { D.is_honest → IfSome result (λ e. e.1 ≡ length (contents (D.disk device.old side))) }
{
    let bytes = bytes_of(alloc, device, side)?;
    let end = end_of(alloc, &bytes)?;
    Some((end, bytes.len()))
}

// Writes at which byte of a file there is no valid entry. Returns whether all of the file is entries. If so, or if it
// cannot be read, it writes nothing.
fn write_bad_entry<D: LogDisk, E: Write>(
    alloc: Global,
    device: &mut D,
    side: Side,
    path: (&str, &str),
    err: &mut E,
) -> bool
    ensures unchanged { D.is_honest → (s : SideValue) → D.disk device.new s ≡ D.disk device.old s }
    ensures whole { D.is_honest → IsTrue result
        → (end : _) × EndsAt (contents (D.disk device.old side)) end
        × (length (contents (D.disk device.old side)) ≤ end) }
    ensures quiet { IsTrue result → err.new ≡ err.old }
{
    let Some((end, size)) = extent_of(alloc, device, side) else {
        return false;
    };
    if end >= size {
        return true;
    }
    let (folder, name) = path;
    let _ = writeln!(
        err,
        "{folder}/{name}: no valid entry at byte {end} of {size}"
    );
    false
}

/// Writes what to do with a damaged store.
pub fn write_advice<E: Write>(folder: &str, err: &mut E) {
    let _ = writeln!(
        err,
        "{folder}: treat it as lost: let the node leave, and join a new one; or start the newer program that wrote it"
    );
}

// Writes for each file where the damage begins, and what to do with a damaged store.
fn write_damage<D: LogDisk, E: Write>(alloc: Global, device: &mut D, folder: &str, err: &mut E)
    ensures { D.is_honest → (s : SideValue) → D.disk device.new s ≡ D.disk device.old s }
{
    let mut are_whole = true;
    'files: for (side, name) in FILES {
        are_whole &= write_bad_entry(alloc, device, side, (folder, name), err);
    }
    if are_whole {
        let _ = writeln!(err, "{folder}: the entries are readable, but inconsistent");
    }
    write_advice(folder, err);
}

// Writes a genesis as `--genesis` takes it: CLUSTER,ALPHA,NODE:PORT,.., with a `w` behind the alpha of a wide
// one.
fn write_genesis<E: Write>(header: &Header, err: &mut E) -> io::Result<()> {
    let genesis = header.genesis();
    let width = if genesis.is_wide() { "w" } else { "" };
    write!(err, "{},{}{}", genesis.cluster, genesis.alpha, width)?;
    for member in genesis.members.as_slice() {
        write!(err, ",{}:{}", member.node.get(), member.port.get())?;
    }
    writeln!(err)
}

// Writes whose store a file is, given the header of its Base.
fn write_header<E: Write>(header: &Header, folder: &str, name: &str, err: &mut E) {
    let node = header.node().get();
    let _ = write!(err, "{folder}/{name}: the store of node {node} of genesis ");
    let _ = write_genesis(header, err);
}

// The same given the bytes of the file, if these begin with a Base.
fn write_base<E: Write>(alloc: Global, bytes: &[u8], folder: &str, name: &str, err: &mut E) {
    if let Ok((Stored::Base(base), _)) = first_entry(alloc, bytes) {
        write_header(&base.header, folder, name, err);
    }
}

// Writes whose store each file of a folder is, and which options to check.
fn write_whose<D: LogDisk, E: Write>(alloc: Global, device: &mut D, folder: &str, err: &mut E)
    ensures { D.is_honest → (s : SideValue) → D.disk device.new s ≡ D.disk device.old s }
{
    'files: for (side, name) in FILES {
        if let Some(bytes) = bytes_of(alloc, device, side) {
            write_base(alloc, &bytes, folder, name, err);
        }
    }
    let _ = writeln!(err, "{folder}: check --dir, --number and --genesis");
}

/// Writes why the store of a folder does not open and what to do: which calls failed, where it is damaged, or whose it
/// is. It reads the files and changes none. Returns the fault unchanged.
pub fn write_refusal<D: LogDisk + FailureCause, E: Write>(
    alloc: Global,
    fault: ProgramFault,
    device: &mut D,
    folder: &str,
    err: &mut E,
) -> ProgramFault
    ensures fault { result ≡ fault }
    ensures unchanged { D.is_honest → (s : SideValue) → D.disk device.new s ≡ D.disk device.old s }
    ensures quiet { fault ≢ ProgramFault.Damaged → fault ≢ ProgramFault.WrongStore
        → fault ≢ ProgramFault.Device → err.new ≡ err.old }
{
    match fault {
        ProgramFault::Damaged => write_damage(alloc, device, folder, err),
        ProgramFault::WrongStore => write_whose(alloc, device, folder, err),
        _ => {}
    }
    write_failed_calls(fault, device, folder, err)
}
