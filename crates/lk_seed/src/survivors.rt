//! The folders that a lost cluster has left.

ghost use Rattle.std.specs.Prelude.{◌≡◌, IfOk, OnOk};
ghost use Rattle.lk_disk.specs.Disk.{contents};
ghost use Rattle.lk_disk.specs.declared.device.Side.{Side as SideValue};
ghost use Rattle.lk_log.specs.Images.{seen};
ghost use Rattle.lk_seed.specs.Survivors.{IsFileOf, IsFoundOf, Keeps, TakesOver, TellsHeader};

use crate::lost::LostCluster;
use crate::wanted::{Wanted, add_wanted};
use lk_disk::{LogDisk, Side};
use lk_inspect::inspect::inspect_device;
use lk_inspect::inspection::Inspection;
use lk_node_files::causes::{FailureCause, write_cause};
use lk_node_files::folder::look_at_device;
use lk_node_files::refusals::write_refusal;
use lk_program_fault::ProgramFault;
use lk_store_format::{EntryFault, Header, Stored, first_entry};
use std::alloc::Global;
use std::fs::Files;
use std::io::Write;

// Reads a whole file of a device.
fn bytes_of<D: LogDisk>(alloc: Global, device: &mut D, side: Side) -> Result<Vec<u8>, ProgramFault>
    ensures unchanged { D.is_honest → (s : SideValue) → D.disk device.new s ≡ D.disk device.old s }
    ensures bytes { D.is_honest → IfOk result (λ bytes. bytes.items ≡ contents (D.disk device.old side)) }
{
    let Ok(count) = device.length(side) else {
        return Err(ProgramFault::Device);
    };
    let mut bytes = vec![in alloc; 0; count]?;
    if device.read_into(side, 0, &mut bytes).is_err() {
        return Err(ProgramFault::Device);
    }
    Ok(bytes)
}

// Returns the header with which a file of these bytes begins, if it begins with a Base.
#[tactic(auto, using(crate::proofs::SurvivorLaws::no_base, crate::proofs::SurvivorLaws::base_of))]
fn header_in(alloc: Global, bytes: &[u8]) -> Result<Option<Header>, ProgramFault>
    ensures { IfOk result (TellsHeader bytes.now) }
{
    match first_entry(alloc, bytes) {
        Ok((Stored::Base(base), _)) => Ok(Some(base.header.copy())),
        Ok((Stored::Plain(_), _)) | Err(EntryFault::NoEntry) => Ok(None),
        Err(EntryFault::NoMemory) => Err(ProgramFault::NoMemory),
    }
}

// Checks the header of a file of a device, if it begins with one.
#[tactic(auto, using(crate::proofs::LostLaws::keeps_same, crate::proofs::SurvivorLaws::told_file, crate::proofs::SurvivorLaws::plain_file))]
fn check_file<'a, D: LogDisk, E: Write>(
    alloc: Global,
    device: &mut D,
    side: Side,
    folder: &'a str,
    lost: &mut LostCluster<'a>,
    err: &mut E,
) -> Result<(), ProgramFault>
    ensures unchanged { D.is_honest → (s : SideValue) → D.disk device.new s ≡ D.disk device.old s }
    ensures keeps { Keeps lost.old lost.new }
    ensures is { D.is_honest → OnOk result (IsFileOf lost.new (contents (D.disk device.old side))) }
{
    let bytes = bytes_of(alloc, device, side)?;
    match header_in(alloc, &bytes)? {
        Some(header) => lost.check(header, folder, err),
        None => Ok(()),
    }
}

// Checks the headers of both files.
#[tactic(auto, using(crate::proofs::LostLaws::keeps_both, crate::proofs::SurvivorLaws::both_files))]
fn check_files<'a, D: LogDisk, E: Write>(
    alloc: Global,
    device: &mut D,
    folder: &'a str,
    lost: &mut LostCluster<'a>,
    err: &mut E,
) -> Result<(), ProgramFault>
    ensures unchanged { D.is_honest → (s : SideValue) → D.disk device.new s ≡ D.disk device.old s }
    ensures keeps { Keeps lost.old lost.new }
    ensures are { D.is_honest
        → OnOk result ((s : SideValue) → IsFileOf lost.new (contents (D.disk device.old s))) }
{
    check_file(alloc, device, Side::A, folder, lost, err)?;
    check_file(alloc, device, Side::B, folder, lost, err)
}

// Returns what the store of a device holds. If it has none, or it is not of the lost cluster, writes so.
#[tactic(auto, using(crate::proofs::LostLaws::keeps_same, crate::proofs::SurvivorLaws::found_of))]
fn inspected<'a, D: LogDisk + FailureCause, E: Write>(
    alloc: Global,
    device: &mut D,
    folder: &'a str,
    lost: &mut LostCluster<'a>,
    err: &mut E,
) -> Result<Inspection, ProgramFault>
    ensures unchanged { D.is_honest → (s : SideValue) → D.disk device.new s ≡ D.disk device.old s }
    ensures keeps { Keeps lost.old lost.new }
    ensures found { D.is_honest → IfOk result (IsFoundOf lost.new (seen (D.disk device.old))) }
{
    let Some(found) = inspect_device(alloc, device)? else {
        return Err(write_cause(folder, "no store in its files", err));
    };
    check_files(alloc, device, folder, lost, err)?;
    Ok(found)
}

/// Appends what is wanted of each name of a device's store: its last fence and `past` more. If there is no store, or a
/// damaged one, or one that is not of the lost cluster, or no grant could follow a fence, it writes so.
#[tactic(auto, using(crate::proofs::SurvivorLaws::takes_over))]
pub fn add_survivor<'a, D: LogDisk + FailureCause, E: Write>(
    alloc: Global,
    device: &mut D,
    folder: &'a str,
    lost: &mut LostCluster<'a>,
    past: u64,
    wanted: &mut Vec<Wanted>,
    err: &mut E,
) -> Result<(), ProgramFault>
    ensures unchanged { D.is_honest → (s : SideValue) → D.disk device.new s ≡ D.disk device.old s }
    ensures keeps { Keeps lost.old lost.new }
    ensures takes { D.is_honest
        → OnOk result (TakesOver past (seen (D.disk device.old)) lost.new wanted.old.items wanted.new.items) }
{
    let found = match inspected(alloc, device, folder, lost, err) {
        Ok(found) => found,
        Err(fault) => return Err(write_refusal(alloc, fault, device, folder, err)),
    };
    if add_wanted(wanted, &found.names, past)? {
        return Ok(());
    }
    let text = "a fence would be above 281474976710655";
    Err(write_cause(folder, text, err))
}

/// Appends what is wanted of each name of the stores in these folders, which are of one cluster, and not of this one.
pub fn add_survivors<R: Files, E: Write>(
    rt: &R,
    alloc: Global,
    folders: &[&str],
    cluster: u64,
    past: u64,
    wanted: &mut Vec<Wanted>,
    err: &mut E,
) -> Result<(), ProgramFault> {
    let mut lost = LostCluster::unknown(cluster);
    for folder in folders {
        let mut opened = look_at_device(rt, alloc, folder, err)?;
        add_survivor(
            alloc,
            &mut opened.device,
            folder,
            &mut lost,
            past,
            wanted,
            err,
        )?;
    }
    Ok(())
}
