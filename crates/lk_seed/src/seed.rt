//! `locks seed`: begins the store of a new cluster's only member, with the fences that a lost cluster may have granted.

ghost use Rattle.std.specs.Prelude.{◌≤◌, List, OnOk};
ghost use Rattle.lk_store_format.specs.Values.{HeaderValue};
ghost use Rattle.lk_seed.specs.Seedings.{AreLeftBy, IsSeeded};

use crate::checking::check_fences;
use crate::copying::copy_disks;
use crate::seeding::seeded_disks;
use crate::survivors::add_survivors;
use crate::wanted::Wanted;
use lk_disk::LogDisk;
use lk_memory_disk::MemoryDisk;
use lk_node_files::causes::{FailureCause, write_cause, write_failed_calls};
use lk_node_files::folder::{FolderLock, create_files, open_device};
use lk_program_fault::ProgramFault;
use lk_store_format::Header;
use std::alloc::Global;
use std::fs::{File, Files};
use std::io::{ErrorKind, Write};
use std::path::Path;

/// What `locks seed` is to do.
#[derive(Drop)]
pub struct SeedPlan<'a> {
    /// The only member of the new cluster.
    pub header: Header,
    /// The folder of its store.
    pub folder: &'a str,
    /// How many grants of a name may be missing in them.
    pub past: u64,
    /// What is wanted beside that.
    pub wanted: Vec<Wanted>,
}

// Checks that a folder has no file of that name.
fn check_absent<R: Files, E: Write>(
    rt: &R,
    alloc: Global,
    folder: &str,
    name: &str,
    err: &mut E,
) -> Result<(), ProgramFault> {
    let path = Path::new(folder).join(alloc, name)?;
    let path = path.as_path();
    match rt.symlink_metadata(path.as_str()) {
        Ok(_) => Err(write_cause(
            path.display(),
            "exists; seed begins a store only in a folder without files a and b",
            err,
        )),
        Err(error) if error.kind() == ErrorKind::NotFound => Ok(()),
        Err(error) => Err(write_cause(path.display(), error, err)),
    }
}

// Copies these disks to a device, and checks what is found there then.
#[tactic(auto, using(crate::proofs::StoreLaws::is_seeded))]
fn write_checked<D: LogDisk>(
    alloc: Global,
    disks: &mut MemoryDisk,
    wanted: &[Wanted],
    device: &mut D,
) -> Result<(), ProgramFault>
    ensures { D.is_honest → (header : HeaderValue) → AreLeftBy header wanted.now disks.old
        → OnOk result (IsSeeded header wanted.now (D.disk device.new)) }
{
    copy_disks(alloc, disks, device)?;
    check_fences(alloc, device, wanted)
}

// The same for the device of a folder. If a call of the device failed, writes why.
fn write_store<D: LogDisk + FailureCause, E: Write>(
    alloc: Global,
    disks: &mut MemoryDisk,
    wanted: &[Wanted],
    device: &mut D,
    folder: &str,
    err: &mut E,
) -> Result<(), ProgramFault>
    ensures { D.is_honest → (header : HeaderValue) → AreLeftBy header wanted.now disks.old
        → OnOk result (IsSeeded header wanted.now (D.disk device.new)) }
{
    match write_checked(alloc, disks, wanted, device) {
        Ok(()) => Ok(()),
        Err(fault) => Err(write_failed_calls(fault, device, folder, err)),
    }
}

// Begins the store of a plan's node, once what is wanted is known.
fn begin<R: Files<File = File>, E: Write>(
    rt: &R,
    alloc: Global,
    header: &Header,
    wanted: &[Wanted],
    folder: &str,
    err: &mut E,
) -> Result<(), ProgramFault> {
    let mut disks = seeded_disks(alloc, header, wanted, err)?;
    create_files(rt, alloc, folder, err)?;
    let _lock = FolderLock::acquire(rt, alloc, folder, err)?;
    let mut opened = open_device(rt, alloc, folder, false, err)?;
    write_store(alloc, &mut disks, wanted, &mut opened.device, folder, err)
}

// Does what a plan says.
fn run<R: Files<File = File>, E: Write>(
    rt: &R,
    alloc: Global,
    plan: SeedPlan<'_>,
    survivors: &[&str],
    err: &mut E,
) -> Result<(), ProgramFault> {
    let SeedPlan {
        header,
        folder,
        past,
        mut wanted,
    } = plan;
    check_absent(rt, alloc, folder, "a", err)?;
    check_absent(rt, alloc, folder, "b", err)?;
    let cluster = header.genesis().cluster;
    add_survivors(rt, alloc, survivors, cluster, past, &mut wanted, err)?;
    begin(rt, alloc, &header, &wanted, folder, err)
}

/// Begins the store that a plan says, with the fences of these folders, which a lost cluster has left. Nothing is
/// created before the fences are raised. Returns status 0 once the store is synced and has them, or 1 after an error
/// message.
pub fn seed<R: Files<File = File>, E: Write>(
    rt: &R,
    alloc: Global,
    plan: SeedPlan<'_>,
    survivors: &[&str],
    err: &mut E,
) -> u8
    ensures { result ≤ 1 }
{
    match run(rt, alloc, plan, survivors, err) {
        Ok(()) => 0,
        Err(fault) => fault.write_to(err),
    }
}
