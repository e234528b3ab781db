//! Opens the files of a node's folder, creates them, and locks the folder so that only one process runs on it.

ghost use Rattle.std.specs.Prelude.{◌≡◌, None, IfOk, IfErr, OnOk};
ghost use Rattle.lk_node_files.specs.Openings.{IsClosed, IsUnopened};

use crate::causes::{open_file, write_cause, write_open_error};
use crate::opening::{OpenedFiles, open_to_write, with_sums};
use lk_disk::{FileDisk, SystemDisk};
use lk_program_fault::ProgramFault;
use lk_summed_disk::{HidingDisk, OptionalSums};
use std::alloc::Global;
use std::fs::{File, Files, OpenOptions, TryLockError};
use std::io::{ErrorKind, Write};
use std::path::Path;

// The names of the two files.
const NAMES: [&str; 2] = ["a", "b"];

/// A folder on which no other process can run a node as long as the value lives: its file `a` is locked. The lock ends
/// with the process, and does not affect readers.
#[derive(Drop)]
pub struct FolderLock {
    _file: File,
}

// The options that open a node's file: to read and append, created if missing.
fn to_write() -> OpenOptions {
    let mut how = OpenOptions::new();
    how.read(true).append(true).create(true);
    how
}

// The options that create a node's file, and fail if it exists.
fn to_create() -> OpenOptions {
    let mut how = OpenOptions::new();
    how.append(true).create_new(true);
    how
}

// Checks that a folder has a file of that name. If it is missing, or that is not known, writes so, and returns
// `CannotOpen`; without memory for the path, `NoMemory`.
fn check_present<R: Files, E: Write>(
    rt: &R,
    alloc: Global,
    folder: &str,
    name: &str,
    err: &mut E,
) -> Result<(), ProgramFault>
    ensures fault { IfErr result IsClosed }
    ensures quiet { OnOk result (err.new ≡ err.old) }
{
    let path = Path::new(folder).join(alloc, name)?;
    let path = path.as_path();
    match rt.metadata(path.as_str()) {
        Ok(_) => Ok(()),
        Err(error) if error.kind() == ErrorKind::NotFound => Err(write_cause(
            path.display(),
            "missing, and --existing begins no store; for a node that has never run, locks init does",
            err,
        )),
        Err(error) => Err(write_cause(path.display(), error, err)),
    }
}

/// Checks that both files of a folder are there; it opens and creates none. If one is missing, or that is not known,
/// it writes so, and returns `CannotOpen`; without memory for a path, `NoMemory`.
pub fn check_files<R: Files, E: Write>(
    rt: &R,
    alloc: Global,
    folder: &str,
    err: &mut E,
) -> Result<(), ProgramFault>
    ensures fault { IfErr result IsClosed }
    ensures quiet { OnOk result (err.new ≡ err.old) }
{
    'files: for name in NAMES {
        check_present(rt, alloc, folder, name, err)?;
    }
    Ok(())
}

// Checks that a folder has no file of that name. If there is one, or that is not known, writes so, and returns
// `CannotOpen`; without memory for the path, `NoMemory`.
fn check_absent<R: Files, E: Write>(
    rt: &R,
    alloc: Global,
    folder: &str,
    name: &str,
    err: &mut E,
) -> Result<(), ProgramFault>
    ensures fault { IfErr result IsClosed }
    ensures quiet { OnOk result (err.new ≡ err.old) }
{
    let path = Path::new(folder).join(alloc, name)?;
    let path = path.as_path();
    match rt.symlink_metadata(path.as_str()) {
        Ok(_) => Err(write_cause(
            path.display(),
            "exists; init begins a store only in a folder without files a and b",
            err,
        )),
        Err(error) if error.kind() == ErrorKind::NotFound => Ok(()),
        Err(error) => Err(write_cause(path.display(), error, err)),
    }
}

// Checks that a folder has neither file.
fn check_none<R: Files, E: Write>(
    rt: &R,
    alloc: Global,
    folder: &str,
    err: &mut E,
) -> Result<(), ProgramFault>
    ensures fault { IfErr result IsClosed }
    ensures quiet { OnOk result (err.new ≡ err.old) }
{
    'files: for name in NAMES {
        check_absent(rt, alloc, folder, name, err)?;
    }
    Ok(())
}

/// Creates the empty files of a folder, with the mode and the owner that a node gives them. If one of them exists it
/// changes nothing, writes so, and returns `CannotOpen`; also if one cannot be created. Without memory for a path it
/// returns `NoMemory`.
pub fn create_files<R: Files, E: Write>(
    rt: &R,
    alloc: Global,
    folder: &str,
    err: &mut E,
) -> Result<(), ProgramFault>
    ensures fault { IfErr result IsClosed }
    ensures quiet { OnOk result (err.new ≡ err.old) }
{
    check_none(rt, alloc, folder, err)?;
    'files: for name in NAMES {
        open_file(rt, alloc, &to_create(), folder, name, err)?;
    }
    Ok(())
}

impl FolderLock {
    /// Locks a folder; it creates the file `a` if that is missing. If the file does not open or another process has
    /// locked it, it writes which, and returns `CannotOpen`; without memory for the path, `NoMemory`.
    pub fn acquire<R: Files<File = File>, E: Write>(
        rt: &R,
        alloc: Global,
        folder: &str,
        err: &mut E,
    ) -> Result<FolderLock, ProgramFault>
        ensures fault { IfErr result IsClosed }
        ensures quiet { IfOk result (λ _. err.new ≡ err.old) }
    {
        let file = open_file(rt, alloc, &to_write(), folder, "a", err)?;
        match file.try_lock() {
            Ok(()) => Ok(FolderLock { _file: file }),
            Err(TryLockError::WouldBlock) => {
                Err(write_cause(folder, "in use by another process", err))
            }
            Err(TryLockError::Error(error)) => Err(write_cause(folder, error, err)),
        }
    }
}

/// The files of a folder as a device, with sums or without.
pub type FolderDevice<F> = OptionalSums<HidingDisk<SystemDisk<F>>>;

/// Opens the files of a folder as a device, to read and to write; it creates a missing file. It has sums if `sums` says
/// so, or if a file has begun with them. A damaged file that is not needed is hidden, and a warning says so. An older
/// file without sums beside one with sums is cut to nothing. On failure it writes the reason and returns the fault:
/// `CannotOpen`; `NoMemory`; `Device`, if a file cannot be read or cut; and `Damaged`, if a sum differs in a file that
/// is needed.
pub fn open_device<R: Files, E: Write>(
    rt: &R,
    alloc: Global,
    folder: &str,
    sums: bool,
    err: &mut E,
) -> Result<OpenedFiles<SystemDisk<R::File>>, ProgramFault>
    ensures fault { IfErr result IsUnopened }
    ensures quiet { IfOk result (λ o. o.hidden ≡ None → err.new ≡ err.old) }
{
    match FileDisk::open(rt, alloc, folder) {
        Ok(device) => open_to_write(alloc, device, sums, folder, err),
        Err(_) => Err(write_open_error(rt, alloc, &to_write(), folder, err)),
    }
}

/// Opens the files of a folder as a device to read only; it creates and cuts no file. It fails as `open_device` does.
pub fn look_at_device<R: Files, E: Write>(
    rt: &R,
    alloc: Global,
    folder: &str,
    err: &mut E,
) -> Result<OpenedFiles<SystemDisk<R::File>>, ProgramFault>
    ensures fault { IfErr result IsUnopened }
    ensures quiet { IfOk result (λ o. o.hidden ≡ None → err.new ≡ err.old) }
{
    let device = look_at_files(rt, alloc, folder, err)?;
    with_sums(alloc, device, false, folder, err)
}

/// Opens the files of a folder to read only, as they are; it creates no file. On failure it writes the reason and
/// returns `CannotOpen`; without memory for a path, `NoMemory`.
pub fn look_at_files<R: Files, E: Write>(
    rt: &R,
    alloc: Global,
    folder: &str,
    err: &mut E,
) -> Result<SystemDisk<R::File>, ProgramFault>
    ensures fault { IfErr result IsClosed }
    ensures quiet { IfOk result (λ _. err.new ≡ err.old) }
{
    match FileDisk::open_read_only(rt, alloc, folder) {
        Ok(device) => Ok(device),
        Err(_) => {
            let mut how = OpenOptions::new();
            how.read(true);
            Err(write_open_error(rt, alloc, &how, folder, err))
        }
    }
}
