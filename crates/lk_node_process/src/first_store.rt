//! `locks init`: begins the store of a node in a folder that has none.

ghost use Rattle.std.specs.Prelude.{◌≤◌, IfOk};
ghost use Rattle.lk_replica.specs.Revived.{MayGoOn};
ghost use Rattle.lk_node_process.specs.FirstStores.{BeginsStore};

use lk_disk::LogDisk;
use lk_node_files::causes::{FailureCause, write_cause};
use lk_node_files::folder::{FolderLock, create_files, open_device};
use lk_node_files::refusals::write_refusal;
use lk_program_fault::ProgramFault;
use lk_recovery::ReviveFault;
use lk_replica::Replica;
use lk_state::Machine;
use lk_store_format::Header;
use std::alloc::Global;
use std::fs::{File, Files};
use std::io::Write;

/// Begins the store of a header's node on the device of a folder, and returns the node's replica on it. If there was a
/// store, or a fault, it writes so; the device may then have changed as by a restart.
pub fn begin_store<M: Machine, D: LogDisk + FailureCause + Drop, E: Write>(
    alloc: Global,
    header: &Header,
    device: D,
    folder: &str,
    err: &mut E,
) -> Result<Replica<M, D>, ProgramFault>
    // There was no store, and the replica restarts exactly from a new one.
    ensures begins { D.is_honest → IfOk result (BeginsStore M.meaning M.IsText header.now (D.disk device)) }
    // It can take calls as the node of this header.
    ensures ready { IfOk result (λ r. MayGoOn header.now r) }
{
    match Replica::<M, D>::revive(alloc, device, header) {
        Ok(revived) => {
            if !revived.is_new {
                return Err(write_cause(folder, "has a store, and init begins none there", err));
            }
            Ok(revived.replica)
        }
        Err(refused) => {
            let ReviveFault { fault, device } = refused;
            let mut device = device;
            let told = ProgramFault::of_replica(&fault);
            Err(write_refusal(alloc, told, &mut device, folder, err))
        }
    }
}

/// What `locks init` is to do: the node with its genesis, the folder of its files, and whether the store has sums.
#[derive(Drop)]
pub struct InitPlan<'a> {
    pub header: Header,
    pub folder: &'a str,
    pub sums: bool,
}

// Creates the files of a folder that has neither, and begins the store in them.
fn begin_folder<M: Machine, R: Files<File = File>, E: Write>(
    rt: &R,
    alloc: Global,
    plan: &InitPlan<'_>,
    err: &mut E,
) -> Result<(), ProgramFault> {
    let folder = plan.folder;
    create_files(rt, alloc, folder, err)?;
    let _lock = FolderLock::acquire(rt, alloc, folder, err)?;
    let opened = open_device(rt, alloc, folder, plan.sums, err)?;
    begin_store::<M, _, E>(alloc, &plan.header, opened.device, folder, err)?;
    Ok(())
}

/// Begins the store of a plan's node in its folder, which must exist and have neither file of a store: otherwise
/// nothing changes. Returns status 0 once the store is synced, or 1 after an error message.
pub fn init<M: Machine, R: Files<File = File>, E: Write>(
    rt: &R,
    alloc: Global,
    plan: &InitPlan<'_>,
    err: &mut E,
) -> u8
    ensures { result ≤ 1 }
{
    match begin_folder::<M, R, E>(rt, alloc, plan, err) {
        Ok(()) => 0,
        Err(fault) => fault.write_to(err),
    }
}
