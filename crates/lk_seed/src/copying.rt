//! Copies disks in memory to a device.

ghost use Rattle.std.specs.Prelude.{◌≡◌, [], ◌++◌, IfOk, OnOk};
ghost use Rattle.lk_disk.specs.Disk.{appended, contents, fully_synced, other};
ghost use Rattle.lk_disk.specs.declared.device.Side.{Side as SideValue};
ghost use Rattle.lk_memory_disk.specs.Memory.{disk_of};
ghost use Rattle.lk_seed.specs.Seedings.{AreCopied, HasSynced};

use lk_disk::{DeviceFault, LogDisk, Side};
use lk_memory_disk::MemoryDisk;
use lk_program_fault::ProgramFault;
use std::alloc::Global;

// Reads all bytes of a disk.
fn bytes_of(alloc: Global, disks: &mut MemoryDisk, side: Side) -> Result<Vec<u8>, ProgramFault>
    ensures bytes { IfOk result (λ bytes. bytes.items ≡ contents (disk_of disks.old side)) }
    ensures unchanged { (s : SideValue) → disk_of disks.new s ≡ disk_of disks.old s }
{
    let Ok(count) = disks.length(side) else {
        return Err(ProgramFault::NoMemory);
    };
    let mut bytes = vec![in alloc; 0; count]?;
    match disks.read_into(side, 0, &mut bytes) {
        Ok(()) => Ok(bytes),
        Err(DeviceFault) => Err(ProgramFault::NoMemory),
    }
}

// Writes bytes to a disk of a device and syncs it. It fails if the disk is not empty.
#[tactic(auto, using(crate::proofs::StoreLaws::is_synced))]
fn write_side<D: LogDisk>(device: &mut D, side: Side, bytes: &[u8]) -> Result<(), DeviceFault>
    ensures written { D.is_honest → OnOk result (HasSynced (D.disk device.new side) bytes.now) }
    ensures beside { D.is_honest → D.disk device.new (other side) ≡ D.disk device.old (other side) }
{
    if device.length(side)? != 0 {
        return Err(DeviceFault);
    }
    device.append(side, bytes)?;
    device.sync(side)
}

// Copies a disk.
fn copy_side<D: LogDisk>(
    alloc: Global,
    disks: &mut MemoryDisk,
    device: &mut D,
    side: Side,
) -> Result<(), ProgramFault>
    ensures copied { D.is_honest
        → OnOk result (HasSynced (D.disk device.new side) (contents (disk_of disks.old side))) }
    ensures beside { D.is_honest → D.disk device.new (other side) ≡ D.disk device.old (other side) }
    ensures unchanged { (s : SideValue) → disk_of disks.new s ≡ disk_of disks.old s }
{
    let bytes = bytes_of(alloc, disks, side)?;
    match write_side(device, side, &bytes) {
        Ok(()) => Ok(()),
        Err(DeviceFault) => Err(ProgramFault::Device),
    }
}

/// Copies both disks to a device whose own are empty, and syncs them.
#[tactic(auto, using(crate::proofs::StoreLaws::are_copied))]
pub fn copy_disks<D: LogDisk>(
    alloc: Global,
    disks: &mut MemoryDisk,
    device: &mut D,
) -> Result<(), ProgramFault>
    ensures { D.is_honest → OnOk result (AreCopied disks.old (D.disk device.new)) }
{
    copy_side(alloc, disks, device, Side::A)?;
    copy_side(alloc, disks, device, Side::B)
}
