//! Cuts to nothing an older file without sums, which a stop in the middle of the first snapshot with sums has left. A
//! program that knows no sums would go on in it.

ghost use Rattle.std.specs.Prelude.{◌≡◌, ◌⊎◌, ℕ, true, false, Ok, None, IfOk, IfErr, IfSome, OnOk, OnErr};
ghost use Rattle.lk_disk.specs.Disk.{contents};
ghost use Rattle.lk_disk.specs.declared.device.Side.{Side as SideValue};
ghost use Rattle.lk_summed_disk.specs.Hiding.{nothing};
ghost use Rattle.lk_summed_disk.specs.Opened.{IsNoDamage, IsSoundOn};
ghost use Rattle.lk_node_files.specs.Older.{BeginsWith};
ghost use Rattle.lk_node_files.specs.Outdated.{AreKept, CutsOutdated, CutsSome, IsCut, IsOutdated};

use crate::older::{generation_at, generation_of, other, read_file};
use lk_disk::{DeviceFault, LogDisk, Side};
use lk_summed_disk::{OpenFault, check_side};
use std::alloc::Global;

// Returns the generation of the Base that the bytes of a file begin with, or `None` if they begin with none: those of a
// file with sums do not.
fn plain_generation_at<D: LogDisk>(
    alloc: Global,
    device: &mut D,
    side: Side,
) -> Result<Option<u64>, OpenFault>
    ensures unchanged { D.is_honest → (s : SideValue) → D.disk device.new s ≡ D.disk device.old s }
    ensures some { D.is_honest
        → IfOk result (λ r. IfSome r (λ generation. BeginsWith generation (contents (D.disk device.old side)))) }
    ensures none { D.is_honest → result ≡ Ok None
        → (generation : ℕ) → BeginsWith generation (contents (D.disk device.old side)) → ⊥ }
    ensures fault { IfErr result IsNoDamage }
{
    let bytes = read_file(alloc, device, side)?;
    generation_of(alloc, &bytes)
}

// Returns whether the file at a side is not damaged.
fn is_sound<D: LogDisk>(alloc: Global, device: &mut D, side: Side) -> Result<bool, OpenFault>
    ensures unchanged { D.is_honest → (s : SideValue) → D.disk device.new s ≡ D.disk device.old s }
    ensures yes { D.is_honest → IfOk result (λ sound. sound ≡ true → IsSoundOn (D.disk device.old) side) }
    ensures no { D.is_honest → IfOk result (λ sound. sound ≡ false → IsSoundOn (D.disk device.old) side → ⊥) }
    ensures fault { IfErr result IsNoDamage }
{
    match check_side(alloc, device, side) {
        Ok(_) => Ok(true),
        Err(OpenFault::Damaged(_, _)) => Ok(false),
        Err(OpenFault::Device) => Err(OpenFault::Device),
        Err(OpenFault::NoMemory) => Err(OpenFault::NoMemory),
    }
}

// Returns whether the file at a side is outdated.
fn is_outdated<D: LogDisk>(alloc: Global, device: &mut D, side: Side) -> Result<bool, OpenFault>
    ensures unchanged { D.is_honest → (s : SideValue) → D.disk device.new s ≡ D.disk device.old s }
    ensures yes { D.is_honest → IfOk result (λ it. it ≡ true → IsOutdated (D.disk device.old) side) }
    ensures no { D.is_honest → IfOk result (λ it. it ≡ false → IsOutdated (D.disk device.old) side → ⊥) }
    ensures fault { IfErr result IsNoDamage }
{
    let Some(own) = plain_generation_at(alloc, device, side)? else {
        return Ok(false);
    };
    let beside = other(side);
    let Some(newer) = generation_at(alloc, device, beside)? else {
        return Ok(false);
    };
    if newer <= own {
        return Ok(false);
    }
    is_sound(alloc, device, beside)
}

// Finds the outdated file.
fn find_outdated<D: LogDisk>(alloc: Global, device: &mut D) -> Result<Option<Side>, OpenFault>
    ensures unchanged { D.is_honest → (s : SideValue) → D.disk device.new s ≡ D.disk device.old s }
    ensures some { D.is_honest → IfOk result (λ r. IfSome r (IsOutdated (D.disk device.old))) }
    ensures none { D.is_honest → result ≡ Ok None → (s : SideValue) → IsOutdated (D.disk device.old) s → ⊥ }
    ensures fault { IfErr result IsNoDamage }
{
    if is_outdated(alloc, device, Side::A)? {
        return Ok(Some(Side::A));
    }
    if is_outdated(alloc, device, Side::B)? {
        return Ok(Some(Side::B));
    }
    Ok(None)
}

// Cuts the file at a side to nothing, once the other one is synced.
fn cut_beside<D: LogDisk>(device: &mut D, side: Side) -> Result<(), DeviceFault>
    ensures cut { D.is_honest → OnOk result (IsCut (D.disk device.old) (D.disk device.new) side) }
    ensures empty { D.is_honest → OnOk result (D.disk device.new side ≡ nothing) }
    ensures err { D.is_honest → OnErr result (IsCut (D.disk device.old) (D.disk device.new) side
        ⊎ AreKept (D.disk device.old) (D.disk device.new)) }
{
    device.sync(other(side))?;
    device.cut(side, 0)?;
    Ok(())
}

/// Cuts to nothing a file without sums that is older than the other one, if that has sums and is not damaged: as the
/// snapshot would have done next that a stop has interrupted. The other file is synced first. Without such a file it
/// changes nothing.
///
/// It fails with `Device` and `NoMemory`. Then the file may be cut short: a restart goes on as from the whole file.
pub fn cut_outdated<D: LogDisk>(alloc: Global, device: &mut D) -> Result<(), OpenFault>
    ensures ok { D.is_honest → OnOk result (CutsOutdated (D.disk device.old) (D.disk device.new)) }
    ensures err { D.is_honest → OnErr result (CutsSome (D.disk device.old) (D.disk device.new)) }
    ensures fault { IfErr result IsNoDamage }
{
    match find_outdated(alloc, device)? {
        Some(side) => {
            cut_beside(device, side)?;
            Ok(())
        }
        None => Ok(()),
    }
}
