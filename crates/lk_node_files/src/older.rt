//! Finds out whether a file with sums is older than the other one.

ghost use Rattle.std.specs.Prelude.{◌≡◌, ℕ, true, false, Ok, None, IfOk, IfErr, IfSome};
ghost use Rattle.lk_disk.specs.Disk.{contents, other};
ghost use Rattle.lk_disk.specs.declared.device.Side.{Side as SideValue};
ghost use Rattle.lk_summed_disk.specs.Opened.{IsNoDamage};
ghost use Rattle.lk_node_files.specs.Older.{BeginsWith, HasGeneration, IsOlder};

use lk_disk::{LogDisk, Side};
use lk_store_format::{EntryFault, Stored, first_entry};
use lk_summed_disk::{OpenFault, legible_text};
use std::alloc::Global;

// Returns the other side.
pub(crate) fn other(side: Side) -> Side
    ensures { result ≡ other side }
{
    match side {
        Side::A => Side::B,
        Side::B => Side::A,
    }
}

// Reads the whole file at a side.
pub(crate) fn read_file<D: LogDisk>(
    alloc: Global,
    device: &mut D,
    side: Side,
) -> Result<Vec<u8>, OpenFault>
    ensures unchanged { D.is_honest → (s : SideValue) → D.disk device.new s ≡ D.disk device.old s }
    ensures bytes { D.is_honest → IfOk result (λ bytes. bytes.items ≡ contents (D.disk device.old side)) }
    ensures fault { IfErr result IsNoDamage }
{
    let count = device.length(side)?;
    let mut bytes = vec![in alloc; 0; count]?;
    device.read_into(side, 0, &mut bytes)?;
    Ok(bytes)
}

// Returns the generation of the Base that the bytes begin with, or `None` if they begin with none.
pub(crate) fn generation_of(alloc: Global, bytes: &[u8]) -> Result<Option<u64>, OpenFault>
    ensures some { IfOk result (λ r. IfSome r (λ generation. BeginsWith generation bytes.now)) }
    ensures none { result ≡ Ok None → (generation : ℕ) → BeginsWith generation bytes.now → ⊥ }
    ensures fault { IfErr result IsNoDamage }
{
    match first_entry(alloc, bytes) {
        Ok((Stored::Base(base), _)) => Ok(Some(base.generation)),
        Ok((Stored::Plain(_), _)) => Ok(None),
        Err(EntryFault::NoEntry) => Ok(None),
        Err(EntryFault::NoMemory) => Err(OpenFault::NoMemory),
    }
}

// Returns the generation of the file at a side, or `None` if it has no sums, or does not begin with a Base before any
// wrong one.
pub(crate) fn generation_at<D: LogDisk>(
    alloc: Global,
    device: &mut D,
    side: Side,
) -> Result<Option<u64>, OpenFault>
    ensures unchanged { D.is_honest → (s : SideValue) → D.disk device.new s ≡ D.disk device.old s }
    ensures some { D.is_honest → IfOk result (λ r. IfSome r (HasGeneration (D.disk device.old) side)) }
    ensures none { D.is_honest → result ≡ Ok None
        → (generation : ℕ) → HasGeneration (D.disk device.old) side generation → ⊥ }
    ensures fault { IfErr result IsNoDamage }
{
    match legible_text(alloc, device, side)? {
        Some(text) => generation_of(alloc, &text),
        None => Ok(None),
    }
}

/// Returns whether the file at a side is older than the other one: both have sums and begin with a Base, before any
/// wrong sum, and that of the other one has the greater generation. Changes nothing.
pub fn is_older<D: LogDisk>(alloc: Global, device: &mut D, side: Side) -> Result<bool, OpenFault>
    ensures unchanged { D.is_honest → (s : SideValue) → D.disk device.new s ≡ D.disk device.old s }
    ensures yes { D.is_honest → IfOk result (λ older. older ≡ true → IsOlder (D.disk device.old) side) }
    ensures no { D.is_honest → IfOk result (λ older. older ≡ false → IsOlder (D.disk device.old) side → ⊥) }
    ensures fault { IfErr result IsNoDamage }
{
    let Some(own) = generation_at(alloc, device, side)? else {
        return Ok(false);
    };
    let Some(newer) = generation_at(alloc, device, other(side))? else {
        return Ok(false);
    };
    Ok(own < newer)
}
