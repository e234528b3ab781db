// Checks the sums of one file.
ghost use Rattle.std.specs.Prelude.{◌≡◌, ◌↔◌, true, IfOk, IfErr, OnOk};
ghost use Rattle.lk_disk.specs.Disk.{contents};
ghost use Rattle.lk_disk.specs.declared.device.Side.{Side};
ghost use Rattle.lk_summed_disk.specs.Frames.{HasSums};
ghost use Rattle.lk_summed_disk.specs.Opened.{IsSoundOn};
ghost use Rattle.lk_summed_disk.specs.Parsed.{IsTrueDamage};

use crate::fault::OpenFault;
use crate::parsing::{Parsed, read_side};
use lk_disk::{LogDisk, Side};
use std::alloc::Global;

/// Reads the file at a side, and checks every sum. Returns whether it has sums. Changes nothing.
///
/// What a stop may leave at the end is no damage, and nothing is damage in a file without sums.
pub fn check_side<D: LogDisk>(alloc: Global, device: &mut D, side: Side) -> Result<bool, OpenFault>
    ensures unchanged { D.is_honest → (s : Side) → D.disk device.new s ≡ D.disk device.old s }
    ensures sound { D.is_honest → OnOk result (IsSoundOn (D.disk device.old) side) }
    ensures damaged { D.is_honest → IfErr result (λ e. IsTrueDamage side (contents (D.disk device.old side)) e) }
    ensures value { D.is_honest
        → IfOk result (λ has. has ≡ true ↔ HasSums side (contents (D.disk device.old side))) }
{
    let Parsed { text: _, place } = read_side(alloc, device, side)?;
    Ok(place.has_sums())
}
