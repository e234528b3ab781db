// The calls of the device below that change a file, and the place of the file after them.
ghost use Rattle.std.specs.Prelude.{◌≡◌, ◌≤◌, ◌<◌, [], length, Some, IsTrue, OnOk, OnErr, IfOk};
ghost use Rattle.lk_disk.specs.Disk.{contents, appended, fully_synced, cut_to, other, AppendsSome, CutShort};
ghost use Rattle.lk_summed_disk.specs.Readers.{decoded};
ghost use Rattle.lk_summed_disk.specs.Places.{Holds};
ghost use Rattle.lk_summed_disk.specs.Opened.{HoldsAfter, IsSoundOn};
ghost use Rattle.lk_summed_disk.specs.Frames.{HasSums};

use crate::addition::{Addition, make_addition};
use crate::place::{Form, Place};
use lk_disk::{DeviceFault, LogDisk, Side};
use std::alloc::Global;

/// Appends a piece to a file. Fails, and changes nothing, if the file is not whole.
#[tactic(auto, using(crate::proofs::DiskLaws::appends_none, crate::proofs::DiskLaws::holds_none))]
pub fn append_piece<D: LogDisk>(
    alloc: Global,
    device: &mut D,
    side: Side,
    sums: bool,
    place: Place,
    piece: &[u8],
) -> Result<Place, DeviceFault>
    ensures holds { D.is_honest → Holds side (contents (D.disk device.old side)) (Some place)
        → HoldsAfter side (D.disk device.new side) result }
    ensures ok { D.is_honest → Holds side (contents (D.disk device.old side)) (Some place)
        → OnOk result
        (decoded side (D.disk device.new side) ≡ appended (decoded side (D.disk device.old side)) piece.now) }
    ensures err { D.is_honest → Holds side (contents (D.disk device.old side)) (Some place)
        → OnErr result
        (AppendsSome piece.now (decoded side (D.disk device.old side)) (decoded side (D.disk device.new side))) }
    ensures begins { D.is_honest → Holds side (contents (D.disk device.old side)) (Some place) → IsTrue sums
        → contents (D.disk device.old side) ≡ [] → OnOk result (HasSums side (contents (D.disk device.new side))) }
    ensures beside { D.is_honest → D.disk device.new (other side) ≡ D.disk device.old (other side) }
{
    if !place.is_whole {
        return Err(DeviceFault);
    }
    let Some(Addition { bytes, form }) = make_addition(alloc, side, place.form, sums, piece) else {
        return Err(DeviceFault);
    };
    let Some(grown) = place.grown(form, bytes.len(), piece.len()) else {
        return Err(DeviceFault);
    };
    match device.append(side, &bytes) {
        Ok(()) => Ok(grown),
        Err(DeviceFault) => Err(DeviceFault),
    }
}

/// Syncs a file, and then cuts off what follows its last whole frame. If only that cut fails, it is no error: the place
/// then says that the file is not whole.
pub fn sync_whole<D: LogDisk>(
    device: &mut D,
    side: Side,
    place: Place,
) -> Result<Place, DeviceFault>
    ensures holds { D.is_honest → Holds side (contents (D.disk device.old side)) (Some place)
        → IfOk result (λ p. Holds side (contents (D.disk device.new side)) (Some p)) }
    ensures ok { D.is_honest → Holds side (contents (D.disk device.old side)) (Some place)
        → OnOk result (decoded side (D.disk device.new side) ≡ fully_synced (decoded side (D.disk device.old side))) }
    ensures err { D.is_honest → OnErr result (D.disk device.new side ≡ D.disk device.old side) }
    ensures beside { D.is_honest → D.disk device.new (other side) ≡ D.disk device.old (other side) }
{
    device.sync(side)?;
    if place.is_whole {
        return Ok(place);
    }
    match device.cut(side, place.end) {
        Ok(()) => Ok(place.made_whole()),
        Err(DeviceFault) => Ok(place),
    }
}

/// Cuts a file to nothing.
pub fn clear<D: LogDisk>(device: &mut D, side: Side) -> Result<Place, DeviceFault>
    ensures holds { D.is_honest → IsSoundOn (D.disk device.old) side
        → HoldsAfter side (D.disk device.new side) result }
    ensures ok { D.is_honest
        → OnOk result (decoded side (D.disk device.new side) ≡ cut_to 0 (decoded side (D.disk device.old side))) }
    ensures err { D.is_honest
        → OnErr result (CutShort 0 (decoded side (D.disk device.old side)) (decoded side (D.disk device.new side))) }
    ensures beside { D.is_honest → D.disk device.new (other side) ≡ D.disk device.old (other side) }
{
    match device.cut(side, 0) {
        Ok(()) => Ok(Place::EMPTY),
        Err(DeviceFault) => Err(DeviceFault),
    }
}

/// Cuts a file without sums to some of its bytes. Fails, and changes nothing, if it has sums.
#[tactic(auto, using(crate::proofs::DiskLaws::cuts_none, crate::proofs::DiskLaws::holds_none))]
pub fn truncate_plain<D: LogDisk>(
    device: &mut D,
    side: Side,
    place: Place,
    len: usize,
) -> Result<Place, DeviceFault>
    requires some { 1 ≤ len }
    ensures holds { D.is_honest → Holds side (contents (D.disk device.old side)) (Some place)
        → HoldsAfter side (D.disk device.new side) result }
    ensures ok { D.is_honest → Holds side (contents (D.disk device.old side)) (Some place)
        → OnOk result (decoded side (D.disk device.new side) ≡ cut_to len (decoded side (D.disk device.old side))) }
    ensures within { D.is_honest → Holds side (contents (D.disk device.old side)) (Some place)
        → OnOk result (len ≤ length (contents (decoded side (D.disk device.old side)))) }
    ensures err { D.is_honest → Holds side (contents (D.disk device.old side)) (Some place)
        → OnErr result (CutShort len (decoded side (D.disk device.old side)) (decoded side (D.disk device.new side))) }
    ensures past_end { D.is_honest → Holds side (contents (D.disk device.old side)) (Some place)
        → length (contents (decoded side (D.disk device.old side))) < len
        → decoded side (D.disk device.new side) ≡ decoded side (D.disk device.old side) }
    ensures beside { D.is_honest → D.disk device.new (other side) ≡ D.disk device.old (other side) }
{
    let Form::Plain = place.form else {
        return Err(DeviceFault);
    };
    match device.cut(side, len) {
        Ok(()) => Ok(Place {
            form: Form::Plain,
            end: len,
            size: len,
            is_whole: true,
        }),
        Err(DeviceFault) => Err(DeviceFault),
    }
}
