// A device whose appends are frames with sums on the device below.
ghost use Rattle.std.specs.Prelude.{◌≡◌, ◌≤◌, ◌<◌, ◌+◌, ◌↔◌, length, slice_range, true, false, [], Some, IsTrue, IfOk};
ghost use Rattle.std.specs.Prelude.{IfErr, OnOk, OnErr};
ghost use Rattle.lk_disk.specs.Disk.{contents, appended, fully_synced, cut_to, other, one_more, AppendsSome, CutShort};
ghost use Rattle.lk_disk.specs.Disk.{HasCause};
ghost use Rattle.lk_disk.specs.Meters.{fresh as fresh_meter};
ghost use Rattle.lk_disk.specs.declared.device.Side.{Side};
ghost use Rattle.lk_disk.specs.declared.device.Side.TheVariants.{A, B};
ghost use Rattle.lk_summed_disk.specs.Frames.{HasSums};
ghost use Rattle.lk_summed_disk.specs.Opened.{IsSoundOn, IsDamagedOn, TurnsOn};
ghost use Rattle.lk_summed_disk.specs.Places.{Holds, is_summed};
ghost use Rattle.lk_summed_disk.specs.SummedValue.{below_at, disk_at};

use crate::fault::{OpenFault, OpenRefused};
use crate::parsing::{Parsed, read_side};
use crate::place::{Place, Places};
use crate::steps::{append_piece, clear, sync_whole, truncate_plain};
use lk_disk::{DeviceFault, LogDisk, Side};
use std::alloc::Global;
use std::marker::Model;

/// A device whose appends are frames with sums on the device below. Its disks are the decoded bytes of those below; it
/// is honest if that device is.
///
/// A file without sums keeps its form until it is cut to nothing. Of a file with sums, a cut to more than nothing fails
/// and changes nothing. An append also fails if memory runs out, or if a torn rest is still there, which the next sync
/// removes. After a failed append or cut, `length`, `append` and `sync` fail at that side until it is cut to nothing.
#[derive(Drop)]
pub struct SummedDisk<D: LogDisk + Drop> {
    alloc: Global,
    inner: D,
    // an empty file begins with sums
    sums: bool,
    places: Places,
    failures: u64,
}

impl<D: LogDisk + Drop> Model for SummedDisk<D> {
    ghost use Rattle.lk_disk.specs.Disk.{contents};
    ghost use Rattle.lk_disk.specs.declared.device.Side.{Side};
    ghost use Rattle.lk_summed_disk.specs.Places.{Holds, place_at};
    ghost use Rattle.lk_summed_disk.specs.SummedValue.{SummedValue, over};

    ghost Value = { SummedValue };

    ghost view = { λ d. over (D.disk d.inner) d.sums d.failures };

    ghost invariant = { λ d. D.is_honest → (s : Side) → Holds s (contents (D.disk d.inner s)) (place_at d.places s) };
}

/// An opened device, and how many bytes its files have.
#[derive(Drop)]
pub struct OpenedSums<D: LogDisk + Drop> {
    pub device: SummedDisk<D>,
    pub a: usize,
    pub b: usize,
}

// Whether an empty file begins with sums: if that is asked for, or if a file with one of these places has them.
fn is_on(asked: bool, a: &Place, b: &Place) -> bool
    ensures asked { asked ≡ true → result ≡ true }
    ensures a { is_summed a.now.form ≡ true → result ≡ true }
    ensures b { is_summed b.now.form ≡ true → result ≡ true }
    ensures neither { asked ≡ false → is_summed a.now.form ≡ false → is_summed b.now.form ≡ false
        → result ≡ false }
{
    if asked {
        return true;
    }
    if a.has_sums() {
        return true;
    }
    b.has_sums()
}

// Whether a file with this place has sums, and some text.
fn has_frames(place: Option<Place>) -> bool {
    match place {
        Some(place) => place.has_sums() && place.size != 0,
        None => false,
    }
}

// Reads both files, and returns how each goes on.
fn read_both<D: LogDisk>(alloc: Global, device: &mut D) -> Result<(Place, Place), OpenFault>
    ensures unchanged { D.is_honest → (s : Side) → D.disk device.new s ≡ D.disk device.old s }
    ensures a { D.is_honest → IfOk result (λ p. Holds A (contents (D.disk device.old A)) (Some p.0)) }
    ensures b { D.is_honest → IfOk result (λ p. Holds B (contents (D.disk device.old B)) (Some p.1)) }
    ensures damaged { D.is_honest → IfErr result (λ e. IsDamagedOn (D.disk device.old) e) }
    ensures has_a { D.is_honest → IfOk result
        (λ p. is_summed p.0.form ≡ true ↔ HasSums A (contents (D.disk device.old A))) }
    ensures has_b { D.is_honest → IfOk result
        (λ p. is_summed p.1.form ≡ true ↔ HasSums B (contents (D.disk device.old B))) }
{
    let Parsed { text: _, place: a } = read_side(alloc, device, Side::A)?;
    let Parsed { text: _, place: b } = read_side(alloc, device, Side::B)?;
    Ok((a, b))
}

impl<D: LogDisk + Drop> SummedDisk<D> {
    /// Reads both files of the device, and checks every sum. With `sums`, and if either file has sums, an empty file
    /// begins with them. Changes nothing. A refusal returns the device.
    ///
    /// A front of what was appended, as a stop leaves it, is no damage.
    pub fn open(alloc: Global, inner: D, sums: bool) -> Result<OpenedSums<D>, OpenRefused<D>>
        // Its disks are the decoded ones.
        ensures below { D.is_honest → IfOk result (λ o. (s : Side) → below_at o.device s ≡ D.disk inner s) }
        ensures sound { D.is_honest → OnOk result ((s : Side) → IsSoundOn (D.disk inner) s) }
        // It has sums on if that was asked for, or if a file has sums, and else not.
        ensures on { D.is_honest → IfOk result (λ o. TurnsOn sums (D.disk inner) o.device.sums) }
        ensures a { D.is_honest → IfOk result (λ o. o.a ≡ length (contents (disk_at o.device A))) }
        ensures b { D.is_honest → IfOk result (λ o. o.b ≡ length (contents (disk_at o.device B))) }
        ensures failures { IfOk result (λ o. o.device.failures ≡ 0) }
        ensures damaged { D.is_honest → IfErr result (λ e. IsDamagedOn (D.disk inner) e.fault) }
        ensures unchanged { D.is_honest → IfErr result (λ e. (s : Side) → D.disk e.device s ≡ D.disk inner s) }
    {
        let mut inner = inner;
        match read_both(alloc, &mut inner) {
            Ok((a, b)) => Ok(OpenedSums {
                a: a.size,
                b: b.size,
                device: SummedDisk {
                    alloc,
                    inner,
                    sums: is_on(sums, &a, &b),
                    places: Places {
                        a: Some(a),
                        b: Some(b),
                    },
                    failures: 0,
                },
            }),
            Err(fault) => Err(OpenRefused {
                fault,
                device: inner,
            }),
        }
    }

    /// The device below. A stop leaves no damage of it, and no more than it may leave of this device.
    pub fn below(&self) -> &D
        ensures disk { (s : Side) → below_at self.now s ≡ D.disk result.now s }
        ensures sound { D.is_honest → (s : Side) → IsSoundOn (D.disk result.now) s }
    {
        &self.inner
    }

    /// Whether a file has sums, and some text in whole frames.
    pub fn has_frames(&self) -> bool {
        has_frames(self.places.a) || has_frames(self.places.b)
    }

    // Counts a failure.
    fn fail(&mut self) -> DeviceFault
        ensures { self.new ≡ record self.old { failures = one_more self.old.failures } }
    {
        self.failures = self.failures.saturating_add(1);
        DeviceFault
    }

    // Appends a piece. Where sums are on, an empty file begins with them.
    fn append_piece(&mut self, side: Side, piece: &[u8]) -> Result<(), DeviceFault>
        ensures ok { D.is_honest → OnOk result (disk_at self.new side ≡ appended (disk_at self.old side) piece.now) }
        ensures err { D.is_honest
            → OnErr result (AppendsSome piece.now (disk_at self.old side) (disk_at self.new side)) }
        ensures beside { D.is_honest → disk_at self.new (other side) ≡ disk_at self.old (other side) }
        ensures begins { D.is_honest → IsTrue self.old.sums → contents (below_at self.old side) ≡ []
            → OnOk result (HasSums side (contents (below_at self.new side))) }
        ensures sums { self.new.sums ≡ self.old.sums }
        ensures cause { HasCause self.old.failures self.new.failures result }
    {
        let Some(place) = self.places.at(side) else {
            return Err(self.fail());
        };
        match append_piece(self.alloc, &mut self.inner, side, self.sums, place, piece) {
            Ok(place) => {
                self.places.set(side, Some(place));
                Ok(())
            }
            Err(DeviceFault) => {
                self.places.set(side, None);
                Err(self.fail())
            }
        }
    }
}

impl<D: LogDisk + Drop> LogDisk for SummedDisk<D> {
    ghost disk = { disk_at };

    ghost is_honest = { D.is_honest };

    ghost failures = { λ d. d.failures };

    // An append needs memory, and a meter of the device below counts other calls: this device is not metered.
    ghost meter = { λ _. fresh_meter };

    ghost is_metered = { ⊥ };

    fn length(&mut self, side: Side) -> Result<usize, DeviceFault> {
        match self.places.at(side) {
            Some(place) => Ok(place.size),
            None => Err(self.fail()),
        }
    }

    // Reads the file anew, and checks every sum again.
    fn read_into(
        &mut self,
        side: Side,
        offset: usize,
        buffer: &mut [u8],
    ) -> Result<(), DeviceFault> {
        let Ok(Parsed { text, place: _ }) = read_side(self.alloc, &mut self.inner, side) else {
            return Err(self.fail());
        };
        let end = offset.saturating_add(buffer.len());
        let Some(bytes) = text.get(offset..end) else {
            return Err(self.fail());
        };
        buffer.copy_from_slice(bytes);
        Ok(())
    }

    fn append(&mut self, side: Side, piece: &[u8]) -> Result<(), DeviceFault> {
        self.append_piece(side, piece)
    }

    fn flush(&mut self, side: Side) -> Result<(), DeviceFault> {
        match self.inner.flush(side) {
            Ok(()) => Ok(()),
            Err(DeviceFault) => Err(self.fail()),
        }
    }

    // Also removes what follows the last whole frame.
    fn sync(&mut self, side: Side) -> Result<(), DeviceFault> {
        let Some(place) = self.places.at(side) else {
            return Err(self.fail());
        };
        match sync_whole(&mut self.inner, side, place) {
            Ok(place) => {
                self.places.set(side, Some(place));
                Ok(())
            }
            Err(DeviceFault) => Err(self.fail()),
        }
    }

    fn cut(&mut self, side: Side, len: usize) -> Result<(), DeviceFault> {
        let cut = match (len, self.places.at(side)) {
            (0, _) => clear(&mut self.inner, side),
            (_, Some(place)) => truncate_plain(&mut self.inner, side, place, len),
            (_, None) => Err(DeviceFault),
        };
        match cut {
            Ok(place) => {
                self.places.set(side, Some(place));
                Ok(())
            }
            Err(DeviceFault) => {
                self.places.set(side, None);
                Err(self.fail())
            }
        }
    }
}
