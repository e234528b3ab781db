// A device with sums, over which appended bytes wait in memory: what a sync or a flush hands over is one frame.
ghost use Rattle.std.specs.Prelude.{◌≡◌, IfOk, IfErr, OnOk, OnErr};
ghost use Rattle.lk_disk.specs.Disk.{appended, one_more, other, HasCause};
ghost use Rattle.lk_disk.specs.Meters.{fresh as fresh_meter};
ghost use Rattle.lk_disk.specs.declared.device.Side.{Side};
ghost use Rattle.lk_summed_disk.specs.Readers.{decoded};
ghost use Rattle.lk_summed_disk.specs.Opened.{IsSoundOn, IsDamagedOn, TurnsOn};
ghost use Rattle.lk_summed_disk.specs.GatheredValue.{gathered_at};

use crate::fault::OpenRefused;
use crate::summed_disk::{OpenedSums, SummedDisk};
use crate::waiting::{Waiting, cut_at, flush_at, keep_at, read_at, sync_at};
use lk_disk::{DeviceFault, LogDisk, Side};
use std::alloc::Global;
use std::marker::Model;

/// A device with sums that keeps appended bytes in memory, until `sync`, `read_into` or `cut` hands them over in one
/// append, which becomes one frame. A `flush` does so only if at least 4,096 bytes wait. It is honest if the device
/// below is.
///
/// A kill of the process loses the bytes that wait, and leaves what was synced and a prefix of the rest, as a stop of
/// the machine does. Of each side fewer than 4,096 bytes wait, and what was appended since the last flush or sync.
///
/// After a failed hand-over or cut each call at that side fails. An append also fails if memory runs out.
#[derive(Drop)]
pub struct GatheredDisk<D: LogDisk + Drop> {
    inner: SummedDisk<D>,
    a: Waiting,
    b: Waiting,
    failures: u64,
}

impl<D: LogDisk + Drop> Model for GatheredDisk<D> {
    ghost use Rattle.lk_disk.specs.declared.device.Side.TheVariants.{A, B};
    ghost use Rattle.lk_summed_disk.specs.SummedValue.{disk_at};
    ghost use Rattle.lk_summed_disk.specs.GatheredValue.{GatheredValue};
    ghost use Rattle.lk_summed_disk.specs.Waits.{Waits};

    ghost Value = { GatheredValue };

    ghost view = { λ d. record { inner = d.inner; a = d.a; b = d.b; failures = d.failures } };

    ghost invariant = { λ d. D.is_honest → Waits d.a (disk_at d.inner A) × Waits d.b (disk_at d.inner B) };
}

impl<D: LogDisk + Drop> GatheredDisk<D> {
    /// Opens the device with sums, as `SummedDisk::open` does, with nothing that waits.
    pub fn open(alloc: Global, below: D, sums: bool) -> Result<GatheredDisk<D>, OpenRefused<D>>
        // Its disks are the decoded ones.
        ensures disk { D.is_honest → IfOk result (λ d. (s : Side) → gathered_at d s ≡ decoded s (D.disk below s)) }
        ensures sound { D.is_honest → OnOk result ((s : Side) → IsSoundOn (D.disk below) s) }
        // It has sums on if that was asked for, or if a file has sums, and else not.
        ensures on { D.is_honest → IfOk result (λ d. TurnsOn sums (D.disk below) d.inner.sums) }
        ensures failures { IfOk result (λ d. d.failures ≡ 0) }
        ensures damaged { D.is_honest → IfErr result (λ e. IsDamagedOn (D.disk below) e.fault) }
        ensures unchanged { D.is_honest → IfErr result (λ e. (s : Side) → D.disk e.device s ≡ D.disk below s) }
    {
        match SummedDisk::open(alloc, below, sums) {
            Ok(OpenedSums { device, a, b }) => Ok(GatheredDisk {
                inner: device,
                a: Waiting::new(alloc, a),
                b: Waiting::new(alloc, b),
                failures: 0,
            }),
            Err(refused) => Err(refused),
        }
    }

    /// The device with sums, without what waits.
    pub fn inner(&self) -> &SummedDisk<D>
        ensures { result.now ≡ self.now.inner }
    {
        &self.inner
    }

    // Counts a failure.
    fn fail(&mut self) -> DeviceFault
        ensures { self.new ≡ record self.old { failures = one_more self.old.failures } }
    {
        self.failures = self.failures.saturating_add(1);
        DeviceFault
    }

    // Adds a piece to what waits, and counts nothing.
    fn keep(&mut self, side: Side, piece: &[u8]) -> Result<(), DeviceFault>
        ensures ok { D.is_honest
            → OnOk result (gathered_at self.new side ≡ appended (gathered_at self.old side) piece.now) }
        ensures err { D.is_honest → OnErr result (gathered_at self.new side ≡ gathered_at self.old side) }
        ensures beside { D.is_honest → gathered_at self.new (other side) ≡ gathered_at self.old (other side) }
        ensures failures { self.new.failures ≡ self.old.failures }
    {
        match side {
            Side::A => keep_at(&self.inner, side, &mut self.a, piece),
            Side::B => keep_at(&self.inner, side, &mut self.b, piece),
        }
    }

    // Counts a failure, if this call failed.
    fn count<T: Drop>(&mut self, done: Result<T, DeviceFault>) -> Result<T, DeviceFault>
        ensures same { result ≡ done }
        ensures unchanged { self.new ≡ record self.old { failures = self.new.failures } }
        ensures cause { HasCause self.old.failures self.new.failures result }
    {
        match done {
            Ok(value) => Ok(value),
            Err(DeviceFault) => {
                self.failures = self.failures.saturating_add(1);
                Err(DeviceFault)
            }
        }
    }
}

impl<D: LogDisk + Drop> LogDisk for GatheredDisk<D> {
    ghost disk = { gathered_at };

    ghost is_honest = { D.is_honest };

    ghost failures = { λ d. d.failures };

    // As the device with sums it is not metered.
    ghost meter = { λ _. fresh_meter };

    ghost is_metered = { ⊥ };

    fn length(&mut self, side: Side) -> Result<usize, DeviceFault> {
        let count = match side {
            Side::A => self.a.length(),
            Side::B => self.b.length(),
        };
        self.count(count)
    }

    fn read_into(
        &mut self,
        side: Side,
        offset: usize,
        buffer: &mut [u8],
    ) -> Result<(), DeviceFault> {
        let done = match side {
            Side::A => read_at(&mut self.inner, side, &mut self.a, offset, buffer),
            Side::B => read_at(&mut self.inner, side, &mut self.b, offset, buffer),
        };
        self.count(done)
    }

    fn append(&mut self, side: Side, piece: &[u8]) -> Result<(), DeviceFault> {
        match self.keep(side, piece) {
            Ok(()) => Ok(()),
            Err(DeviceFault) => Err(self.fail()),
        }
    }

    fn flush(&mut self, side: Side) -> Result<(), DeviceFault> {
        let done = match side {
            Side::A => flush_at(&mut self.inner, side, &mut self.a),
            Side::B => flush_at(&mut self.inner, side, &mut self.b),
        };
        self.count(done)
    }

    fn sync(&mut self, side: Side) -> Result<(), DeviceFault> {
        let done = match side {
            Side::A => sync_at(&mut self.inner, side, &mut self.a),
            Side::B => sync_at(&mut self.inner, side, &mut self.b),
        };
        self.count(done)
    }

    fn cut(&mut self, side: Side, len: usize) -> Result<(), DeviceFault> {
        let done = match side {
            Side::A => cut_at(&mut self.inner, side, &mut self.a, len),
            Side::B => cut_at(&mut self.inner, side, &mut self.b, len),
        };
        self.count(done)
    }
}
