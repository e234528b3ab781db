// A device with sums where they were asked for, or where a file has begun with them, and else without.
ghost use Rattle.std.specs.Prelude.{◌≡◌, ◌≤◌, ◌↔◌, true, false, length, IfOk, IfErr};
ghost use Rattle.lk_disk.specs.Disk.{contents};
ghost use Rattle.lk_disk.specs.Meters.{fresh as fresh_meter};
ghost use Rattle.lk_disk.specs.declared.device.Side.{Side};
ghost use Rattle.lk_summed_disk.specs.Beginnings.{HasBegun, IsFront};
ghost use Rattle.lk_summed_disk.specs.Opened.{IsDamagedOn, IsNoDamage};
ghost use Rattle.lk_summed_disk.specs.Options.{IsWanted, OpensAs, disk_in, failures_in};

use crate::fault::{OpenFault, OpenRefused};
use crate::frame::{MAGIC_LENGTH, magic};
use crate::gathered_disk::GatheredDisk;
use lk_disk::{DeviceFault, LogDisk, Side};
use std::alloc::Global;

/// A device with sums, or the device below as it is. It is honest if the device below is.
#[derive(Drop)]
pub enum OptionalSums<D: LogDisk + Drop> {
    Without(D),
    With(GatheredDisk<D>),
}

// Whether these are the first bytes of a magic, or all of them.
fn is_front(side: Side, bytes: &[u8]) -> bool
    requires { length bytes.now ≤ 8 }
    ensures { result ≡ true ↔ IsFront side bytes.now }
{
    let magic = magic(side);
    if bytes.is_empty() {
        return false;
    }
    bytes == &magic[..bytes.len()]
}

// Whether the file at a side has begun with sums.
#[tactic(auto, using(crate::proofs::OptionLaws::front_begun))]
fn has_begun<D: LogDisk>(alloc: Global, device: &mut D, side: Side) -> Result<bool, OpenFault>
    ensures unchanged { D.is_honest → (s : Side) → D.disk device.new s ≡ D.disk device.old s }
    ensures value { D.is_honest
        → IfOk result (λ begun. begun ≡ true ↔ HasBegun side (contents (D.disk device.old side))) }
    ensures fault { IfErr result IsNoDamage }
{
    let count = device.length(side)?.min(MAGIC_LENGTH);
    let mut bytes = vec![in alloc; 0; count]?;
    device.read_into(side, 0, &mut bytes)?;
    Ok(is_front(side, &bytes))
}

// Whether a device is to have sums: if that is asked for, or if one of its files has begun with them.
#[tactic(auto, using(crate::proofs::OptionLaws::is_wanted))]
fn is_wanted<D: LogDisk>(alloc: Global, device: &mut D, asked: bool) -> Result<bool, OpenFault>
    ensures unchanged { D.is_honest → (s : Side) → D.disk device.new s ≡ D.disk device.old s }
    ensures value { D.is_honest → IfOk result (IsWanted asked (D.disk device.old)) }
    ensures fault { IfErr result IsNoDamage }
{
    let a = has_begun(alloc, device, Side::A)?;
    let b = has_begun(alloc, device, Side::B)?;
    Ok(is_either(asked, a, b))
}

// Whether one of these is so.
fn is_either(asked: bool, a: bool, b: bool) -> bool
    ensures asked { asked ≡ true → result ≡ true }
    ensures a { a ≡ true → result ≡ true }
    ensures b { b ≡ true → result ≡ true }
    ensures neither { asked ≡ false → a ≡ false → b ≡ false → result ≡ false }
{
    if asked {
        return true;
    }
    if a {
        return true;
    }
    b
}

// Opens a device with sums, if they are wanted.
#[tactic(auto, using(crate::proofs::OptionLaws::opens_without, crate::proofs::OptionLaws::opens_with))]
fn open_as<D: LogDisk + Drop>(
    alloc: Global,
    device: D,
    wanted: bool,
    sums: bool,
) -> Result<OptionalSums<D>, OpenRefused<D>>
    ensures opens { D.is_honest → IsWanted sums (D.disk device) wanted
        → IfOk result (OpensAs D.disk sums (D.disk device)) }
    ensures damaged { D.is_honest → IfErr result (λ e. IsDamagedOn (D.disk device) e.fault) }
    ensures unchanged { D.is_honest → IfErr result (λ e. (s : Side) → D.disk e.device s ≡ D.disk device s) }
{
    if wanted {
        return match GatheredDisk::open(alloc, device, sums) {
            Ok(device) => Ok(OptionalSums::With(device)),
            Err(refused) => Err(refused),
        };
    }
    Ok(OptionalSums::Without(device))
}

impl<D: LogDisk + Drop> OptionalSums<D> {
    /// Opens a device with sums if `sums` says so, or if one of its files has begun with them: that reads both files
    /// and checks every sum. Changes nothing. A refusal returns the device.
    pub fn open(alloc: Global, device: D, sums: bool) -> Result<OptionalSums<D>, OpenRefused<D>>
        // With sums its disks are the decoded ones, and without them they are those of the device.
        ensures opens { D.is_honest → IfOk result (OpensAs D.disk sums (D.disk device)) }
        ensures damaged { D.is_honest → IfErr result (λ e. IsDamagedOn (D.disk device) e.fault) }
        ensures unchanged { D.is_honest → IfErr result (λ e. (s : Side) → D.disk e.device s ≡ D.disk device s) }
    {
        let mut device = device;
        match is_wanted(alloc, &mut device, sums) {
            Ok(wanted) => open_as(alloc, device, wanted, sums),
            Err(fault) => Err(OpenRefused { fault, device }),
        }
    }

    /// Whether a file has sums, and some text in whole frames.
    pub fn has_frames(&self) -> bool {
        match self {
            OptionalSums::Without(_) => false,
            OptionalSums::With(device) => device.inner().has_frames(),
        }
    }

    /// The device of the files.
    pub fn below(&self) -> &D {
        match self {
            OptionalSums::Without(device) => device,
            OptionalSums::With(device) => device.inner().below(),
        }
    }
}

impl<D: LogDisk + Drop> LogDisk for OptionalSums<D> {
    ghost disk = { λ d s. disk_in D.disk d s };

    ghost is_honest = { D.is_honest };

    ghost failures = { λ d. failures_in D.failures d };

    // As a device with sums it is not metered.
    ghost meter = { λ _. fresh_meter };

    ghost is_metered = { ⊥ };

    fn length(&mut self, side: Side) -> Result<usize, DeviceFault> {
        match self {
            OptionalSums::Without(device) => device.length(side),
            OptionalSums::With(device) => device.length(side),
        }
    }

    fn read_into(
        &mut self,
        side: Side,
        offset: usize,
        buffer: &mut [u8],
    ) -> Result<(), DeviceFault> {
        match self {
            OptionalSums::Without(device) => device.read_into(side, offset, buffer),
            OptionalSums::With(device) => device.read_into(side, offset, buffer),
        }
    }

    fn append(&mut self, side: Side, piece: &[u8]) -> Result<(), DeviceFault> {
        match self {
            OptionalSums::Without(device) => device.append(side, piece),
            OptionalSums::With(device) => device.append(side, piece),
        }
    }

    fn flush(&mut self, side: Side) -> Result<(), DeviceFault> {
        match self {
            OptionalSums::Without(device) => device.flush(side),
            OptionalSums::With(device) => device.flush(side),
        }
    }

    fn sync(&mut self, side: Side) -> Result<(), DeviceFault> {
        match self {
            OptionalSums::Without(device) => device.sync(side),
            OptionalSums::With(device) => device.sync(side),
        }
    }

    fn cut(&mut self, side: Side, len: usize) -> Result<(), DeviceFault> {
        match self {
            OptionalSums::Without(device) => device.cut(side, len),
            OptionalSums::With(device) => device.cut(side, len),
        }
    }
}
