// A device of two disks, each seen as its synced bytes and the unsynced bytes after them.
ghost use Rattle.std.specs.Prelude.{◌≡◌, ◌≤◌, ◌<◌, ◌+◌, ℕ, length, slice_range, IsOk, OnOk, OnErr, IfOk};
ghost use Rattle.lk_disk.specs.Disk.{Disk, other, contents, appended, fully_synced, cut_to, AppendsSome, CutShort};
ghost use Rattle.lk_disk.specs.Disk.{HasCause};
ghost use Rattle.lk_disk.specs.Meters.{Calls, Reads};
ghost use Rattle.lk_disk.specs.declared.device.Side.{Side};
ghost use Rattle.lk_disk.specs.declared.meter.Meter.{Meter};

use thiserror::Error;

/// Names one of the two disks of a device.
#[derive(Clone, Copy)]
pub enum Side {
    A,
    B,
}

/// A call of the device failed: error 7.
#[derive(Clone, Copy, Debug, Error)]
#[error("the device failed")]
pub struct DeviceFault;

impl DeviceFault {
    /// The number of this fault.
    pub fn number(self) -> u8
        ensures { result ≡ 7 }
    {
        7
    }
}

/// A device of two disks, each a sequence of bytes that grows at its end.
///
/// The bytes up to some point are synced: they outlast a stop, which may cut off the unsynced bytes after them from
/// any byte on. Statements about the disks hold if the device is honest. Each `Err` is counted: the count of failures
/// increases by one, up to 2^64 - 1, and is unchanged at `Ok`.
pub trait LogDisk {
    /// The two disks.
    ghost disk: { Self → Side → Disk };

    /// The disks do what is stated here. This is a property of the device's type, so no call can change it.
    ghost is_honest: { Type 0 };

    /// How many calls have failed.
    ghost failures: { Self → ℕ };

    /// What makes a metered device fail, and what it has counted.
    ghost meter: { Self → Meter };

    /// It counts its calls and fails when its meter says so, when it is out of memory or past the end of a disk, and
    /// never otherwise. This is a property of the device's type, so no call can change it.
    ghost is_metered: { Type 0 };

    /// The number of bytes of a disk, synced or not.
    fn length(&mut self, side: Side) -> Result<usize, DeviceFault>
        ensures value { is_honest → IfOk result (λ n. n ≡ length (contents (disk self.old side))) }
        ensures unchanged { is_honest → (s : Side) → disk self.new s ≡ disk self.old s }
        ensures metered { is_metered → Reads (meter self.old) (meter self.new) result }
        ensures cause { HasCause (failures self.old) (failures self.new) result };

    /// Fills the buffer with the bytes from the offset on. A read past the end fails. After an `Err` the buffer may
    /// hold anything.
    fn read_into(&mut self, side: Side, offset: usize, buffer: &mut [u8]) -> Result<(), DeviceFault>
        ensures value { is_honest
            → OnOk result (buffer.new
            ≡ slice_range (contents (disk self.old side)) offset (offset + length buffer.old)) }
        ensures within { is_honest → OnOk result (offset + length buffer.old ≤ length (contents (disk self.old side))) }
        ensures unchanged { is_honest → (s : Side) → disk self.new s ≡ disk self.old s }
        ensures metered { is_honest → is_metered → offset + length buffer.old ≤ length (contents (disk self.old side))
            → Reads (meter self.old) (meter self.new) result }
        ensures cause { HasCause (failures self.old) (failures self.new) result };

    /// Appends a piece, unsynced. A failed call appends a prefix of it, possibly nothing or all of it.
    fn append(&mut self, side: Side, piece: &[u8]) -> Result<(), DeviceFault>
        ensures ok { is_honest → OnOk result (disk self.new side ≡ appended (disk self.old side) piece.now) }
        ensures err { is_honest → OnErr result (AppendsSome piece.now (disk self.old side) (disk self.new side)) }
        ensures beside { is_honest → disk self.new (other side) ≡ disk self.old (other side) }
        ensures metered { is_metered → Calls (meter self.old) (meter self.new) result }
        ensures cause { HasCause (failures self.old) (failures self.new) result };

    /// Hands what was appended to the operating system, so that it outlasts a kill of the process. It syncs nothing,
    /// whatever its result. No meter counts it, and on a metered device it does not fail.
    fn flush(&mut self, side: Side) -> Result<(), DeviceFault>
        ensures unchanged { is_honest → (s : Side) → disk self.new s ≡ disk self.old s }
        ensures uncounted { meter self.new ≡ meter self.old }
        ensures metered { is_metered → IsOk result }
        ensures cause { HasCause (failures self.old) (failures self.new) result };

    /// Syncs all bytes. A failed call changes nothing.
    fn sync(&mut self, side: Side) -> Result<(), DeviceFault>
        ensures ok { is_honest → OnOk result (disk self.new side ≡ fully_synced (disk self.old side)) }
        ensures err { is_honest → OnErr result (disk self.new side ≡ disk self.old side) }
        ensures beside { is_honest → disk self.new (other side) ≡ disk self.old (other side) }
        ensures metered { is_metered → Calls (meter self.old) (meter self.new) result }
        ensures cause { HasCause (failures self.old) (failures self.new) result };

    /// Keeps the first `len` bytes, all of them synced. A failed call keeps those of them that were synced, and may
    /// keep more. A cut past the end fails and changes nothing.
    fn cut(&mut self, side: Side, len: usize) -> Result<(), DeviceFault>
        ensures ok { is_honest → OnOk result (disk self.new side ≡ cut_to len (disk self.old side)) }
        ensures within { is_honest → OnOk result (len ≤ length (contents (disk self.old side))) }
        ensures err { is_honest → OnErr result (CutShort len (disk self.old side) (disk self.new side)) }
        ensures past_end { is_honest → length (contents (disk self.old side)) < len
            → disk self.new side ≡ disk self.old side }
        ensures beside { is_honest → disk self.new (other side) ≡ disk self.old (other side) }
        ensures metered { is_honest → is_metered → len ≤ length (contents (disk self.old side))
            → Calls (meter self.old) (meter self.new) result }
        ensures cause { HasCause (failures self.old) (failures self.new) result };
}
