// A device in memory, which can be made to fail.
ghost use Rattle.std.specs.Prelude.{◌≡◌, ◌⊎◌, ◌≤◌, ◌<◌, ◌+◌, ℕ, None, Some, Ok, length, true, false, ⊤, slice_range};
ghost use Rattle.std.specs.Prelude.{IsTrue, IsFalse, IsOk, IsErr, IfOk, OnOk, OnErr, MatchResult};
ghost use Rattle.lk_disk.specs.Disk.{MayLeave, AppendsSome, CutShort, HasCause, other, contents, appended};
ghost use Rattle.lk_disk.specs.Disk.{fully_synced};
ghost use Rattle.lk_disk.specs.Disk.{cut_to};
ghost use Rattle.lk_memory_disk.specs.Memory.{empty, disk_of, with_disk, counted, read_counted, cut_within, failed};
ghost use Rattle.lk_memory_disk.specs.Memory.{refused, wanting, stopped};
ghost use Rattle.lk_disk.specs.Meters.{is_refused, is_unread, Calls, Reads, trapped, stopping};
ghost use Rattle.lk_disk.specs.Traps.{stops_next};
ghost use Rattle.lk_disk.specs.declared.device.Side.{Side};

use crate::disk_bytes::DiskBytes;
use crate::metering::{armed_stop, count_call, count_read, disarm, new_meter, set_trap};
use lk_disk::{DeviceFault, LogDisk, Meter, Side, Trap, Trapped};
use std::alloc::{AllocError, Global};
use std::marker::Model;

/// Two disks in memory.
///
/// A call fails only by the trap, the fuse or `fail_read`, out of memory, or past the end of a disk. It is then counted
/// as a failure, and changes no disk except at an armed stop. The changing calls are appends, syncs and cuts, including
/// failed ones; the reading calls are `length` and `read_into`.
#[derive(Drop)]
pub struct MemoryDisk {
    a: DiskBytes,
    b: DiskBytes,
    meter: Meter,
    failures: u64,
}

impl Model for MemoryDisk {
    ghost use Rattle.lk_memory_disk.specs.Memory.{Memory};

    ghost Value = { Memory };

    ghost view = { λ d. record { a = d.a; b = d.b; meter = d.meter; failures = d.failures } };
}

impl MemoryDisk {
    /// Returns two empty disks, without a trap or a fuse.
    pub fn new(alloc: Global) -> Self
        ensures { result ≡ empty }
    {
        MemoryDisk {
            a: DiskBytes::new(alloc),
            b: DiskBytes::new(alloc),
            meter: new_meter(),
            failures: 0,
        }
    }

    /// Simulates a stop of the machine: keeps up to `x` of the unsynced bytes of A and up to `y` of those of B. What is
    /// left is synced. Removes the trap and the fuse.
    pub fn stop(&mut self, x: usize, y: usize)
        ensures after { self.new ≡ stopped x y self.old }
        ensures image { (s : Side) → MayLeave (disk_of self.old s) (contents (disk_of self.new s)) }
    {
        self.a.stop(x);
        self.b.stop(y);
        disarm(&mut self.meter);
    }

    /// Lets this many changing calls pass, and fails all later ones until a stop or another fuse.
    pub fn fuse(&mut self, calls: u64)
        ensures { self.new ≡ record self.old { meter = record self.old.meter { fuse = Some calls } } }
    {
        self.meter.fuse = Some(calls);
    }

    /// Makes the reading call of that number (a `length` or a `read_into`, counted from 1 from now on) fail once. No
    /// call has number 0.
    pub fn fail_read(&mut self, count: u64)
        ensures { self.new ≡ record self.old { meter = record self.old.meter { unread = count } } }
    {
        self.meter.unread = count;
    }

    /// The number of bytes of A and of B, synced or not.
    pub fn lengths(&self) -> (usize, usize)
        ensures a { result.0 ≡ length (contents self.now.a) }
        ensures b { result.1 ≡ length (contents self.now.b) }
    {
        (self.a.len(), self.b.len())
    }

    /// The number of changing calls so far, including failed ones. It stays at 2^64 - 1.
    pub fn calls(&self) -> u64
        ensures { result ≡ self.now.meter.calls }
    {
        self.meter.calls
    }

    /// Whether the trap went off since it was last set.
    pub fn sprung(&self) -> bool
        ensures { result ≡ self.now.meter.sprung }
    {
        self.meter.sprung
    }

    /// Returns the pending trap, with the rest of its count. An armed one stays, with count 0, after it went off.
    pub fn pending(&self) -> Trap
        ensures { result ≡ self.now.meter.trap }
    {
        self.meter.trap
    }

    /// Returns how many unsynced bytes the armed stop is to keep, if it was reached since the trap was last set.
    pub fn stopping(&self) -> Option<usize>
        ensures { result ≡ stopping self.now.meter }
    {
        armed_stop(&self.meter)
    }

    /// Whether it ran out of memory since the trap was last set.
    pub fn starved(&self) -> bool
        ensures { result ≡ self.now.meter.starved }
    {
        self.meter.starved
    }

    // Counts a changing call. Fails if the trap or the fuse rejects it. Returns how many unsynced bytes the stop is to
    // keep, if the call is an armed stop.
    fn admit_call(&mut self) -> Result<Option<usize>, DeviceFault>
        ensures ok { OnOk result ((is_refused self.old.meter ≡ false) × (self.new ≡ counted self.old)) }
        ensures stop { IfOk result (λ stop. stop ≡ stops_next self.old.meter.trap) }
        ensures err { OnErr result ((is_refused self.old.meter ≡ true) × (self.new ≡ refused self.old)) }
    {
        match count_call(&mut self.meter) {
            Ok(stop) => Ok(stop),
            Err(DeviceFault) => Err(self.fail()),
        }
    }

    // Counts a reading call. Fails if it is the one that `fail_read` chose.
    fn admit_read(&mut self) -> Result<(), DeviceFault>
        ensures ok { OnOk result ((is_unread self.old.meter ≡ false) × (self.new ≡ read_counted self.old)) }
        ensures err { OnErr result ((is_unread self.old.meter ≡ true) × (self.new ≡ failed (read_counted self.old))) }
    {
        match count_read(&mut self.meter) {
            Ok(()) => Ok(()),
            Err(DeviceFault) => Err(self.fail()),
        }
    }

    // Counts a failure.
    fn fail(&mut self) -> DeviceFault
        ensures { self.new ≡ failed self.old }
    {
        self.failures = self.failures.saturating_add(1);
        DeviceFault
    }

    // How many bytes the disk has, synced or not.
    fn len_of(&self, side: Side) -> usize
        ensures { result ≡ length (contents (disk_of self.now side)) }
    {
        match side {
            Side::A => self.a.len(),
            Side::B => self.b.len(),
        }
    }

    // Appends the piece to the disk, unsynced.
    fn grow(&mut self, side: Side, piece: &[u8]) -> Result<(), AllocError>
        ensures ok { OnOk result (self.new ≡ with_disk side (appended (disk_of self.old side) piece.now) self.old) }
        ensures err { OnErr result (self.new ≡ self.old) }
    {
        match side {
            Side::A => self.a.append(piece),
            Side::B => self.b.append(piece),
        }
    }

    // Syncs everything that the disk has.
    fn make_synced(&mut self, side: Side)
        ensures { self.new ≡ with_disk side (fully_synced (disk_of self.old side)) self.old }
    {
        match side {
            Side::A => self.a.sync(),
            Side::B => self.b.sync(),
        }
    }

    // Cuts the disk to its first `len` bytes.
    fn truncate(&mut self, side: Side, len: usize)
        ensures { self.new ≡ with_disk side (cut_to len (disk_of self.old side)) self.old }
    {
        match side {
            Side::A => self.a.cut(len),
            Side::B => self.b.cut(len),
        }
    }
}

impl LogDisk for MemoryDisk {
    ghost disk = { disk_of };

    ghost is_honest = { ⊤ };

    ghost failures = { λ m. m.failures };

    ghost meter = { λ m. m.meter };

    ghost is_metered = { ⊤ };

    fn length(&mut self, side: Side) -> Result<usize, DeviceFault>
        ensures refused { IsTrue (is_unread self.old.meter)
            → IsErr result × (self.new ≡ failed (read_counted self.old)) }
        ensures succeeds { IsFalse (is_unread self.old.meter)
            → (result ≡ Ok (length (contents (disk_of self.old side)))) × (self.new ≡ read_counted self.old) }
    {
        self.admit_read()?;
        Ok(self.len_of(side))
    }

    fn read_into(&mut self, side: Side, offset: usize, buffer: &mut [u8]) -> Result<(), DeviceFault>
        ensures refused { IsTrue (is_unread self.old.meter) → IsErr result }
        ensures past_end { length (contents (disk_of self.old side)) < offset + length buffer.old → IsErr result }
        ensures succeeds { IsFalse (is_unread self.old.meter)
            → offset + length buffer.old ≤ length (contents (disk_of self.old side)) → IsOk result }
        ensures value { OnOk result
            (buffer.new ≡ slice_range (contents (disk_of self.old side)) offset (offset + length buffer.old)) }
        ensures ok { OnOk result (self.new ≡ read_counted self.old) }
        ensures err { OnErr result ((self.new ≡ failed (read_counted self.old)) × (buffer.new ≡ buffer.old)) }
    {
        self.admit_read()?;
        let is_read = match side {
            Side::A => self.a.read_into(offset, buffer),
            Side::B => self.b.read_into(offset, buffer),
        };
        if is_read { Ok(()) } else { Err(self.fail()) }
    }

    #[tactic(auto, using(crate::proofs::Keep::appends_all))]
    fn append(&mut self, side: Side, piece: &[u8]) -> Result<(), DeviceFault>
        ensures err { OnErr result (AppendsSome piece.now (disk_of self.old side) (disk_of self.new side)) }
        ensures cause { HasCause self.old.failures self.new.failures result }
        ensures refused { IsTrue (is_refused self.old.meter) → IsErr result × (self.new ≡ refused self.old) }
        ensures stopped { IsFalse (is_refused self.old.meter) → (bytes : ℕ)
            → stops_next self.old.meter.trap ≡ Some bytes → IsErr result
            × ((self.new ≡ failed (with_disk side (appended (disk_of self.old side) piece.now) (counted self.old)))
            ⊎ (self.new ≡ wanting self.old)) }
        ensures succeeds { IsFalse (is_refused self.old.meter)
            → stops_next self.old.meter.trap ≡ None → MatchResult result
            (λ _. self.new ≡ with_disk side (appended (disk_of self.old side) piece.now) (counted self.old))
            (λ _. self.new ≡ wanting self.old) }
    {
        let stop = self.admit_call()?;
        // At an armed stop too: the stop may then keep a prefix of the piece.
        if self.grow(side, piece).is_err() {
            self.meter.starved = true;
            return Err(self.fail());
        }
        match stop {
            Some(_) => Err(self.fail()),
            None => Ok(()),
        }
    }

    fn flush(&mut self, _side: Side) -> Result<(), DeviceFault>
        ensures unchanged { self.new ≡ self.old }
        ensures ok { IsOk result }
    {
        Ok(())
    }

    fn sync(&mut self, side: Side) -> Result<(), DeviceFault>
        ensures refused { IsTrue (is_refused self.old.meter) → IsErr result × (self.new ≡ refused self.old) }
        ensures stopped { IsFalse (is_refused self.old.meter) → (bytes : ℕ)
            → stops_next self.old.meter.trap ≡ Some bytes → IsErr result × (self.new ≡ refused self.old) }
        ensures succeeds { IsFalse (is_refused self.old.meter) → stops_next self.old.meter.trap ≡ None → IsOk result
            × (self.new ≡ with_disk side (fully_synced (disk_of self.old side)) (counted self.old)) }
    {
        match self.admit_call()? {
            Some(_) => Err(self.fail()),
            None => {
                self.make_synced(side);
                Ok(())
            }
        }
    }

    #[tactic(auto, using(crate::proofs::Keep::cut_short))]
    fn cut(&mut self, side: Side, len: usize) -> Result<(), DeviceFault>
        ensures ok { OnOk result
            ((len ≤ length (contents (disk_of self.old side)))
            × (self.new ≡ with_disk side (cut_to len (disk_of self.old side)) (counted self.old))) }
        ensures err { OnErr result (CutShort len (disk_of self.old side) (disk_of self.new side)) }
        ensures beside { disk_of self.new (other side) ≡ disk_of self.old (other side) }
        ensures cause { HasCause self.old.failures self.new.failures result }
        ensures refused { IsTrue (is_refused self.old.meter) → IsErr result × (self.new ≡ refused self.old) }
        ensures metered { len ≤ length (contents (disk_of self.old side)) → Calls self.old.meter self.new.meter result }
        ensures past_end { length (contents (disk_of self.old side)) < len
            → IsErr result × (self.new ≡ refused self.old) }
        ensures stopped { IsFalse (is_refused self.old.meter) → len ≤ length (contents (disk_of self.old side))
            → (bytes : ℕ) → stops_next self.old.meter.trap ≡ Some bytes → IsErr result
            × (self.new ≡ failed (with_disk side (cut_within len bytes (disk_of self.old side)) (counted self.old))) }
        ensures succeeds { IsFalse (is_refused self.old.meter) → len ≤ length (contents (disk_of self.old side))
            → stops_next self.old.meter.trap ≡ None → IsOk result
            × (self.new ≡ with_disk side (cut_to len (disk_of self.old side)) (counted self.old)) }
    {
        let stop = self.admit_call()?;
        let size = self.len_of(side);
        if size < len {
            return Err(self.fail());
        }
        match stop {
            Some(bytes) => {
                // The machine stops within the cut, which leaves any length from `len` to the present one.
                self.truncate(side, bytes.max(len).min(size));
                Err(self.fail())
            }
            None => {
                self.truncate(side, len);
                Ok(())
            }
        }
    }
}

impl Trapped for MemoryDisk {
    fn trap(&mut self, trap: Trap)
        ensures { self.new ≡ record self.old { meter = trapped trap self.old.meter } }
    {
        set_trap(&mut self.meter, trap);
    }
}
