// A device of two files.
ghost use Rattle.std.specs.Prelude.{◌≡◌, ◌≤◌, ◌<◌, ◌+◌, length, slice_range, IsFalse, OnOk, OnErr, IfOk};
ghost use Rattle.lk_disk.specs.Disk.{contents, appended, fully_synced, cut_to, other, one_more, AppendsSome, CutShort};
ghost use Rattle.lk_disk.specs.Disk.{HasCause};
ghost use Rattle.lk_disk.specs.Meters.{fresh};
ghost use Rattle.lk_disk.specs.Files.{FilePair, IsWhole, IsCaused, IsCutCaused, used_at, disk_at};
ghost use Rattle.lk_disk.specs.declared.device.Side.{Side};

use crate::append_file::{AppendFile, FileFault};
use crate::device::{DeviceFault, LogDisk, Side};
use crate::fail_stop_file::FailStopFile;
use std::marker::Model;

/// Two files as a device. It is honest if the files are.
///
/// Once an append, flush, sync or truncate of a file has failed, it does not use that file again: each later call at
/// that side fails too.
#[derive(Drop)]
pub struct FileDisk<F: AppendFile + Drop> {
    a: FailStopFile<F>,
    b: FailStopFile<F>,
    failures: u64,
}

impl<F: AppendFile + Drop> Model for FileDisk<F> {
    ghost use Rattle.lk_disk.specs.Files.{FilePair};

    ghost Value = { FilePair };

    ghost view = { λ d. record { a = d.a; b = d.b; failures = d.failures } };
}

impl<F: AppendFile + Drop> FileDisk<F> {
    /// Makes a device of two fresh files, whose content is known.
    pub fn of(a: F, b: F) -> FileDisk<F>
        requires a { F.is_honest → IsWhole (F.file a) }
        requires b { F.is_honest → IsWhole (F.file b) }
        ensures a { result.a.file ≡ F.file a }
        ensures b { result.b.file ≡ F.file b }
        ensures failures_a { result.a.failures ≡ F.failures a }
        ensures failures_b { result.b.failures ≡ F.failures b }
        ensures alive_a { IsFalse result.a.failed }
        ensures alive_b { IsFalse result.b.failed }
        ensures failures { result.failures ≡ 0 }
    {
        FileDisk {
            a: FailStopFile::of(a),
            b: FailStopFile::of(b),
            failures: 0,
        }
    }

    /// The file at a side.
    pub fn file(&self, side: Side) -> &F
        ensures file { F.file result.now ≡ (used_at self.now side).file }
        ensures failures { F.failures result.now ≡ (used_at self.now side).failures }
    {
        match side {
            Side::A => self.a.file(),
            Side::B => self.b.file(),
        }
    }

    // Counts a failure.
    fn fail(&mut self) -> DeviceFault
        ensures { self.new ≡ record self.old { failures = one_more self.old.failures } }
    {
        self.failures = self.failures.saturating_add(1);
        DeviceFault
    }
}

impl<F: AppendFile + Drop> LogDisk for FileDisk<F> {
    ghost disk = { disk_at };

    ghost is_honest = { F.is_honest };

    ghost failures = { λ p. p.failures };

    // Nothing is stated about why a file fails, so this device is not metered.
    ghost meter = { λ _. fresh };

    ghost is_metered = { ⊥ };

    fn length(&mut self, side: Side) -> Result<usize, DeviceFault>
        ensures value { F.is_honest → IfOk result (λ n. n ≡ length (contents (disk_at self.old side))) }
        ensures unchanged { F.is_honest → (s : Side) → disk_at self.new s ≡ disk_at self.old s }
        ensures alive { (used_at self.new side).failed ≡ (used_at self.old side).failed }
        ensures cause { HasCause self.old.failures self.new.failures result }
        // It fails only if the file's call did, or had failed before.
        ensures file { IsCaused (used_at self.old side) (used_at self.new side) result }
        ensures apart { used_at self.new (other side) ≡ used_at self.old (other side) }
    {
        let length = match side {
            Side::A => self.a.length(),
            Side::B => self.b.length(),
        };
        match length {
            Ok(length) => Ok(length),
            Err(FileFault) => Err(self.fail()),
        }
    }

    fn read_into(&mut self, side: Side, offset: usize, buffer: &mut [u8]) -> Result<(), DeviceFault>
        ensures value { F.is_honest
            → OnOk result (buffer.new
            ≡ slice_range (contents (disk_at self.old side)) offset (offset + length buffer.old)) }
        ensures within { F.is_honest
            → OnOk result (offset + length buffer.old ≤ length (contents (disk_at self.old side))) }
        ensures unchanged { F.is_honest → (s : Side) → disk_at self.new s ≡ disk_at self.old s }
        ensures alive { (used_at self.new side).failed ≡ (used_at self.old side).failed }
        ensures cause { HasCause self.old.failures self.new.failures result }
        // It fails only if the file's call did, or had failed before.
        ensures file { IsCaused (used_at self.old side) (used_at self.new side) result }
        ensures apart { used_at self.new (other side) ≡ used_at self.old (other side) }
    {
        let read = match side {
            Side::A => self.a.read_into(offset, buffer),
            Side::B => self.b.read_into(offset, buffer),
        };
        match read {
            Ok(()) => Ok(()),
            Err(FileFault) => Err(self.fail()),
        }
    }

    fn append(&mut self, side: Side, piece: &[u8]) -> Result<(), DeviceFault>
        ensures ok { F.is_honest → OnOk result (disk_at self.new side ≡ appended (disk_at self.old side) piece.now) }
        ensures err { F.is_honest
            → OnErr result (AppendsSome piece.now (disk_at self.old side) (disk_at self.new side)) }
        ensures cause { HasCause self.old.failures self.new.failures result }
        // It fails only if the file's call did, or had failed before.
        ensures file { IsCaused (used_at self.old side) (used_at self.new side) result }
        ensures apart { used_at self.new (other side) ≡ used_at self.old (other side) }
    {
        let appended = match side {
            Side::A => self.a.append(piece),
            Side::B => self.b.append(piece),
        };
        match appended {
            Ok(()) => Ok(()),
            Err(FileFault) => Err(self.fail()),
        }
    }

    fn flush(&mut self, side: Side) -> Result<(), DeviceFault>
        ensures unchanged { F.is_honest → (s : Side) → disk_at self.new s ≡ disk_at self.old s }
        ensures cause { HasCause self.old.failures self.new.failures result }
        // It fails only if the file's call did, or had failed before.
        ensures file { IsCaused (used_at self.old side) (used_at self.new side) result }
        ensures apart { used_at self.new (other side) ≡ used_at self.old (other side) }
    {
        let flushed = match side {
            Side::A => self.a.flush(),
            Side::B => self.b.flush(),
        };
        match flushed {
            Ok(()) => Ok(()),
            Err(FileFault) => Err(self.fail()),
        }
    }

    fn sync(&mut self, side: Side) -> Result<(), DeviceFault>
        ensures ok { F.is_honest → OnOk result (disk_at self.new side ≡ fully_synced (disk_at self.old side)) }
        ensures err { F.is_honest → OnErr result (disk_at self.new side ≡ disk_at self.old side) }
        ensures cause { HasCause self.old.failures self.new.failures result }
        // It fails only if the file's call did, or had failed before.
        ensures file { IsCaused (used_at self.old side) (used_at self.new side) result }
        ensures apart { used_at self.new (other side) ≡ used_at self.old (other side) }
    {
        let synced = match side {
            Side::A => self.a.sync(),
            Side::B => self.b.sync(),
        };
        match synced {
            Ok(()) => Ok(()),
            Err(FileFault) => Err(self.fail()),
        }
    }

    fn cut(&mut self, side: Side, len: usize) -> Result<(), DeviceFault>
        ensures ok { F.is_honest → OnOk result (disk_at self.new side ≡ cut_to len (disk_at self.old side)) }
        ensures within { F.is_honest → OnOk result (len ≤ length (contents (disk_at self.old side))) }
        ensures err { F.is_honest → OnErr result (CutShort len (disk_at self.old side) (disk_at self.new side)) }
        ensures past_end { F.is_honest → length (contents (disk_at self.old side)) < len
            → disk_at self.new side ≡ disk_at self.old side }
        ensures cause { HasCause self.old.failures self.new.failures result }
        // It fails only if a call of the file did, or had failed before, or past the end.
        ensures file { IsCutCaused F.is_honest len (used_at self.old side) (used_at self.new side) result }
        ensures apart { used_at self.new (other side) ≡ used_at self.old (other side) }
    {
        let cut = match side {
            Side::A => self.a.cut(len),
            Side::B => self.b.cut(len),
        };
        match cut {
            Ok(()) => Ok(()),
            Err(FileFault) => Err(self.fail()),
        }
    }
}
