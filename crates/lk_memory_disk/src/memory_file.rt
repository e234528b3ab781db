// A file in memory, which shows that a file can be honest.
ghost use Rattle.std.specs.Prelude.{◌≡◌, ◌↔◌, ◌≤◌, ◌+◌, ℕ, [], length, Ok, ⊤, slice_range, IsOk, OnOk, OnErr};
ghost use Rattle.lk_disk.specs.Disk.{Disk, MayLeave, contents, appended, fully_synced, cut_to, after_stop, one_more};
ghost use Rattle.lk_disk.specs.Disk.{HasCause};
ghost use Rattle.lk_disk.specs.Files.{whole, truncated, left_of, IsWhole};
ghost use Rattle.lk_memory_disk.specs.CountedFile.{bytes_of};

use crate::disk_bytes::DiskBytes;
use lk_disk::{AppendFile, FileFault};
use std::alloc::Global;
use std::marker::Model;

/// One file in memory. An append fails when it is out of memory; a read or a truncation past the end fails. Between a
/// truncation and the next sync each of these fails. A failed call does not change the file.
#[derive(Drop)]
pub struct MemoryFile {
    bytes: DiskBytes,
    // how many of its bytes it shows, if it was truncated and not yet synced
    shown: Option<usize>,
    failures: u64,
}

impl Model for MemoryFile {
    ghost use Rattle.lk_memory_disk.specs.CountedFile.{CountedFile, file_showing};

    ghost Value = { CountedFile };

    ghost view = { λ f. record { file = file_showing f.shown f.bytes; failures = f.failures } };
}

impl MemoryFile {
    /// An empty file.
    pub fn new(alloc: Global) -> MemoryFile
        ensures { result ≡ record { file = whole (record { synced = []; unsynced = [] }); failures = 0 } }
    {
        MemoryFile {
            bytes: DiskBytes::new(alloc),
            shown: None,
            failures: 0,
        }
    }

    /// Simulates a stop of the machine: keeps up to this many of the unsynced bytes, and undoes a truncation that was
    /// not synced. What is left is synced.
    pub fn stop(&mut self, unsynced: usize)
        ensures after { self.new ≡ record self.old { file = whole (after_stop unsynced (bytes_of self.old.file)) } }
        ensures image { MayLeave (left_of self.old.file) (contents (left_of self.new.file)) }
    {
        self.bytes.stop(unsynced);
        self.shown = None;
    }

    // Counts a failure.
    fn fail(&mut self) -> FileFault
        ensures { self.new ≡ record self.old { failures = one_more self.old.failures } }
    {
        self.failures = self.failures.saturating_add(1);
        FileFault
    }
}

impl AppendFile for MemoryFile {
    ghost file = { λ f. f.file };

    ghost is_honest = { ⊤ };

    ghost failures = { λ f. f.failures };

    fn length(&mut self) -> Result<usize, FileFault>
        ensures value { IsWhole self.old.file → result ≡ Ok (length (contents (left_of self.old.file))) }
        ensures unchanged { self.new ≡ self.old }
        ensures ok { IsOk result }
    {
        Ok(self.shown.unwrap_or(self.bytes.len()))
    }

    fn read_into(&mut self, offset: usize, buffer: &mut [u8]) -> Result<(), FileFault>
        ensures within { IsWhole self.old.file
            → IsOk result ↔ (offset + length buffer.old ≤ length (contents (left_of self.old.file))) }
        ensures value { OnOk result
            (buffer.new ≡ slice_range (contents (left_of self.old.file)) offset (offset + length buffer.old)) }
        ensures unchanged { self.new.file ≡ self.old.file }
        ensures cause { HasCause self.old.failures self.new.failures result }
    {
        if self.shown.is_none() && self.bytes.read_into(offset, buffer) {
            Ok(())
        } else {
            Err(self.fail())
        }
    }

    fn append(&mut self, piece: &[u8]) -> Result<(), FileFault>
        ensures ok { OnOk result (self.new.file ≡ whole (appended (left_of self.old.file) piece.now)) }
        ensures err { OnErr result (self.new.file ≡ self.old.file) }
        ensures cause { HasCause self.old.failures self.new.failures result }
    {
        if self.shown.is_some() || self.bytes.append(piece).is_err() {
            return Err(self.fail());
        }
        Ok(())
    }

    fn flush(&mut self) -> Result<(), FileFault>
        ensures unchanged { self.new ≡ self.old }
        ensures ok { IsOk result }
    {
        Ok(())
    }

    fn sync(&mut self) -> Result<(), FileFault>
        ensures ok { IsOk result }
        ensures whole { IsWhole self.old.file → self.new.file ≡ whole (fully_synced (left_of self.old.file)) }
        ensures short { (n : ℕ) (d : Disk) → self.old.file ≡ truncated n d → self.new.file ≡ whole (cut_to n d) }
        ensures failures { self.new.failures ≡ self.old.failures }
    {
        match self.shown {
            Some(shown) => self.bytes.cut(shown),
            None => self.bytes.sync(),
        }
        self.shown = None;
        Ok(())
    }

    fn truncate(&mut self, len: usize) -> Result<(), FileFault>
        ensures ok { IsWhole self.old.file → len ≤ length (contents (left_of self.old.file))
            → IsOk result × (self.new.file ≡ truncated len (left_of self.old.file)) }
        ensures cause { HasCause self.old.failures self.new.failures result }
    {
        if self.shown.is_some() || self.bytes.len() < len {
            return Err(self.fail());
        }
        self.shown = Some(len);
        Ok(())
    }
}
