// A write buffer over a file: appended bytes wait in memory, and are handed over to the file below together.
ghost use Rattle.std.specs.Prelude.{◌≡◌, ◌≤◌, ◌+◌, ◌++◌, ℕ, [], length, true, false, slice_range, IsTrue, IsFalse};
ghost use Rattle.std.specs.Prelude.{IfOk, OnOk, OnErr};
ghost use Rattle.lk_disk.specs.Disk.{Disk, contents, appended, fully_synced, cut_to, one_more, AppendsSome, CutShort};
ghost use Rattle.lk_disk.specs.Files.{whole, truncated, left_of, IsWhole};
ghost use Rattle.lk_disk.specs.Buffers.{known_of, LeavesNoMore};

use crate::append_file::{AppendFile, FileFault};
use std::alloc::Global;
use std::marker::Model;

/// A file that keeps appended bytes in memory, until `flush`, `sync`, `read_into` or `truncate` hands them over to the
/// file below in one append. It is honest if the file below is.
///
/// If there is no memory for a piece, it hands the piece over at once. After a failed hand-over, sync or truncate each
/// call fails, and the file below is not used again, so that no byte is written twice.
#[derive(Drop)]
pub struct BufferedFile<F: AppendFile + Drop> {
    below: F,
    // at most this many bytes of the file below belong to this file: a failed hand-over may have left others after them
    size: usize,
    // appended bytes that are not handed over yet
    pending: Vec<u8>,
    // it was truncated and not yet synced
    is_short: bool,
    // a hand-over, a sync or a truncation has failed, so the file below must not be used again
    failed: bool,
    failures: u64,
}

impl<F: AppendFile + Drop> Model for BufferedFile<F> {
    ghost use Rattle.std.specs.Prelude.{◌≡◌, false};
    ghost use Rattle.lk_disk.specs.Buffers.{BufferedValue, IsReady, HasNoMore};

    ghost Value = { BufferedValue };

    ghost view = { λ b. record {
      below = F.file b.below;
      size = b.size;
      pending = b.pending.items;
      is_short = b.is_short;
      failed = b.failed;
      failures = b.failures;
    } };

    ghost invariant = { λ b. F.is_honest
        → (b.failed ≡ false → IsReady b.is_short b.size b.pending.items (F.file b.below))
        × HasNoMore b.is_short b.size b.pending.items (F.file b.below) };
}

impl<F: AppendFile + Drop> BufferedFile<F> {
    /// Wraps a fresh file, whose content is known, and asks it for its length. Fails only if that call does.
    pub fn of(alloc: Global, below: F) -> Result<BufferedFile<F>, FileFault>
        requires { F.is_honest → IsWhole (F.file below) }
        ensures file { F.is_honest → IfOk result (λ b. known_of b ≡ F.file below) }
        ensures failures { IfOk result (λ b. b.failures ≡ 0) }
    {
        let mut below = below;
        let size = below.length()?;
        Ok(BufferedFile {
            below,
            size,
            pending: Vec::new(alloc),
            is_short: false,
            failed: false,
            failures: 0,
        })
    }

    /// Returns the file below, without the bytes that still wait. Whatever a stop may leave of it, a stop may leave of
    /// this file.
    pub fn below(&self) -> &F
        ensures { F.is_honest → LeavesNoMore (left_of (F.file result.now)) (left_of (known_of self.now)) }
    {
        &self.below
    }

    // Counts a failure.
    fn fail(&mut self) -> FileFault
        ensures { self.new ≡ record self.old { failures = one_more self.old.failures } }
    {
        self.failures = self.failures.saturating_add(1);
        FileFault
    }

    // Appends the waiting bytes to the file below, in one call. The file counts as failed until that call succeeds, so
    // that they are not handed over twice.
    fn hand_over(&mut self) -> Result<(), FileFault>
        ensures known { F.is_honest → known_of self.new ≡ known_of self.old }
        ensures ok { F.is_honest → OnOk result (self.new.below ≡ known_of self.old) }
        ensures ready { OnOk result (IsFalse self.new.failed) }
        ensures empty { OnOk result (self.new.pending ≡ []) }
        ensures is_short { self.new.is_short ≡ self.old.is_short }
        ensures failures { self.new.failures ≡ self.old.failures }
    {
        if self.failed {
            return Err(FileFault);
        }
        if self.pending.is_empty() {
            return Ok(());
        }
        let Some(size) = self.size.checked_add(self.pending.len()) else {
            return Err(FileFault);
        };
        self.failed = true;
        self.below.append(&self.pending)?;
        self.size = size;
        self.pending.clear();
        self.failed = false;
        Ok(())
    }

    // Adds a piece to the waiting bytes. Returns false, and changes nothing, if the file has failed or is truncated, or
    // if memory runs out.
    fn keeps(&mut self, piece: &[u8]) -> bool
        ensures kept { IsTrue result → self.new ≡ record self.old { pending = self.old.pending ++ piece.now } }
        ensures goes_on { IsTrue result → IsFalse self.old.is_short × IsFalse self.old.failed }
        ensures other { IsFalse result → self.new ≡ self.old }
    {
        if self.failed || self.is_short {
            return false;
        }
        match self.pending.extend_from_slice(piece) {
            Ok(()) => true,
            Err(_) => false,
        }
    }

    // Appends a piece directly to the file below, while no bytes wait. Fails between a truncation and the next sync.
    fn give(&mut self, piece: &[u8]) -> Result<(), FileFault>
        requires empty { self.old.pending ≡ [] }
        requires goes_on { IsFalse self.old.failed }
        ensures ok { F.is_honest → IsWhole (known_of self.old)
            → OnOk result (known_of self.new ≡ whole (appended (left_of (known_of self.old)) piece.now)) }
        ensures err { F.is_honest → IsWhole (known_of self.old)
            → OnErr result (AppendsSome piece.now (left_of (known_of self.old)) (left_of (known_of self.new))) }
        ensures failures { self.new.failures ≡ self.old.failures }
    {
        if self.is_short {
            return Err(FileFault);
        }
        let Some(size) = self.size.checked_add(piece.len()) else {
            return Err(FileFault);
        };
        self.failed = true;
        self.size = size;
        self.below.append(piece)?;
        self.failed = false;
        Ok(())
    }

    // Appends a piece to the waiting bytes. If it cannot be kept, hands over those bytes and then the piece.
    fn add(&mut self, piece: &[u8]) -> Result<(), FileFault>
        ensures ok { F.is_honest → IsWhole (known_of self.old)
            → OnOk result (known_of self.new ≡ whole (appended (left_of (known_of self.old)) piece.now)) }
        ensures err { F.is_honest → IsWhole (known_of self.old)
            → OnErr result (AppendsSome piece.now (left_of (known_of self.old)) (left_of (known_of self.new))) }
        ensures failures { self.new.failures ≡ self.old.failures }
    {
        if self.keeps(piece) {
            return Ok(());
        }
        self.hand_over()?;
        self.give(piece)
    }

    // Hands over what waits, and reads.
    fn read(&mut self, offset: usize, buffer: &mut [u8]) -> Result<(), FileFault>
        ensures value { F.is_honest → IsWhole (known_of self.old)
            → OnOk result (buffer.new
            ≡ slice_range (contents (left_of (known_of self.old))) offset (offset + length buffer.old)) }
        ensures within { F.is_honest → IsWhole (known_of self.old)
            → OnOk result (offset + length buffer.old ≤ length (contents (left_of (known_of self.old)))) }
        ensures known { F.is_honest → known_of self.new ≡ known_of self.old }
        ensures failures { self.new.failures ≡ self.old.failures }
    {
        self.hand_over()?;
        self.below.read_into(offset, buffer)
    }

    // Hands over what waits, and flushes the file below.
    fn flush_below(&mut self) -> Result<(), FileFault>
        ensures known { F.is_honest → known_of self.new ≡ known_of self.old }
        ensures failures { self.new.failures ≡ self.old.failures }
    {
        self.hand_over()?;
        self.below.flush()
    }

    // Hands over what waits, and syncs the file below.
    fn sync_below(&mut self) -> Result<(), FileFault>
        ensures ok { F.is_honest → IsWhole (known_of self.old)
            → OnOk result (known_of self.new ≡ whole (fully_synced (left_of (known_of self.old)))) }
        ensures short { F.is_honest → (n : ℕ) (d : Disk) → known_of self.old ≡ truncated n d
            → OnOk result (known_of self.new ≡ whole (cut_to n d)) }
        ensures err { F.is_honest → OnErr result (left_of (known_of self.new) ≡ left_of (known_of self.old)) }
        ensures failures { self.new.failures ≡ self.old.failures }
    {
        self.hand_over()?;
        self.failed = true;
        self.below.sync()?;
        self.is_short = false;
        self.failed = false;
        Ok(())
    }

    // Hands over what waits, and truncates the file below.
    fn truncate_below(&mut self, len: usize) -> Result<(), FileFault>
        ensures ok { F.is_honest → IsWhole (known_of self.old) → len ≤ length (contents (left_of (known_of self.old)))
            → OnOk result (known_of self.new ≡ truncated len (left_of (known_of self.old))) }
        ensures err { F.is_honest → IsWhole (known_of self.old) → len ≤ length (contents (left_of (known_of self.old)))
            → OnErr result (CutShort len (left_of (known_of self.old)) (left_of (known_of self.new))) }
        ensures failures { self.new.failures ≡ self.old.failures }
    {
        self.hand_over()?;
        if self.is_short || self.size < len {
            return Err(FileFault);
        }
        self.failed = true;
        self.below.truncate(len)?;
        self.size = len;
        self.is_short = true;
        self.failed = false;
        Ok(())
    }
}

impl<F: AppendFile + Drop> AppendFile for BufferedFile<F> {
    ghost file = { known_of };

    ghost is_honest = { F.is_honest };

    ghost failures = { λ b. b.failures };

    // Fails between a truncation and the next sync, when the length is not specified.
    fn length(&mut self) -> Result<usize, FileFault> {
        if self.failed || self.is_short {
            return Err(self.fail());
        }
        match self.size.checked_add(self.pending.len()) {
            Some(length) => Ok(length),
            None => Err(self.fail()),
        }
    }

    fn read_into(&mut self, offset: usize, buffer: &mut [u8]) -> Result<(), FileFault> {
        match self.read(offset, buffer) {
            Ok(()) => Ok(()),
            Err(FileFault) => Err(self.fail()),
        }
    }

    fn append(&mut self, piece: &[u8]) -> Result<(), FileFault> {
        match self.add(piece) {
            Ok(()) => Ok(()),
            Err(FileFault) => Err(self.fail()),
        }
    }

    fn flush(&mut self) -> Result<(), FileFault> {
        match self.flush_below() {
            Ok(()) => Ok(()),
            Err(FileFault) => Err(self.fail()),
        }
    }

    fn sync(&mut self) -> Result<(), FileFault> {
        match self.sync_below() {
            Ok(()) => Ok(()),
            Err(FileFault) => Err(self.fail()),
        }
    }

    fn truncate(&mut self, len: usize) -> Result<(), FileFault> {
        match self.truncate_below(len) {
            Ok(()) => Ok(()),
            Err(FileFault) => Err(self.fail()),
        }
    }
}
