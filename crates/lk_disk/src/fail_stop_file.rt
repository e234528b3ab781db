// A file that is not used again after a failed append, flush, sync or truncate.
ghost use Rattle.std.specs.Prelude.{◌≡◌, ◌≤◌, ◌<◌, ◌+◌, ℕ, List, length, true, false, slice_range, IsTrue, IsFalse};
ghost use Rattle.std.specs.Prelude.{IsOk, OnOk, OnErr, IfOk};
ghost use Rattle.lk_disk.specs.Disk.{Disk, contents, appended, fully_synced, cut_to, AppendsSome, CutShort};
ghost use Rattle.lk_disk.specs.Files.{left_of, HasLength, IsWhole, IsCaused, IsCutCaused};

use crate::append_file::{AppendFile, FileFault};
use std::marker::Model;

// A file that rejects all calls after a failed append, flush, sync or truncate, since its content is then unknown. It
// asks the file once for its length, and then keeps count.
#[derive(Drop)]
pub(crate) struct FailStopFile<F: AppendFile + Drop> {
    file: F,
    // the number of its bytes, if it is known
    length: Option<usize>,
    // it was cut to 0 bytes and synced, and nothing was appended since
    is_cleared: bool,
    failed: bool,
}

// Returns the length after `more` more bytes; `None` if it is unknown or overflows.
fn lengthened(known: Option<usize>, more: usize) -> Option<usize>
    ensures { (d : Disk) (piece : List ℕ) → length piece ≡ more → HasLength known d
        → HasLength result (appended d piece) }
{
    known?.checked_add(more)
}

impl<F: AppendFile + Drop> Model for FailStopFile<F> {
    ghost use Rattle.std.specs.Prelude.{◌≡◌, false};
    ghost use Rattle.lk_disk.specs.Files.{FailStopFile as FailStopFileValue, left_of, IsWhole, HasLength};

    ghost Value = { FailStopFileValue };

    ghost view = { λ u. record { file = F.file u.file; failures = F.failures u.file; failed = u.failed } };

    ghost invariant = { λ u. F.is_honest → u.failed ≡ false
        → IsWhole (F.file u.file) × HasLength u.length (left_of (F.file u.file)) };
}

impl<F: AppendFile + Drop> FailStopFile<F> {
    /// Wraps a fresh file, whose content is known. It asks for the length only when that is needed.
    pub fn of(file: F) -> FailStopFile<F>
        requires { F.is_honest → IsWhole (F.file file) }
        ensures file { result.file ≡ F.file file }
        ensures failures { result.failures ≡ F.failures file }
        ensures failed { IsFalse result.failed }
    {
        FailStopFile {
            file,
            length: None,
            is_cleared: false,
            failed: false,
        }
    }

    /// Returns the wrapped file.
    pub fn file(&self) -> &F
        ensures file { F.file result.now ≡ self.now.file }
        ensures failures { F.failures result.now ≡ self.now.failures }
    {
        &self.file
    }

    /// Returns how many bytes the file has. Fails after a failed append, flush, sync or truncate, and if `length` of
    /// the file itself fails.
    pub fn length(&mut self) -> Result<usize, FileFault>
        ensures value { F.is_honest → IfOk result (λ n. n ≡ length (contents (left_of self.old.file))) }
        ensures unchanged { F.is_honest → self.new.file ≡ self.old.file }
        ensures failed { self.new.failed ≡ self.old.failed }
        ensures cause { IsCaused self.old self.new result }
    {
        if self.failed {
            return Err(FileFault);
        }
        let length = match self.length {
            Some(length) => length,
            None => self.file.length()?,
        };
        self.length = Some(length);
        Ok(length)
    }

    /// Fills the buffer with the bytes from the offset on. Fails after a failed append, flush, sync or truncate, if the
    /// file has fewer bytes, and if the file itself fails.
    pub fn read_into(&mut self, offset: usize, buffer: &mut [u8]) -> Result<(), FileFault>
        ensures value { F.is_honest
            → OnOk result (buffer.new
            ≡ slice_range (contents (left_of self.old.file)) offset (offset + length buffer.old)) }
        ensures within { F.is_honest
            → OnOk result (offset + length buffer.old ≤ length (contents (left_of self.old.file))) }
        ensures unchanged { F.is_honest → self.new.file ≡ self.old.file }
        ensures failed { self.new.failed ≡ self.old.failed }
        ensures cause { IsCaused self.old self.new result }
    {
        if self.failed {
            return Err(FileFault);
        }
        self.file.read_into(offset, buffer)
    }

    // Begins an append, flush, sync or cut. The file counts as failed until `end`, so an error in between leaves it
    // failed. Returns the length, if it is known.
    fn check_call(&mut self) -> Result<Option<usize>, FileFault>
        ensures ok { OnOk result (IsFalse self.old.failed × (self.new ≡ record self.old { failed = true })) }
        ensures whole { F.is_honest → OnOk result (IsWhole self.new.file) }
        ensures known { F.is_honest → IfOk result (λ n. HasLength n (left_of self.new.file)) }
        ensures alive { IsFalse self.old.failed → IsOk result }
        ensures err { OnErr result (self.new ≡ self.old) }
    {
        if self.failed {
            return Err(FileFault);
        }
        self.failed = true;
        Ok(self.length)
    }

    // Ends a successful call: the file is usable again, with this length if it is known.
    fn end(&mut self, length: Option<usize>)
        requires { F.is_honest → IsWhole self.old.file × HasLength length (left_of self.old.file) }
        ensures { self.new ≡ record self.old { failed = false } }
    {
        self.length = length;
        self.failed = false;
    }

    /// Appends the piece. If it fails, the file may have a prefix of the piece, and rejects every later call.
    pub fn append(&mut self, piece: &[u8]) -> Result<(), FileFault>
        ensures ok { F.is_honest → OnOk result (left_of self.new.file ≡ appended (left_of self.old.file) piece.now) }
        ensures err { F.is_honest
            → OnErr result (AppendsSome piece.now (left_of self.old.file) (left_of self.new.file)) }
        ensures cause { IsCaused self.old self.new result }
    {
        let length = self.check_call()?;
        self.is_cleared = false;
        self.file.append(piece)?;
        self.end(lengthened(length, piece.len()));
        Ok(())
    }

    /// Hands what was appended to the operating system. If it fails, the file rejects every later call.
    pub fn flush(&mut self) -> Result<(), FileFault>
        ensures unchanged { F.is_honest → self.new.file ≡ self.old.file }
        ensures cause { IsCaused self.old self.new result }
    {
        let length = self.check_call()?;
        self.file.flush()?;
        self.end(length);
        Ok(())
    }

    /// Syncs what the file has. If it fails, the file rejects every later call.
    pub fn sync(&mut self) -> Result<(), FileFault>
        ensures ok { F.is_honest → OnOk result (left_of self.new.file ≡ fully_synced (left_of self.old.file)) }
        ensures err { F.is_honest → OnErr result (left_of self.new.file ≡ left_of self.old.file) }
        ensures cause { IsCaused self.old self.new result }
    {
        let length = self.check_call()?;
        self.file.sync()?;
        self.end(length);
        Ok(())
    }

    /// Cuts the file to this many bytes and syncs it. Past the end it fails and changes nothing. If the truncation or
    /// the sync fails, it leaves a prefix of the file, and the file rejects every later call. A file that it has cut to
    /// 0, and that has got no bytes since, is not truncated and synced again.
    pub fn cut(&mut self, len: usize) -> Result<(), FileFault>
        ensures ok { F.is_honest → OnOk result (left_of self.new.file ≡ cut_to len (left_of self.old.file)) }
        ensures within { F.is_honest → OnOk result (len ≤ length (contents (left_of self.old.file))) }
        ensures err { F.is_honest → OnErr result (CutShort len (left_of self.old.file) (left_of self.new.file)) }
        ensures past_end { F.is_honest → length (contents (left_of self.old.file)) < len
            → left_of self.new.file ≡ left_of self.old.file }
        ensures cause { IsCutCaused F.is_honest len self.old self.new result }
    {
        let length = self.length()?;
        if length < len {
            return Err(FileFault);
        }
        if length == 0 && self.is_cleared {
            return Ok(());
        }
        self.check_call()?;
        self.file.truncate(len)?;
        self.file.sync()?;
        self.end(Some(len));
        self.is_cleared = len == 0;
        Ok(())
    }
}
