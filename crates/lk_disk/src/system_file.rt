// Files of the operating system. No contract states what they do: this module is trusted.
ghost use Rattle.std.specs.Prelude.{◌≡◌, IsFalse, IfOk};
ghost use Rattle.lk_disk.specs.Disk.{one_more, HasCause};
ghost use Rattle.lk_disk.specs.Files.{unknown};

use crate::append_file::{AppendFile, FileFault};
use crate::buffered_file::BufferedFile;
use crate::device::Side;
use crate::file_disk::FileDisk;
use std::alloc::Global;
use std::fs::{File, Files, OpenFile, OpenOptions};
use std::io;
use std::io::{Read, Seek, SeekFrom, Write};
use std::path::Path;
use thiserror::Error;

/// A file of the system, opened so that each write goes to its end.
///
/// That it is honest is an assumption, which nothing here or above proves: the bytes of a write go to the end of the
/// file; what `sync_data` has returned for outlasts a stop of the machine, with the length that the file then had; and
/// nobody else writes to it.
#[derive(Drop)]
pub struct SystemFile<F> {
    file: F,
    failures: u64,
    // why the last failed call failed
    cause: Option<io::Error>,
}

// Fills the buffer with the bytes from the offset on. Fails if the file ends before.
fn read_at<F: Read + Seek>(file: &mut F, offset: usize, buffer: &mut [u8]) -> io::Result<()> {
    file.seek(SeekFrom::Start(offset as u64))?;
    file.read_exact(buffer)?;
    Ok(())
}

impl<F> SystemFile<F> {
    // Counts a failure, and keeps its cause.
    fn fail(&mut self, cause: io::Error) -> FileFault
        ensures { self.new.failures ≡ one_more self.old.failures }
    {
        self.failures = self.failures.saturating_add(1);
        self.cause = Some(cause);
        FileFault
    }

    // Converts the result of a system call: counts a failed one, and keeps its cause.
    fn keep_cause(&mut self, made: io::Result<()>) -> Result<(), FileFault>
        ensures { HasCause self.old.failures self.new.failures result }
    {
        match made {
            Ok(()) => Ok(()),
            Err(cause) => Err(self.fail(cause)),
        }
    }
}

impl<F: OpenFile + Read + Write + Seek> AppendFile for SystemFile<F> {
    ghost file = { λ _. unknown };

    ghost is_honest = { ⊥ };

    ghost failures = { λ f. f.failures };

    fn length(&mut self) -> Result<usize, FileFault> {
        let length = match self.file.metadata() {
            Ok(metadata) => usize::try_from(metadata.len()),
            Err(cause) => return Err(self.fail(cause)),
        };
        match length {
            Ok(length) => Ok(length),
            Err(_) => Err(self.fail(io::Error::other("the file is too long"))),
        }
    }

    fn read_into(&mut self, offset: usize, buffer: &mut [u8]) -> Result<(), FileFault> {
        let read = read_at(&mut self.file, offset, buffer);
        self.keep_cause(read)
    }

    fn append(&mut self, piece: &[u8]) -> Result<(), FileFault> {
        let made = self.file.write_all(piece);
        self.keep_cause(made)
    }

    // Does nothing: `append` has already written to the operating system.
    fn flush(&mut self) -> Result<(), FileFault> {
        Ok(())
    }

    fn sync(&mut self) -> Result<(), FileFault> {
        let made = self.file.sync_data();
        self.keep_cause(made)
    }

    fn truncate(&mut self, len: usize) -> Result<(), FileFault> {
        let made = self.file.set_len(len as u64);
        self.keep_cause(made)
    }
}

/// A socket, a folder or a file could not be opened.
#[derive(Clone, Copy, Debug, Error)]
#[error("cannot open")]
pub struct CannotOpen;

// Opens one file of a folder.
fn open_one<R: Files>(
    rt: &R,
    alloc: Global,
    how: &OpenOptions,
    folder: &str,
    name: &str,
) -> Result<BufferedFile<SystemFile<R::File>>, CannotOpen>
    ensures { IfOk result (λ f. f.failures ≡ 0) }
{
    let Ok(path) = Path::new(folder).join(alloc, name) else {
        return Err(CannotOpen);
    };
    let Ok(file) = how.open(rt, path.as_path()) else {
        return Err(CannotOpen);
    };
    let file = SystemFile {
        file,
        failures: 0,
        cause: None,
    };
    match BufferedFile::of(alloc, file) {
        Ok(file) => Ok(file),
        Err(FileFault) => Err(CannotOpen),
    }
}

// Makes the names of files that were created in a folder outlast a stop of the machine.
fn sync_folder<F: OpenFile>(folder: &F) -> Result<(), CannotOpen> {
    folder.sync_all().map_err(|_| CannotOpen)
}

/// Two files of the system as a device. What is appended to one of them waits for a flush or a sync, and then gets to
/// the system in one write.
pub type SystemDisk<F> = FileDisk<BufferedFile<SystemFile<F>>>;

impl<F: OpenFile + Read + Write + Seek + Drop> FileDisk<BufferedFile<SystemFile<F>>> {
    /// Opens the files `a` and `b` of a folder to read and to write. It creates a missing file, but not a folder.
    pub fn open<R: Files<File = F>>(
        rt: &R,
        alloc: Global,
        folder: &str,
    ) -> Result<SystemDisk<F>, CannotOpen>
        ensures failures { IfOk result (λ d. d.failures ≡ 0) }
        ensures failures_a { IfOk result (λ d. d.a.failures ≡ 0) }
        ensures failures_b { IfOk result (λ d. d.b.failures ≡ 0) }
        ensures alive_a { IfOk result (λ d. IsFalse d.a.failed) }
        ensures alive_b { IfOk result (λ d. IsFalse d.b.failed) }
    {
        let Ok(opened) = File::open(rt, folder) else {
            return Err(CannotOpen);
        };
        let mut how = OpenOptions::new();
        how.read(true).append(true).create(true);
        let a = open_one(rt, alloc, &how, folder, "a")?;
        let b = open_one(rt, alloc, &how, folder, "b")?;
        sync_folder(&opened)?;
        Ok(FileDisk::of(a, b))
    }

    /// Opens the files `a` and `b` of a folder to read only, and creates none. On such a device each append and cut
    /// fails.
    pub fn open_read_only<R: Files<File = F>>(
        rt: &R,
        alloc: Global,
        folder: &str,
    ) -> Result<SystemDisk<F>, CannotOpen>
        ensures failures { IfOk result (λ d. d.failures ≡ 0) }
        ensures failures_a { IfOk result (λ d. d.a.failures ≡ 0) }
        ensures failures_b { IfOk result (λ d. d.b.failures ≡ 0) }
        ensures alive_a { IfOk result (λ d. IsFalse d.a.failed) }
        ensures alive_b { IfOk result (λ d. IsFalse d.b.failed) }
    {
        let mut how = OpenOptions::new();
        how.read(true);
        let a = open_one(rt, alloc, &how, folder, "a")?;
        let b = open_one(rt, alloc, &how, folder, "b")?;
        Ok(FileDisk::of(a, b))
    }

    /// Returns what the system reported for its last failed call at a side, if there was one. Calls that the device
    /// rejects by itself do not change it.
    pub fn cause(&self, side: Side) -> Option<io::Error> {
        self.file(side).below().cause
    }
}
