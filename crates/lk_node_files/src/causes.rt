//! Opens files and sockets, and writes why one does not open, or why a call of a file failed.

ghost use Rattle.std.specs.Prelude.{◌≡◌, ◌≢◌, IfOk, IfErr};
ghost use Rattle.lk_node_files.specs.Openings.{IsClosed};

use lk_disk::{FileDisk, LogDisk, Side, SystemDisk};
use lk_memory_disk::MemoryDisk;
use lk_program_fault::ProgramFault;
use lk_summed_disk::{HidingDisk, OptionalSums};
use lk_transport::socket::{LocalSocket, local};
use std::alloc::Global;
use std::fmt::Display;
use std::fs::{Files, OpenFile, OpenOptions};
use std::io;
use std::io::{Read, Seek, Write};
use std::net::{Net, SocketAddr};
use std::path::Path;

/// Writes the line `NAME: TEXT`, whose text says why the named thing does not open, and returns `CannotOpen`.
pub fn write_cause<N: Display + Drop, T: Display + Drop, E: Write>(
    name: N,
    text: T,
    err: &mut E,
) -> ProgramFault
    ensures { result ≡ ProgramFault.CannotOpen }
{
    let _ = writeln!(err, "{name}: {text}");
    ProgramFault::CannotOpen
}

/// Opens a socket at a port of 127.0.0.1, for 0 at any free one. On failure it writes the reason and returns
/// `CannotOpen`.
pub fn open_socket<R: Net, E: Write>(
    rt: &R,
    port: u16,
    err: &mut E,
) -> Result<LocalSocket, ProgramFault>
    ensures fault { IfErr result (λ fault. fault ≡ ProgramFault.CannotOpen) }
    ensures quiet { IfOk result (λ _. err.new ≡ err.old) }
{
    open_socket_at(rt, local(port), err)
}

/// Opens a socket at an address. On failure it writes the reason and returns `CannotOpen`.
pub fn open_socket_at<R: Net, E: Write>(
    rt: &R,
    address: SocketAddr,
    err: &mut E,
) -> Result<LocalSocket, ProgramFault>
    ensures fault { IfErr result (λ fault. fault ≡ ProgramFault.CannotOpen) }
    ensures quiet { IfOk result (λ _. err.new ≡ err.old) }
{
    match LocalSocket::open_at(rt, address) {
        Ok(socket) => Ok(socket),
        Err(error) => Err(write_cause(address, error, err)),
    }
}

/// Opens a file of a folder. On failure it writes the reason and returns `CannotOpen`; if there is no memory for the
/// path, it writes nothing and returns `NoMemory`.
pub fn open_file<R: Files, E: Write>(
    rt: &R,
    alloc: Global,
    how: &OpenOptions,
    folder: &str,
    name: &str,
    err: &mut E,
) -> Result<R::File, ProgramFault>
    ensures fault { IfErr result IsClosed }
    ensures quiet { IfOk result (λ _. err.new ≡ err.old) }
{
    let path = Path::new(folder).join(alloc, name)?;
    match how.open(rt, path.as_path()) {
        Ok(file) => Ok(file),
        Err(error) => Err(write_cause(path.as_path().display(), error, err)),
    }
}

/// Opens the files of a folder again, finds the first that does not open, writes why, and returns the fault;
/// `CannotOpen` without a line if both open now.
pub fn write_open_error<R: Files, E: Write>(
    rt: &R,
    alloc: Global,
    how: &OpenOptions,
    folder: &str,
    err: &mut E,
) -> ProgramFault
    ensures { IsClosed result }
{
    for name in ["a", "b"] {
        if let Err(fault) = open_file(rt, alloc, how, folder, name, err) {
            return fault;
        }
    }
    ProgramFault::CannotOpen
}

/// A device that says why one of its calls failed.
pub trait FailureCause {
    /// What the system reported for the last failed call at a side, if there was one.
    fn cause(&self, side: Side) -> Option<io::Error>;
}

impl<F: OpenFile + Read + Write + Seek + Drop> FailureCause for SystemDisk<F> {
    fn cause(&self, side: Side) -> Option<io::Error> {
        FileDisk::cause(self, side)
    }
}

impl<D: LogDisk + FailureCause + Drop> FailureCause for HidingDisk<D> {
    fn cause(&self, side: Side) -> Option<io::Error> {
        self.inner.cause(side)
    }
}

impl<D: LogDisk + FailureCause + Drop> FailureCause for OptionalSums<D> {
    fn cause(&self, side: Side) -> Option<io::Error> {
        self.below().cause(side)
    }
}

impl FailureCause for MemoryDisk {
    fn cause(&self, _side: Side) -> Option<io::Error> {
        None
    }
}

/// Writes a line for each file of a folder with a failed call, if the fault is `Device`. Returns the fault unchanged.
pub fn write_failed_calls<D: FailureCause, E: Write>(
    fault: ProgramFault,
    device: &D,
    folder: &str,
    err: &mut E,
) -> ProgramFault
    ensures fault { result ≡ fault }
    ensures quiet { fault ≢ ProgramFault.Device → err.new ≡ err.old }
{
    if fault == ProgramFault::Device {
        for (side, name) in [(Side::A, "a"), (Side::B, "b")] {
            if let Some(cause) = device.cause(side) {
                let _ = writeln!(err, "{folder}/{name}: {cause}");
            }
        }
    }
    fault
}
