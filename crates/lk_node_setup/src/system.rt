//! The platform of the operating system: its files, its UDP sockets and its clock.

ghost use Rattle.std.specs.Prelude.{⊤};

use crate::platform::Platform;
use crate::text_files::TextFiles;
use lk_node_files::causes::{open_socket_at, write_cause};
use lk_node_files::existing::check_store;
use lk_node_files::folder::{FolderDevice, FolderLock, check_files, open_device};
use lk_program_fault::ProgramFault;
use lk_transport::socket::LocalSocket;
use std::alloc::Global;
use std::fs::{File, Files, OpenOptions};
use std::io;
use std::io::{Read, Write};
use std::net::{Net, SocketAddr};
use std::os::unix::fs::PermissionsExt;
use std::time::{Clock, Duration};

/// The files of a folder as a device, with sums or without.
pub type FolderDisk = FolderDevice<File>;

/// The files, the sockets and the clock of the system. Nothing is stated about which file a path leads to, and to which
/// address a socket is bound: this module is trusted.
#[derive(Clone, Copy)]
pub struct System<'a, R>(pub &'a R);

// The mode bits that give others access to a file.
const OTHERS: u32 = 0o077;

// Opens a file to read.
fn open_file<R: Files<File = File>>(rt: &R, path: &str) -> io::Result<File> {
    let mut how = OpenOptions::new();
    how.read(true);
    how.open(rt, path)
}

// Rejects a file to which others than its owner have access, or of which that is not known.
fn check_secret<E: Write>(file: &File, path: &str, err: &mut E) -> Result<(), ProgramFault> {
    match file.metadata() {
        Ok(data) if data.permissions().mode() & OTHERS == 0 => Ok(()),
        Ok(_) => Err(write_cause(
            path,
            "readable by users other than its owner; set its mode to 600",
            err,
        )),
        Err(error) => Err(write_cause(path, error, err)),
    }
}

impl<'a, R: Clock> Clock for System<'a, R> {
    fn monotonic(&self) -> io::Result<Duration> {
        self.0.monotonic()
    }

    fn since_1970(&self) -> io::Result<Duration> {
        self.0.since_1970()
    }

    fn sleep(&self, duration: Duration) {
        self.0.sleep(duration)
    }
}

impl<'a, R: Files<File = File>> TextFiles for System<'a, R> {
    ghost is_text = { λ _ _ _. ⊤ };

    fn read_file<E: Write>(
        &self,
        alloc: Global,
        path: &str,
        is_secret: bool,
        err: &mut E,
    ) -> Result<Vec<u8>, ProgramFault> {
        let mut file = match open_file(self.0, path) {
            Ok(file) => file,
            Err(error) => return Err(write_cause(path, error, err)),
        };
        if is_secret {
            check_secret(&file, path, err)?;
        }
        let mut bytes = Vec::new(alloc);
        match file.read_to_end(&mut bytes) {
            Ok(_) => Ok(bytes),
            Err(error) => Err(write_cause(path, error, err)),
        }
    }
}

impl<'a, R: Files<File = File> + Net + Clock> Platform<FolderDisk, LocalSocket> for System<'a, R> {
    type Lock = FolderLock;

    ghost is_store = { λ _ _ _ _. ⊤ };

    ghost is_bound = { λ _ _ _. ⊤ };

    fn open_socket<E: Write>(
        &self,
        alloc: Global,
        address: SocketAddr,
        sends_bundles: bool,
        err: &mut E,
    ) -> Result<LocalSocket, ProgramFault> {
        let mut socket = open_socket_at(self.0, address, err)?;
        socket.read_bundles(alloc);
        if sends_bundles {
            socket.send_bundles(alloc);
        }
        Ok(socket)
    }

    fn open_store<E: Write>(
        &self,
        alloc: Global,
        folder: &str,
        existing: bool,
        sums: bool,
        err: &mut E,
    ) -> Result<(FolderDisk, FolderLock), ProgramFault> {
        if existing {
            check_files(self.0, alloc, folder, err)?;
        }
        let lock = FolderLock::acquire(self.0, alloc, folder, err)?;
        let opened = open_device(self.0, alloc, folder, sums, err)?;
        let mut device = opened.device;
        if existing {
            check_store(alloc, &mut device, folder, err)?;
        }
        Ok((device, lock))
    }
}
