//! What a node is run on: the files, the socket and the clock that it is given.

ghost use Rattle.std.specs.Prelude.{Bool, List, ℕ, IfOk, IsTrue};
ghost use Rattle.std.specs.declared.net.socket_addr.SocketAddr.{SocketAddr as Address};
ghost use Rattle.lk_log.specs.Images.{seen};
ghost use Rattle.lk_node_files.specs.Existing.{HasStore};

use crate::text_files::TextFiles;
use lk_disk::LogDisk;
use lk_program_fault::ProgramFault;
use lk_transport::socket::DatagramSocket;
use std::alloc::Global;
use std::io::Write;
use std::net::SocketAddr;
use std::time::Clock;

/// Opens the store and the socket of a node. It is also the node's clock.
pub trait Platform<D: LogDisk + Drop, S: DatagramSocket + Drop>: TextFiles + Clock {
    /// Keeps other processes off a folder as long as it lives.
    type Lock: Drop;

    /// The device is that of the files in the folder of this path, with sums if they were asked for. Of the system
    /// every device is such: that a path leads to the folder of that name is trusted.
    ghost is_store: { Self → List ℕ → Bool → D → Type 0 };

    /// The socket is bound to this address. Of the system every socket is such: that is trusted too.
    ghost is_bound: { Self → Address → S → Type 0 };

    /// Opens a socket at an address, which reads bundles, and sends them if that was asked for. On failure it writes
    /// the reason and returns `CannotOpen`.
    fn open_socket<E: Write>(
        &self,
        alloc: Global,
        address: SocketAddr,
        sends_bundles: bool,
        err: &mut E,
    ) -> Result<S, ProgramFault>
        ensures { IfOk result (is_bound self.now address) };

    /// Opens the files of a folder and locks the folder. It creates missing files unless there has to be a store, which
    /// it then looks for. What begins a file begins it with sums if these are asked for, or if a file has them. On
    /// failure it writes the reason and returns the fault.
    fn open_store<E: Write>(
        &self,
        alloc: Global,
        folder: &str,
        existing: bool,
        sums: bool,
        err: &mut E,
    ) -> Result<(D, Self::Lock), ProgramFault>
        ensures store { IfOk result (λ r. is_store self.now folder.now sums r.0) }
        // One of the files is live if there has to be a store.
        ensures existing { IsTrue existing → D.is_honest → IfOk result (λ r. HasStore (seen (D.disk r.0))) };
}
