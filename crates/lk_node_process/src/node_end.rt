//! What is left of a node when its run is over, or when it did not start.

ghost use Rattle.std.specs.Prelude.{◌≡◌, MatchResult};

use crate::observing::observe_end;
use lk_disk::LogDisk;
use lk_node_events::line::Observer;
use lk_program_fault::ProgramFault;
use lk_replica::Replica;
use lk_server::server::Server;
use lk_server_replica::TableMachine;
use lk_transport::socket::DatagramSocket;
use std::io::Write;

/// The server of a node's replica on a device, with a socket.
pub type NodeServer<M, D, S> = Server<Replica<M, D>, S>;

/// Why a node did not start, with its device and its socket, which the caller gets back.
#[derive(Drop)]
pub struct RefusedStart<F: Drop, D: Drop, S: Drop> {
    pub fault: F,
    pub device: D,
    pub socket: S,
}

/// How the run of a node has ended: the status of its process, and what is left: its server, with the device and the
/// socket, or these alone if the node did not start.
#[derive(Drop)]
pub struct NodeEnd<M: TableMachine, D: LogDisk + Drop, S: DatagramSocket + Drop> {
    pub status: u8,
    pub left: Result<NodeServer<M, D, S>, RefusedStart<ProgramFault, D, S>>,
}

/// Returns the status of a process that has ended like this: 0, or 1 after a fault, which is reported to an observer
/// and written to standard error.
pub fn status_after<O: Observer, E: Write>(
    ran: Result<(), ProgramFault>,
    observer: &mut O,
    err: &mut E,
) -> u8
    ensures { MatchResult ran (λ _. result ≡ 0) (λ _. result ≡ 1) }
{
    match ran {
        Ok(()) => 0,
        Err(fault) => {
            observe_end(fault, observer);
            fault.write_to(err)
        }
    }
}
