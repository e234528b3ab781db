//! Starts a server of the lock table and does its turns, with contracts that state what the laws about clusters
//! assume.
ghost use Rattle.std.specs.Prelude.{◌≡◌, ℕ, List, IfOk, OnOk, OnErr};
ghost use Rattle.std.specs.declared.net.socket_addr.SocketAddr.{SocketAddr as Address};
ghost use Rattle.lk_types.specs.declared.genesis.Genesis.{Genesis as GenesisValue};
ghost use Rattle.lk_node.specs.Leavings.{header_of};
ghost use Rattle.lk_cluster_theorems.specs.Clusters.{HasStarted, Says};
ghost use Rattle.lk_address_book.specs.Addresses.{filter_of};
ghost use Rattle.lk_address_book.specs.Filters.{all_filtered};
ghost use Rattle.lk_transport.specs.Kept.{KeepsOf};
ghost use Rattle.lk_server.specs.Servers.{HasReceived, TurnOrIdle, LastTurn};

use lk_disk::LogDisk;
use lk_locks::LockTable;
use lk_node_interface::ReplicaFault;
use lk_node_process::node_end::RefusedStart;
use lk_node_process::running::revive;
use lk_node_setup::resources::Resources;
use lk_pacing::tick_timer::TickTimer;
use lk_replica::Replica;
use lk_server::group_fault::GroupFault;
use lk_server::server::{Server, node_turn};
use lk_store_format::Header;
use lk_transport::receive_buffer::ReceiveBuffer;
use lk_transport::socket::DatagramSocket;
use log::Log;
use std::alloc::Global;
use std::time::Clock;

/// Does one turn, as `node_turn` does, of a server of the lock table on any honest device and any socket. It takes
/// what arrives, out of its frames if the nodes have a key.
pub fn run_turn<D: LogDisk + Drop, S: DatagramSocket + Drop, C: Clock, L: Log>(
    server: &mut Server<Replica<LockTable, D>, S>,
    buffer: &mut ReceiveBuffer,
    tick_timer: &mut TickTimer<C>,
    log: &L,
) -> Result<(), GroupFault>
    ensures turn { D.is_honest
        → OnOk result ((frames : List (Address × List ℕ)) × HasReceived S.is_observable frames server.old server.new
        × TurnOrIdle (Says D.is_metered) S.is_observable frames server.old server.new
        × KeepsOf server.old.addresses.seals frames buffer.old buffer.new) }
    ensures ends { D.is_honest
        → OnErr result ((frames : List (Address × List ℕ)) × HasReceived S.is_observable frames server.old server.new
        × LastTurn (Says D.is_metered) S.is_observable
        (all_filtered (filter_of server.old.addresses) frames) server.old server.new) }
    ensures failed { server.new.failed ≡ server.new.replica.failed }
{
    let taken = node_turn(server, buffer, tick_timer, log);
    // The contract of this call shows that the server's `failed` is its replica's.
    let _ = server.replica();
    taken
}

/// Starts a server of the lock table from any honest device, as `revive` does.
pub fn start<D: LogDisk + Drop, S: DatagramSocket + Drop, L: Log>(
    alloc: Global,
    header: &Header,
    resources: Resources<D, S>,
    log: &L,
) -> Result<Server<Replica<LockTable, D>, S>, RefusedStart<ReplicaFault, D, S>>
    ensures { D.is_honest → (genesis : GenesisValue) → header.now ≡ header_of genesis header.now.node
        → IfOk result (HasStarted genesis header.now.node (D.disk resources.device)) }
{
    let server = revive::<LockTable, D, S, L>(alloc, header, resources, log)?;
    // The contract of this call shows that the server's `failed` is its replica's.
    let _ = server.replica();
    Ok(server)
}
