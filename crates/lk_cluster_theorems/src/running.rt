//! A node of the lock table that the program runs is a node of its cluster.
ghost use Rattle.std.specs.Prelude.{◌≡◌, ◌≤◌, ◌^◌, ℕ, IfOk, IfErr, IsOkAnd};
ghost use Rattle.lk_types.specs.declared.genesis.Genesis.{Genesis as GenesisValue};
ghost use Rattle.lk_node.specs.Leavings.{header_of};
ghost use Rattle.lk_node_setup.specs.KeysOfNode.{AreSealsOf};
ghost use Rattle.lk_node_setup.specs.SelfProbes.{socket_value};
ghost use Rattle.lk_node_process.specs.Revivals.{surroundings};
ghost use Rattle.lk_cluster_theorems.specs.Clusters.{Cluster, IsReachable, ForgesNothing};
ghost use Rattle.lk_cluster_theorems.specs.Running.{IsDownOn, RunsIn, EndsInEither, RestsIn};

use crate::laws::sealed_processes_continue_a_cluster;
use lk_disk::LogDisk;
use lk_locks::LockTable;
use lk_node_events::line::Observer;
use lk_node_files::causes::FailureCause;
use lk_node_process::node_end::NodeEnd;
use lk_node_process::running::run_node;
use lk_node_setup::resources::{NodePlan, Resources};
use lk_node_setup::text_files::TextFiles;
use lk_transport::socket::DatagramSocket;
use log::Log;
use std::alloc::Global;
use std::io::Write;
use std::time::Clock;

/// Runs a node of the lock table on any honest device and any socket, as `run_node` does. However it ends, it continues
/// the reachable cluster in which the node was down with what the device had, whatever the processes of other nodes do
/// meanwhile; and the node is then at its place in the cluster as the server, or with the disks, that this returns. Its
/// first turn is that of a server with the hosts, the keys and the socket that were given.
pub fn run<
    D: LogDisk + FailureCause + Drop,
    S: DatagramSocket + Drop,
    P: Clock + TextFiles,
    L: Log,
    O: Observer,
    E: Write,
>(
    platform: &P,
    alloc: Global,
    plan: &NodePlan<'_>,
    resources: Resources<D, S>,
    log: &L,
    observer: &mut O,
    err: &mut E,
) -> NodeEnd<LockTable, D, S>
    requires { AreSealsOf plan.now.header resources.network.seals }
    ensures node_run { (honest : D.is_honest) → result.status ≡ 0 → (genesis : GenesisValue) (cluster : Cluster)
        → IsReachable ForgesNothing D.is_metered S.is_observable genesis cluster
        → (index n : ℕ) → plan.now.header ≡ header_of cluster.genesis n
        → (at : IsDownOn cluster index n (D.disk resources.device))
        → IsOkAnd result.left (RunsIn D.is_metered S.is_observable D.is_honest honest genesis cluster index n
        (D.disk resources.device) at (surroundings resources.pace resources.network
        (socket_value S.sent S.failures S.incoming resources.socket)) (2 ^ 48)) }
    ensures broken { (honest : D.is_honest) → result.status ≡ 1 → (genesis : GenesisValue) (cluster : Cluster)
        → IsReachable ForgesNothing D.is_metered S.is_observable genesis cluster
        → (index n : ℕ) → plan.now.header ≡ header_of cluster.genesis n
        → (at : IsDownOn cluster index n (D.disk resources.device))
        → IfOk result.left (EndsInEither D.is_metered S.is_observable D.is_honest honest genesis cluster index n
        (D.disk resources.device) at (surroundings resources.pace resources.network
        (socket_value S.sent S.failures S.incoming resources.socket)) (2 ^ 48)) }
    ensures rests { (honest : D.is_honest) → (genesis : GenesisValue) (cluster : Cluster)
        → IsReachable ForgesNothing D.is_metered S.is_observable genesis cluster
        → (index n : ℕ) → plan.now.header ≡ header_of cluster.genesis n
        → (at : IsDownOn cluster index n (D.disk resources.device))
        → IfErr result.left (λ e. RestsIn D.is_metered S.is_observable D.is_honest honest genesis cluster index n
        (D.disk resources.device) at (surroundings resources.pace resources.network
        (socket_value S.sent S.failures S.incoming resources.socket)) e.fault (D.disk e.device)) }
    ensures status { result.status ≤ 1 }
{
    // The contract of this law shows what a run with a key continues.
    sealed_processes_continue_a_cluster::<D, S>();
    run_node::<LockTable, D, S, P, L, O, E>(platform, alloc, plan, resources, log, observer, err)
}
