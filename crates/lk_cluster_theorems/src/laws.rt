//! Laws: a cluster of processes meets the guarantee, and whatever a node does leads from a reachable cluster to
//! another.
//! The body of a law calls the laws that its proof uses.
ghost use Rattle.std.specs.Prelude.{◌≡◌, ◌≢◌, ℕ, true, false, Option, Some, List, [], ◌∷◌, Contains};
ghost use Rattle.std.specs.List.{AllByRecursion};
ghost use Rattle.std.specs.declared.net.socket_addr.SocketAddr.{SocketAddr};
ghost use Rattle.lk_types.specs.declared.genesis.Genesis.{Genesis as GenesisValue};
ghost use Rattle.lk_disk.specs.Disk.{Disk, after_stop};
ghost use Rattle.lk_memory_disk.specs.Memory.{Memory, disk_of};
ghost use Rattle.lk_disk.specs.declared.device.Side.{Side};
ghost use Rattle.lk_messages.specs.declared.message.NodeMessage.{NodeMessage};
ghost use Rattle.lk_locks.specs.Meaning.{table_meaning};
ghost use Rattle.lk_locks.specs.Packed.{IsTableText};
ghost use Rattle.lk_agreement_laws.specs.Datagrams.{HasSent};
ghost use Rattle.lk_node.specs.Leavings.{header_of};
ghost use Rattle.lk_node_interface.specs.declared.note.Note.{Note};
ghost use Rattle.lk_auth.specs.Seals.{key_list, heard};
ghost use Rattle.lk_auth.specs.declared.seals.Seals.{Seals};
ghost use Rattle.lk_replica.specs.ReplicaValue.{ReplicaValue};
ghost use Rattle.lk_address_book.specs.Addresses.{filter_of};
ghost use Rattle.lk_address_book.specs.Filters.{all_filtered};
ghost use Rattle.lk_server.specs.Servers.{ServerValue, Turn, LastTurn, IsIdle};
ghost use Rattle.lk_program_fault.specs.declared.fault.ProgramFault.{ProgramFault};
ghost use Rattle.lk_transport.specs.Chains.{Chain};
ghost use Rattle.lk_node_process.specs.Revivals.{IsRestartRefused, IsRefusedWith, Surroundings};
ghost use Rattle.lk_node_process.specs.Turns.{DoesTurn, TellsFailure};
ghost use Rattle.lk_sim.specs.Networks.{MayCome};
ghost use Rattle.lk_sim_nodes.specs.SimNodes.{At};
ghost use Rattle.lk_sim_nodes.specs.declared.sim_node.RunState.{RunState};
ghost use Rattle.lk_sim_nodes.specs.declared.sim_node.RunState.TheVariants.{Up, Down};
ghost use Rattle.lk_guarantees.specs.ComingBack.{IsExcused};
ghost use Rattle.lk_guarantees.specs.Converging.{Converges};
ghost use Rattle.lk_guarantees.specs.ExactlyOnce.{AreExactlyOnce};
ghost use Rattle.lk_guarantees.specs.Linear.{IsLinearizable};
ghost use Rattle.lk_guarantees.specs.Guarantee.{MeetsGuarantee};
ghost use Rattle.lk_cluster_theorems.specs.Clusters.{Node, Cluster, IsReachable, ForgesNothing, HasStarted, Says};
ghost use Rattle.lk_cluster_theorems.specs.Clusters.{OnlyDelivers, TracesGroup, steps_of, world_state_of, server_disks};
ghost use Rattle.lk_cluster_theorems.specs.Clusters.{disks_in};
ghost use Rattle.lk_cluster_theorems.specs.Continuing.{Continues, AddsNothing, HasNode, node_of};
ghost use Rattle.lk_cluster_theorems.specs.Forgetting.{HasEmptyDisks, MustBeRemembered};
ghost use Rattle.lk_cluster_theorems.specs.Processes.{SaysIfHonest};
ghost use Rattle.lk_cluster_theorems.specs.Processes.{Move, Fit, MayAllArrive, RunTo, HasRun, MixRuns};
ghost use Rattle.lk_cluster_theorems.specs.Processes.{all_envelopes, sim_nodes_after, TraceAll, GoOn, AreNew};
ghost use Rattle.lk_cluster_theorems.specs.NodeRuns.{ForEachDown, ForEachUp, NodeRun, BrokenNodeRun, LedNodeRun};
ghost use Rattle.lk_cluster_theorems.specs.NodeRuns.{RefusedStart, run_moves, broken_run_moves, led_run_moves};
ghost use Rattle.lk_cluster_theorems.specs.NodeRuns.{refused_moves};
ghost use Rattle.lk_cluster_theorems.specs.Carrying.{AllBrought};
ghost use Rattle.lk_cluster_theorems.specs.ThreeNodes.{ThreeNodesRun, three_nodes};
ghost use Rattle.lk_cluster_theorems.specs.Sealing.{IsSealed, OnlyNodesSeal, OnlyNodesSealWhatComes, AllMoveSealed};
ghost use Rattle.lk_cluster_theorems.specs.Stopping.{IsInTurn};

use lk_disk::LogDisk;
use lk_guarantees::laws::{
    nodes_converge, operations_take_effect_exactly_once, worlds_are_linearizable,
};
use lk_locks::LockTable;
use lk_replica::Replica;
use lk_server::laws::is_told_by_a_node;
use lk_server_replica::ServerReplica;
use lk_transport::socket::DatagramSocket;

/// Whatever the servers of a cluster do, one after another in any order, and whatever arrives over a network that
/// forges nothing: the guarantee holds of everything that they send, of what happens, and of their disks. So the
/// processes that people run meet the guarantee of a world of replicas (after IronFleet: Hawblitzel et al., 2015).
pub fn a_cluster_meets_the_guarantee<D: LogDisk, S: DatagramSocket>()
    ensures { (genesis : GenesisValue) (cluster : Cluster)
        → IsReachable ForgesNothing D.is_metered S.is_observable genesis cluster → MeetsGuarantee
        (world_state_of cluster) }
{}

/// The history that clients of such a cluster see is linearizable (Herlihy and Wing, 1990).
pub fn a_cluster_is_linearizable<D: LogDisk, S: DatagramSocket>()
    ensures { (genesis : GenesisValue) (cluster : Cluster)
        → IsReachable ForgesNothing D.is_metered S.is_observable genesis cluster
        → IsLinearizable cluster.genesis cluster.trace }
{
    a_cluster_meets_the_guarantee::<D, S>();
    worlds_are_linearizable();
}

/// Each operation of a client that follows the rule takes effect exactly once in such a cluster, in the client's order.
pub fn a_cluster_executes_exactly_once<D: LogDisk, S: DatagramSocket>()
    ensures { (genesis : GenesisValue) (cluster : Cluster)
        → IsReachable ForgesNothing D.is_metered S.is_observable genesis cluster
        → AreExactlyOnce cluster.genesis cluster.sent cluster.trace }
{
    a_cluster_meets_the_guarantee::<D, S>();
    operations_take_effect_exactly_once();
}

/// Nodes of such a cluster that have executed as many commands keep the same, to the byte.
pub fn a_cluster_converges<D: LogDisk, S: DatagramSocket>()
    ensures { (genesis : GenesisValue) (cluster : Cluster)
        → IsReachable ForgesNothing D.is_metered S.is_observable genesis cluster → Converges (world_state_of cluster) }
{
    a_cluster_meets_the_guarantee::<D, S>();
    nodes_converge();
}

/// Under a key that only the nodes of a cluster have, what a node takes from a frame is not forged: whatever it says
/// on behalf of a node of the cluster, that node has said. The premise is that nobody without the key can make such a
/// frame (HMAC-SHA-256, RFC 2104).
pub fn a_sealed_datagram_is_not_forged<D: LogDisk, S: DatagramSocket>()
    ensures { (genesis : GenesisValue) (cluster : Cluster)
        → IsReachable ForgesNothing D.is_metered S.is_observable genesis cluster
        → (seals : Seals) → key_list seals.nodes ≢ [] → (frame : List ℕ) → OnlyNodesSeal cluster.sent seals frame
        → MayCome cluster.genesis cluster.sent (Some (heard seals frame)) }
{
    is_told_by_a_node();
}

/// A cluster whose nodes share such a key needs no other premise about the network: whatever frames arrive, nothing is
/// forged.
pub fn a_sealed_cluster_forges_nothing<D: LogDisk, S: DatagramSocket>()
    ensures { (genesis : GenesisValue) (cluster : Cluster)
        → IsReachable IsSealed D.is_metered S.is_observable genesis cluster
        → IsReachable ForgesNothing D.is_metered S.is_observable genesis cluster }
{
    is_told_by_a_node();
}

/// So a cluster whose nodes share such a key meets the guarantee.
pub fn a_sealed_cluster_meets_the_guarantee<D: LogDisk, S: DatagramSocket>()
    ensures { (genesis : GenesisValue) (cluster : Cluster)
        → IsReachable IsSealed D.is_metered S.is_observable genesis cluster → MeetsGuarantee (world_state_of cluster) }
{
    a_sealed_cluster_forges_nothing::<D, S>();
    a_cluster_meets_the_guarantee::<D, S>();
}

/// A server that starts from the disks of a node continues its cluster: that leads on to the cluster in which that node
/// is up.
pub fn a_start_continues_a_cluster<D: LogDisk, S: DatagramSocket>()
    ensures { ForEachDown ForgesNothing D.is_metered S.is_observable
        (λ genesis cluster index n disks. (server : ServerValue ReplicaValue)
        (started : HasStarted cluster.genesis n disks server)
        → Continues ForgesNothing D.is_metered S.is_observable genesis cluster index n (Up server) []
        (λ notes. notes ≡ started.notes)) }
{}

/// A rejected start continues its cluster: the node stays down, with the disks that the rejection has left. The
/// contract of the program ensures such a rejection.
pub fn a_refused_start_continues_a_cluster<D: LogDisk, S: DatagramSocket>()
    ensures { D.is_honest → ForEachDown ForgesNothing D.is_metered S.is_observable
        (λ genesis cluster index n disks. (told : ProgramFault)
        (rests : Side → Disk)
        (refused : IsRefusedWith table_meaning IsTableText D.is_honest disks (header_of cluster.genesis n) told rests)
        → (left : Memory) → ((s : Side) → disk_of left s ≡ rests s)
        → Continues ForgesNothing D.is_metered S.is_observable genesis cluster index n (Down left) []
        AddsNothing) }
{}

/// A turn of a server continues its cluster if what arrived in it is not forged. The requests that arrived, what its
/// replica says of each step, and the answers that it gives join the trace, in that order.
pub fn a_turn_continues_a_cluster<D: LogDisk, S: DatagramSocket>()
    ensures { ForEachUp ForgesNothing D.is_metered S.is_observable
        (λ genesis cluster index n server. (after : ServerValue ReplicaValue) (came : List (SocketAddr × List ℕ))
        → ForgesNothing cluster.genesis cluster.sent server came
        → (turn : Turn (Says D.is_metered) S.is_observable came server after) → after.replica.failed ≡ false
        → Continues ForgesNothing D.is_metered S.is_observable genesis cluster index n (Up after)
        turn.hands_on.envelopes
        (TracesGroup cluster.genesis.cluster n turn.given (steps_of D.is_metered turn.hands_on.says.comes))) }
{}

/// A turn of a server that has the key of the nodes continues its cluster whatever frames came in it.
/// `turning::run_turn` ensures such a turn, or an idle one.
pub fn a_sealed_turn_continues_a_cluster<D: LogDisk, S: DatagramSocket>()
    ensures { ForEachUp IsSealed D.is_metered S.is_observable
        (λ genesis cluster index n server. (after : ServerValue ReplicaValue)
        → key_list server.addresses.seals.nodes ≢ [] → (frames : List (SocketAddr × List ℕ))
        → OnlyNodesSealWhatComes cluster.sent server.addresses.seals frames
        → (turn : Turn (Says D.is_metered) S.is_observable
        (all_filtered (filter_of server.addresses) frames) server after)
        → after.replica.failed ≡ false
        → Continues IsSealed D.is_metered S.is_observable genesis cluster index n (Up after) turn.hands_on.envelopes
        (TracesGroup cluster.genesis.cluster n turn.given (steps_of D.is_metered turn.hands_on.says.comes))) }
{
    is_told_by_a_node();
}

/// An idle turn of a server continues its cluster, and gives nothing to be sent.
pub fn an_idle_turn_continues_a_cluster<D: LogDisk, S: DatagramSocket>()
    ensures { ForEachUp ForgesNothing D.is_metered S.is_observable
        (λ genesis cluster index n server. (after : ServerValue ReplicaValue) (frames : List (SocketAddr × List ℕ))
        → IsIdle S.is_observable frames server after
        → Continues ForgesNothing D.is_metered S.is_observable genesis cluster index n (Up after) [] AddsNothing) }
{}

/// A turn that ends a server continues its cluster: the node is then down, with the disks that its replica has left.
pub fn a_last_turn_continues_a_cluster<D: LogDisk, S: DatagramSocket>()
    ensures { ForEachUp ForgesNothing D.is_metered S.is_observable
        (λ genesis cluster index n server. (after : ServerValue ReplicaValue) (came : List (SocketAddr × List ℕ))
        → ForgesNothing cluster.genesis cluster.sent server came
        → (turn : LastTurn (Says D.is_metered) S.is_observable came server after) → after.replica.failed ≡ true
        → (left : Memory) → ((s : Side) → disk_of left s ≡ server_disks after s)
        → Continues ForgesNothing D.is_metered S.is_observable genesis cluster index n
        (Down left) turn.hands_on.envelopes
        (TracesGroup cluster.genesis.cluster n turn.given (steps_of D.is_metered turn.hands_on.says.comes))) }
{}

/// A stop of a node, up or down, continues its cluster: it is then down, and each of its disks has what was synced and
/// a prefix of the rest.
pub fn a_stop_continues_a_cluster<D: LogDisk, S: DatagramSocket>()
    ensures { (genesis : GenesisValue) (cluster : Cluster)
        → IsReachable ForgesNothing D.is_metered S.is_observable genesis cluster
        → (index n : ℕ) (run_state : RunState (ServerValue ReplicaValue)) → HasNode cluster index n run_state
        → (left : Memory) → ((s : Side) → (k : ℕ) × (disk_of left s ≡ after_stop k (disks_in run_state s)))
        → Continues ForgesNothing D.is_metered S.is_observable genesis cluster index n (Down left) [] AddsNothing }
{}

/// A process that is killed in the middle of a turn has ended its node as a turn that ended its replica there: nothing
/// is sent, and the disks are as the group has left them so far. After that it stops.
pub fn a_stop_in_a_turn_ends_it<D: LogDisk, S: DatagramSocket>()
    ensures { (came : List (SocketAddr × List ℕ)) (server : ServerValue ReplicaValue) (given : List (Option (List ℕ)))
        (now : ReplicaValue) → IsInTurn D.is_metered S.is_observable D.is_honest came server given now
        → (after : ServerValue ReplicaValue)
        × LastTurn (SaysIfHonest D.is_metered D.is_honest) S.is_observable came server after
        × TellsFailure after × (after.replica ≡ record now { failed = true }) }
{}

/// The processes of nodes on honest devices run at the same time and continue their cluster, whatever the order of
/// their moves, if nothing that arrives in a move is forged, given all that any node sent before. What they give to be
/// sent joins what has been sent, and what each move adds joins the trace, in that order.
pub fn processes_continue_a_cluster<D: LogDisk, S: DatagramSocket>()
    ensures { (honest : D.is_honest) (genesis : GenesisValue) (cluster : Cluster)
        → IsReachable ForgesNothing D.is_metered S.is_observable genesis cluster
        → (moves : List (Move D.is_metered S.is_observable D.is_honest cluster.genesis))
        → Fit D.is_metered S.is_observable D.is_honest cluster.genesis cluster.sim_nodes moves
        → MayAllArrive D.is_metered S.is_observable D.is_honest cluster.genesis ForgesNothing cluster.sent moves
        → GoOn D.is_metered S.is_observable D.is_honest cluster.genesis honest ForgesNothing genesis cluster moves }
{}

/// The same of processes with the nodes' key, whatever frames arrive.
pub fn sealed_processes_continue_a_cluster<D: LogDisk, S: DatagramSocket>()
    ensures { (honest : D.is_honest) (genesis : GenesisValue) (cluster : Cluster)
        → IsReachable IsSealed D.is_metered S.is_observable genesis cluster
        → (moves : List (Move D.is_metered S.is_observable D.is_honest cluster.genesis))
        → Fit D.is_metered S.is_observable D.is_honest cluster.genesis cluster.sim_nodes moves
        → AllMoveSealed D.is_metered S.is_observable D.is_honest cluster.genesis cluster.sent moves
        → GoOn D.is_metered S.is_observable D.is_honest cluster.genesis honest IsSealed genesis cluster moves }
{
    is_told_by_a_node();
}

/// A server keeps its seals in all its turns. So all turns of a run with the nodes' key are those of a server that has
/// it.
pub fn turns_keep_the_seals<D: LogDisk + Drop, S: DatagramSocket>()
    ensures { (seals : Seals) (first last : ServerValue ReplicaValue) (states : List (ServerValue ReplicaValue))
        → Chain (DoesTurn ⟦<Replica<LockTable, D> as ServerReplica>⟧.Says S.is_observable) first states last
        → first.addresses.seals ≡ seals
        → AllByRecursion (λ (s : ServerValue ReplicaValue). s.addresses.seals ≡ seals) (first ∷ states)
        × (last.addresses.seals ≡ seals) }
{}

/// Each outcome of a node's run is moves that take the node from the state in which it was, down on the device that the
/// run began with, to the one in which the run has left it. The program's contract ensures such a run.
pub fn a_node_run_is_made_of_moves<D: LogDisk, S: DatagramSocket>()
    // all turns
    ensures runs { (genesis : GenesisValue) (index n count : ℕ) (disks : Side → Disk) (device : Memory)
        (same : (s : Side) → disk_of device s ≡ disks s) (given : Surroundings) (ended : ServerValue ReplicaValue)
        (node_run : NodeRun D.is_metered S.is_observable D.is_honest genesis n disks given count ended)
        → RunTo D.is_metered S.is_observable D.is_honest genesis index (node_of n (Down device))
        (run_moves D.is_metered S.is_observable D.is_honest genesis n disks index device same node_run)
        (node_of n (Up ended)) }
    // fewer, and one that ended the replica
    ensures breaks { (genesis : GenesisValue) (index n most : ℕ) (disks : Side → Disk) (device : Memory)
        (same : (s : Side) → disk_of device s ≡ disks s) (given : Surroundings) (ended : ServerValue ReplicaValue)
        (node_run : BrokenNodeRun D.is_metered S.is_observable D.is_honest genesis n disks given most ended)
        (left : Memory) (leaves : (s : Side) → disk_of left s ≡ server_disks ended s)
        → RunTo D.is_metered S.is_observable D.is_honest genesis index (node_of n (Down device))
        (broken_run_moves D.is_metered S.is_observable D.is_honest genesis n disks index device same node_run left
        leaves) (node_of n (Down left)) }
    // fewer, and one after which it had followed a node of another genesis
    ensures is_led { (genesis : GenesisValue) (index n most : ℕ) (disks : Side → Disk) (device : Memory)
        (same : (s : Side) → disk_of device s ≡ disks s) (given : Surroundings) (ended : ServerValue ReplicaValue)
        (node_run : LedNodeRun D.is_metered S.is_observable D.is_honest genesis n disks given most ended)
        (left : Memory) (kept : (s : Side) → (k : ℕ) × (disk_of left s ≡ after_stop k (server_disks ended s)))
        → RunTo D.is_metered S.is_observable D.is_honest genesis index (node_of n (Down device))
        (led_run_moves D.is_metered S.is_observable D.is_honest genesis n disks index device same node_run left kept)
        (node_of n (Down left)) }
    // none, since its start was refused
    ensures is_refused { (genesis : GenesisValue) (index n : ℕ) (disks : Side → Disk) (device : Memory)
        (same : (s : Side) → disk_of device s ≡ disks s) (told : ProgramFault) (rests : Side → Disk)
        (refused : RefusedStart D.is_metered S.is_observable D.is_honest genesis n disks told rests)
        (left : Memory) (leaves : (s : Side) → disk_of left s ≡ rests s)
        → RunTo D.is_metered S.is_observable D.is_honest genesis index (node_of n (Down device))
        (refused_moves D.is_metered S.is_observable D.is_honest genesis n disks index device same refused left leaves)
        (node_of n (Down left)) }
{}

/// Runs of the nodes of a cluster that are mixed in any order fit it, and leave each node as its own run has left it.
pub fn mixed_runs_fit<D: LogDisk, S: DatagramSocket>()
    ensures fit { (genesis : GenesisValue) (sim_nodes : List Node)
        (moves : List (Move D.is_metered S.is_observable D.is_honest genesis))
        → MixRuns D.is_metered S.is_observable D.is_honest genesis sim_nodes moves
        → Fit D.is_metered S.is_observable D.is_honest genesis sim_nodes moves }
    ensures leave { (genesis : GenesisValue) (sim_nodes : List Node)
        (moves : List (Move D.is_metered S.is_observable D.is_honest genesis))
        (index : ℕ) (node : Node) → At sim_nodes index node
        → (has : HasRun D.is_metered S.is_observable D.is_honest genesis index node moves)
        → At (sim_nodes_after D.is_metered S.is_observable D.is_honest genesis sim_nodes moves) index has.last }
{}

/// The run of one node continues its cluster, where no other node moves: the node is then as its run has left it, its
/// envelopes have joined what has been sent, and what its moves add the trace.
pub fn a_process_continues_a_cluster<D: LogDisk, S: DatagramSocket>()
    ensures { (honest : D.is_honest) (genesis : GenesisValue) (cluster : Cluster)
        → IsReachable ForgesNothing D.is_metered S.is_observable genesis cluster
        → (index n : ℕ) (run_state last : RunState (ServerValue ReplicaValue)) → HasNode cluster index n run_state
        → (own : List (Move D.is_metered S.is_observable D.is_honest cluster.genesis))
        → RunTo D.is_metered S.is_observable D.is_honest cluster.genesis index (node_of n run_state) own
        (node_of n last)
        → MayAllArrive D.is_metered S.is_observable D.is_honest cluster.genesis ForgesNothing cluster.sent own
        → Continues ForgesNothing D.is_metered S.is_observable genesis cluster index n last
        (all_envelopes D.is_metered S.is_observable D.is_honest cluster.genesis own)
        (TraceAll D.is_metered S.is_observable D.is_honest cluster.genesis honest own) }
{}

/// A network that only delivers what nodes have sent, beside what is no node's message, forges nothing. So the premise
/// about the network is met by nodes that talk to each other, and by their clients.
pub fn a_delivering_network_forges_nothing<D: LogDisk, S: DatagramSocket>()
    ensures { (genesis : GenesisValue) (cluster : Cluster)
        → IsReachable OnlyDelivers D.is_metered S.is_observable genesis cluster
        → IsReachable ForgesNothing D.is_metered S.is_observable genesis cluster }
{}

/// Sockets between which a network carries, and forges nothing, show what nodes are given: if whatever comes to a node
/// in a move is a copy of a datagram that one of the sockets has sent before, or no node's message, then the network
/// only delivers. The nodes have no key, and their sockets reveal what they send. So the premise about the network is
/// met by whoever passes on what each of three servers sends, as a cable does.
pub fn what_sockets_carry_is_delivered<D: LogDisk, S: DatagramSocket>()
    ensures { S.is_observable → (genesis : GenesisValue)
        → (moves : List (Move D.is_metered S.is_observable D.is_honest genesis))
        → AllBrought D.is_metered S.is_observable D.is_honest genesis [] moves
        → MayAllArrive D.is_metered S.is_observable D.is_honest genesis OnlyDelivers [] moves }
{}

/// From the bytes that come to nodes to what their clients see. New nodes run on honest devices, each as the program's
/// contract ensures, at the same time and in any order; they talk to each other, restart and are killed. Then what
/// joins the trace by the bytes that they take and give is linearizable.
pub fn mixed_runs_are_linearizable<D: LogDisk, S: DatagramSocket>()
    // if nothing that arrives is forged
    ensures unforged { (honest : D.is_honest) (genesis : GenesisValue) (nodes : List Node) → AreNew nodes
        → (moves : List (Move D.is_metered S.is_observable D.is_honest genesis))
        → MixRuns D.is_metered S.is_observable D.is_honest genesis nodes moves
        → MayAllArrive D.is_metered S.is_observable D.is_honest genesis ForgesNothing [] moves
        → (notes : List Note) → TraceAll D.is_metered S.is_observable D.is_honest genesis honest moves notes
        → IsLinearizable genesis notes }
    // so if the network only delivers
    ensures delivered { (honest : D.is_honest) (genesis : GenesisValue) (nodes : List Node) → AreNew nodes
        → (moves : List (Move D.is_metered S.is_observable D.is_honest genesis))
        → MixRuns D.is_metered S.is_observable D.is_honest genesis nodes moves
        → MayAllArrive D.is_metered S.is_observable D.is_honest genesis OnlyDelivers [] moves
        → (notes : List Note) → TraceAll D.is_metered S.is_observable D.is_honest genesis honest moves notes
        → IsLinearizable genesis notes }
    // so if it carries between sockets that reveal what they send
    ensures carried { (honest : D.is_honest) → S.is_observable → (genesis : GenesisValue) (nodes : List Node)
        → AreNew nodes → (moves : List (Move D.is_metered S.is_observable D.is_honest genesis))
        → MixRuns D.is_metered S.is_observable D.is_honest genesis nodes moves
        → AllBrought D.is_metered S.is_observable D.is_honest genesis [] moves
        → (notes : List Note) → TraceAll D.is_metered S.is_observable D.is_honest genesis honest moves notes
        → IsLinearizable genesis notes }
    // whatever arrives, if the nodes have a key
    ensures sealed { (honest : D.is_honest) (genesis : GenesisValue) (nodes : List Node) → AreNew nodes
        → (moves : List (Move D.is_metered S.is_observable D.is_honest genesis))
        → MixRuns D.is_metered S.is_observable D.is_honest genesis nodes moves
        → AllMoveSealed D.is_metered S.is_observable D.is_honest genesis [] moves
        → (notes : List Note) → TraceAll D.is_metered S.is_observable D.is_honest genesis honest moves notes
        → IsLinearizable genesis notes }
{
    processes_continue_a_cluster::<D, S>();
    sealed_processes_continue_a_cluster::<D, S>();
    a_delivering_network_forges_nothing::<D, S>();
    what_sockets_carry_is_delivered::<D, S>();
    a_sealed_cluster_forges_nothing::<D, S>();
    mixed_runs_fit::<D, S>();
    a_cluster_is_linearizable::<D, S>();
}

/// Three new nodes that run the program on honest devices, and between whose sockets a network carries, meet every
/// premise of `mixed_runs_are_linearizable`. So its conclusion is about them.
pub fn three_nodes_meet_the_premises<D: LogDisk, S: DatagramSocket>()
    ensures new { (genesis : GenesisValue) (moves : List (Move D.is_metered S.is_observable D.is_honest genesis))
        (run : ThreeNodesRun D.is_metered S.is_observable D.is_honest genesis moves)
        → AreNew (three_nodes D.is_metered S.is_observable D.is_honest genesis run) }
    ensures mix { (genesis : GenesisValue) (moves : List (Move D.is_metered S.is_observable D.is_honest genesis))
        (run : ThreeNodesRun D.is_metered S.is_observable D.is_honest genesis moves)
        → MixRuns D.is_metered S.is_observable D.is_honest genesis
        (three_nodes D.is_metered S.is_observable D.is_honest genesis run) moves }
    ensures delivered { S.is_observable → (genesis : GenesisValue)
        (moves : List (Move D.is_metered S.is_observable D.is_honest genesis))
        → ThreeNodesRun D.is_metered S.is_observable D.is_honest genesis moves
        → MayAllArrive D.is_metered S.is_observable D.is_honest genesis OnlyDelivers [] moves }
    ensures linearizable { (honest : D.is_honest) → S.is_observable → (genesis : GenesisValue)
        (moves : List (Move D.is_metered S.is_observable D.is_honest genesis))
        → ThreeNodesRun D.is_metered S.is_observable D.is_honest genesis moves → (notes : List Note)
        → TraceAll D.is_metered S.is_observable D.is_honest genesis honest moves notes
        → IsLinearizable genesis notes }
{
    what_sockets_carry_is_delivered::<D, S>();
    mixed_runs_are_linearizable::<D, S>();
}

/// A node of a cluster that is down comes back: whatever it was doing when it stopped, and whatever the stop left of
/// its files, a restart is refused for nothing but memory or a call of the device that failed, or because a file of
/// format 1 has no generation left. What a crash may leave is what recovery takes (Chen et al., FSCQ, 2015).
pub fn a_restart_comes_back<D: LogDisk, S: DatagramSocket>()
    ensures { D.is_honest → ForEachDown ForgesNothing D.is_metered S.is_observable
        (λ genesis cluster index n disks. (number : ℕ) (left : Side → Disk)
        → IsRestartRefused table_meaning IsTableText D.is_honest disks (header_of cluster.genesis n) number left
        → IsExcused disks number) }
{}

/// No node of a cluster restarts with empty disks: a node that has sent a Prepare, a Promise, an Accept or an Accepted
/// never has two empty ones (an acceptor must remember, even if it fails and restarts: Lamport, Paxos Made Simple,
/// 2001, section 2.2).
pub fn no_node_forgets<D: LogDisk, S: DatagramSocket>()
    ensures { (genesis : GenesisValue) (cluster : Cluster)
        → IsReachable ForgesNothing D.is_metered S.is_observable genesis cluster
        → (node : Node) → Contains cluster.sim_nodes node
        → (m : NodeMessage) → MustBeRemembered m → HasSent cluster.genesis cluster.sent node.number m
        → HasEmptyDisks node.run_state → ⊥ }
{
    a_cluster_meets_the_guarantee::<D, S>();
}
