//! Runs a node: starts its server from a device, and does its turns.

ghost use Rattle.std.specs.Prelude.{◌≡◌, ◌<◌, ◌≤◌, ◌^◌, ◌⊎◌, None, false, IfOk, IfErr, IsOkAnd, OnOk, OnErr};
ghost use Rattle.lk_disk.specs.declared.device.Side.{Side as SideValue};
ghost use Rattle.lk_node_interface.specs.Faults.{fault_number};
ghost use Rattle.lk_replica.specs.Revived.{MayGoOn};
ghost use Rattle.lk_server.specs.Servers.{IsConfiguredAs, HasSocket};
ghost use Rattle.lk_address_book.specs.Addresses.{IsNetworkAfter};
ghost use Rattle.lk_transport.specs.Chains.{Repeats};
ghost use Rattle.lk_program_fault.specs.Faults.{replica_fault};
ghost use Rattle.lk_node_setup.specs.HostWatches.{AreHosts, FindsHosts, host_path};
ghost use Rattle.lk_node_setup.specs.KeysOfNode.{AreSealsOf};
ghost use Rattle.lk_node_setup.specs.Reminders.{IsNoneDue};
ghost use Rattle.lk_node_setup.specs.SelfProbes.{socket_value};
ghost use Rattle.lk_node_process.specs.Revivals.{ComesUp, IsServerStarted, IsRestartRefused};
ghost use Rattle.lk_node_process.specs.Revivals.{StartsOn, RestsOn, surroundings};
ghost use Rattle.lk_node_process.specs.Turns.{ActsBeside, AreHostsKept, DoesTurn, DoesTurnWith, HasFollowedNoStranger};
ghost use Rattle.lk_node_process.specs.Turns.{HasFollowedStranger};
ghost use Rattle.lk_node_process.specs.Turns.{EndsTurn, BreaksOff, BreaksOffByStranger};
ghost use Rattle.lk_node_process.specs.Turns.{RunsTurns, EndsBefore, TellsFailure};
ghost use Rattle.lk_node_process.specs.Warnings.{DoesTurnAndWarns, IsStatusOf, Warns, WarnsUntil, reminded};
ghost use Rattle.lk_probe.specs.declared.status.Status.{Status};

use crate::another_genesis::write_other_genesis;
use crate::node_end::{NodeEnd, NodeServer, RefusedStart, status_after};
use crate::observing::{observe_start, observe_turn};
use lk_address_book::hosts::HostNews;
use lk_disk::LogDisk;
use lk_node_events::line::Observer;
use lk_node_files::causes::{FailureCause, write_failed_calls};
use lk_node_files::refusals::write_refusal;
use lk_node_interface::ReplicaFault;
use lk_node_setup::host_watch::HostWatch;
use lk_node_setup::port_reminder::PortReminder;
use lk_node_setup::resources::{NodePlan, Resources};
use lk_node_setup::text_files::TextFiles;
use lk_pacing::tick_timer::TickTimer;
use lk_program_fault::ProgramFault;
use lk_recovery::ReviveFault;
use lk_replica::Replica;
use lk_server::group_fault::GroupFault;
use lk_server::server::{Server, node_turn};
use lk_server_log::{log_notes, log_port, log_start};
use lk_server_replica::{ServerReplica, TableMachine};
use lk_store_format::Header;
use lk_transport::receive_buffer::ReceiveBuffer;
use lk_transport::socket::DatagramSocket;
use log::Log;
use std::alloc::Global;
use std::io::Write;
use std::time::Clock;

// How many turns a node takes: a loop must have a bound, and this one lasts for years.
const TURNS: u64 = 1 << 48;

// Restarts the replica from a device. Logs how it started and what it executed. An error returns the device too.
fn restart_replica<M: TableMachine, D: LogDisk + Drop, L: Log>(
    alloc: Global,
    header: &Header,
    device: D,
    log: &L,
) -> Result<Replica<M, D>, ReviveFault<D>>
    // It can take calls as the node of this header: nothing of it has failed.
    ensures ready { IfOk result (λ r. MayGoOn header.now r) }
    // It restarts from what the device has.
    ensures comes_up { D.is_honest → IfOk result (ComesUp M.meaning header.now (D.disk device)) }
    // It fails with a fault of 7 to 11, each for its own cause. The disks then fit each history that they fitted
    // before.
    ensures refused { IfErr result
        (λ e. IsRestartRefused M.meaning M.IsText D.is_honest (D.disk device) header.now
        (fault_number e.fault) (D.disk e.device)) }
{
    let revived = Replica::<M, D>::revive(alloc, device, header)?;
    log_start(log, revived.is_new, &revived.replica.status());
    log_notes(log, &revived.notes);
    Ok(revived.replica)
}

// Returns the refusal of a replica's restart with the socket beside it.
fn with_socket<D: LogDisk + Drop, S: DatagramSocket + Drop>(
    refused: ReviveFault<D>,
    socket: S,
) -> RefusedStart<ReplicaFault, D, S>
    ensures { result ≡ record { fault = refused.fault; device = refused.device; socket = socket } }
{
    let ReviveFault { fault, device } = refused;
    RefusedStart {
        fault,
        device,
        socket,
    }
}

/// Starts the server of a node from a device. Logs how it started and what it executed. An error returns the device
/// and the socket too.
pub fn revive<M: TableMachine, D: LogDisk + Drop, S: DatagramSocket + Drop, L: Log>(
    alloc: Global,
    header: &Header,
    resources: Resources<D, S>,
    log: &L,
) -> Result<NodeServer<M, D, S>, RefusedStart<ReplicaFault, D, S>>
    // It runs as the node of this header, in its cluster, with a replica restarted from what the device has, and has
    // received nothing.
    ensures started { IfOk result (IsServerStarted M.meaning D.is_honest (D.disk resources.device) header.now) }
    ensures configured { IfOk result
        (IsConfiguredAs header.now.cluster header.now.node resources.pace resources.network) }
    ensures socket { IfOk result
        (HasSocket (S.sent resources.socket) (S.failures resources.socket) (S.incoming resources.socket)) }
    // It fails with a fault of 7 to 11, each for its own cause. The disks then fit each history that they fitted
    // before.
    ensures refused { IfErr result
        (λ e. IsRestartRefused M.meaning M.IsText D.is_honest (D.disk resources.device) header.now
        (fault_number e.fault) (D.disk e.device)) }
    // Then nothing was sent on the socket, and nothing received.
    ensures untouched { IfErr result (λ e. e.socket ≡ resources.socket) }
{
    let Resources {
        device,
        socket,
        network,
        pace,
        unreached: _,
    } = resources;
    let replica = match restart_replica::<M, D, L>(alloc, header, device, log) {
        Ok(replica) => replica,
        Err(refused) => return Err(with_socket(refused, socket)),
    };
    let cluster = header.genesis().cluster;
    Ok(Server::new(
        alloc,
        cluster,
        header.node(),
        pace,
        network,
        replica,
        socket,
    ))
}

// Writes what was found in a store that does not open and what to do, and returns what that means to the process.
fn write_why<D: LogDisk + FailureCause + Drop, S: DatagramSocket + Drop, E: Write>(
    alloc: Global,
    refused: RefusedStart<ReplicaFault, D, S>,
    plan: &NodePlan<'_>,
    err: &mut E,
) -> RefusedStart<ProgramFault, D, S>
    requires { fault_number refused.fault < 15 }
    ensures fault { result.fault ≡ replica_fault refused.fault }
    ensures unchanged { D.is_honest → (s : SideValue) → D.disk result.device s ≡ D.disk refused.device s }
    ensures untouched { result.socket ≡ refused.socket }
{
    let RefusedStart {
        fault,
        device,
        socket,
    } = refused;
    let mut device = device;
    let told = ProgramFault::of_replica(&fault);
    let fault = write_refusal(alloc, told, &mut device, plan.folder, err);
    RefusedStart {
        fault,
        device,
        socket,
    }
}

// The same for a plan. If the store does not open, writes what was found and what to do.
fn revive_plan<
    M: TableMachine,
    D: LogDisk + FailureCause + Drop,
    S: DatagramSocket + Drop,
    L: Log,
    E: Write,
>(
    alloc: Global,
    plan: &NodePlan<'_>,
    resources: Resources<D, S>,
    log: &L,
    err: &mut E,
) -> Result<NodeServer<M, D, S>, RefusedStart<ProgramFault, D, S>>
    requires { AreSealsOf plan.now.header resources.network.seals }
    ensures started { IfOk result (StartsOn M.meaning D.is_honest (D.disk resources.device) plan.now.header
        (surroundings resources.pace resources.network
        (socket_value S.sent S.failures S.incoming resources.socket))) }
    ensures refused { IfErr result (λ e. RestsOn M.meaning M.IsText D.is_honest (D.disk resources.device)
        plan.now.header (surroundings resources.pace resources.network
        (socket_value S.sent S.failures S.incoming resources.socket)) e.fault (D.disk e.device)
        (socket_value S.sent S.failures S.incoming e.socket)) }
{
    match revive::<M, D, S, L>(alloc, &plan.header, resources, log) {
        Ok(server) => Ok(server),
        Err(refused) => Err(write_why(alloc, refused, plan, err)),
    }
}

// Looks at the file of the hosts, if there is one and that is due, and returns what is new.
fn look_at_hosts<M: TableMachine, D: LogDisk + Drop, S: DatagramSocket + Drop, T: TextFiles>(
    server: &NodeServer<M, D, S>,
    hosts: &mut HostWatch,
    plan: &NodePlan<'_>,
    files: &T,
) -> HostNews
    ensures { FindsHosts (T.is_text files.now) (host_path plan.now.options) result }
{
    let now = server.count_periods();
    hosts.look(files, server.alloc(), plan.options.hosts, now)
}

// Ends a turn: handles probes and watches, notes who has joined, takes over what is new of the hosts, and reports the
// turn to an observer. If the node has followed one of another genesis, writes so.
fn end_turn<
    M: TableMachine,
    D: LogDisk + Drop,
    S: DatagramSocket + Drop,
    L: Log,
    O: Observer,
    E: Write,
>(
    server: &mut NodeServer<M, D, S>,
    buffer: &mut ReceiveBuffer,
    news: HostNews,
    log: &L,
    observer: &mut O,
    err: &mut E,
) -> Result<(), ProgramFault>
    ensures acts { ActsBeside S.is_observable news buffer.old.asked buffer.old.reported buffer.old.watched
        server.old server.new }
    ensures network { IsNetworkAfter news server.old.addresses server.new.addresses }
    ensures goes_on { OnOk result (HasFollowedNoStranger server.new) }
    ensures leaves { OnErr result (HasFollowedStranger server.new) }
    ensures spent { (buffer.new.asked ≡ None) × (buffer.new.reported ≡ None) × (buffer.new.watched ≡ None) }
    ensures failure { TellsFailure server.new }
    // While the node goes on nothing is written.
    ensures quiet { OnOk result (E.contents err.new ≡ E.contents err.old) }
{
    let leader = server.handle_probes(buffer, log);
    server.handle_watches(buffer);
    server.note_joined();
    server.take_hosts(news, log);
    // The contract of this call shows that the server knows whether its replica has failed.
    let _ = server.replica();
    observe_turn(server, observer);
    match leader {
        None => Ok(()),
        Some(leader) => Err(write_other_genesis(&server.origin(), &leader, err)),
    }
}

// Returns what a fault that ended a turn means to the process. If the device failed, writes why.
fn write_failed_turn<
    M: TableMachine,
    D: LogDisk + FailureCause + Drop,
    S: DatagramSocket + Drop,
    E: Write,
>(server: &NodeServer<M, D, S>, fault: GroupFault, folder: &str, err: &mut E) -> ProgramFault
    ensures failure { TellsFailure server.now }
{
    let told = ProgramFault::from(fault);
    write_failed_calls(told, server.replica().device(), folder, err)
}

// Does one turn, and reports it to an observer. If the device failed, writes why. After the turn it looks at the file
// of the hosts, if that is due.
fn do_turn<
    M: TableMachine,
    D: LogDisk + FailureCause + Drop,
    S: DatagramSocket + Drop,
    C: Clock,
    T: TextFiles,
    L: Log,
    O: Observer,
    E: Write,
>(
    server: &mut NodeServer<M, D, S>,
    buffer: &mut ReceiveBuffer,
    tick_timer: &mut TickTimer<C>,
    hosts: &mut HostWatch,
    plan: &NodePlan<'_>,
    files: &T,
    log: &L,
    observer: &mut O,
    err: &mut E,
) -> Result<(), ProgramFault>
    // Its replica was given as one group the envelopes of the node to itself, or else what was taken of the frames that
    // came, and a tick if one was due. Of the envelopes that it produced, those to the node itself are kept, after the
    // ones that wait. Then probes and watches are handled: the probe, the report and the watch that were kept before,
    // or else the first that came. No node of another genesis has led the node.
    ensures turn { OnOk result
        (DoesTurnWith ⟦<Replica<M, D> as ServerReplica>⟧.Says S.is_observable buffer.old.asked buffer.old.reported
        buffer.old.watched HasFollowedNoStranger server.old server.new) }
    ensures spent { OnOk result
        ((buffer.new.asked ≡ None) × (buffer.new.reported ≡ None) × (buffer.new.watched ≡ None)) }
    // Nodes live where they did, or where the file of the hosts says.
    ensures hosts { AreHostsKept (T.is_text files.now) (host_path plan.now.options) server.old server.new }
    // While the node goes on nothing is written.
    ensures quiet { OnOk result (E.contents err.new ≡ E.contents err.old) }
    // The turn ended the replica, and after that nothing is sent and no probe is answered; or it is such a turn, and a
    // node of another genesis has led the node.
    ensures ends { OnErr result
        (EndsTurn ⟦<Replica<M, D> as ServerReplica>⟧.Says S.is_observable server.old server.new
        ⊎ DoesTurnWith ⟦<Replica<M, D> as ServerReplica>⟧.Says S.is_observable buffer.old.asked buffer.old.reported
        buffer.old.watched HasFollowedStranger server.old server.new) }
{
    match node_turn(server, buffer, tick_timer, log) {
        Ok(()) => {
            let news = look_at_hosts(server, hosts, plan, files);
            end_turn(server, buffer, news, log, observer, err)
        }
        Err(fault) => Err(write_failed_turn(server, fault, plan.folder, err)),
    }
}

// Whether a warning may be due: no probe came back from the port that the genesis names, and a minute has passed since
// the last warning or the start. It needs no status of the server.
fn may_warn<M: TableMachine, D: LogDisk + Drop, S: DatagramSocket + Drop>(
    server: &NodeServer<M, D, S>,
    reminder: &PortReminder,
) -> bool
    ensures { result ≡ false → (status : Status) → IsStatusOf server.now status → IsNoneDue reminder.now status }
{
    if reminder.unreached.is_none() {
        return false;
    }
    reminder.due <= server.count_periods()
}

// Warns after a turn if a warning is due, by the server's own status. A warning that cannot be written is lost.
fn warn_if_due<M: TableMachine, D: LogDisk + Drop, S: DatagramSocket + Drop, E: Write>(
    server: &NodeServer<M, D, S>,
    reminder: &mut PortReminder,
    plan: &NodePlan<'_>,
    err: &mut E,
)
    ensures { Warns plan.now.header.node plan.now.port server.now reminder.old reminder.new
        (E.contents err.old) (E.contents err.new) }
{
    if !may_warn(server, reminder) {
        return;
    }
    let status = server.status();
    let _ = reminder.remind(&status, plan, err);
}

// Does 2^48 turns, warns after each if that is due, and reports them to an observer. If the device failed, writes why.
fn do_turns<
    M: TableMachine,
    D: LogDisk + FailureCause + Drop,
    S: DatagramSocket + Drop,
    P: Clock + TextFiles,
    L: Log,
    O: Observer,
    E: Write,
>(
    platform: &P,
    server: &mut NodeServer<M, D, S>,
    plan: &NodePlan<'_>,
    reminder: PortReminder,
    log: &L,
    observer: &mut O,
    err: &mut E,
) -> Result<(), ProgramFault>
    // At Ok it has done exactly this many turns, one after another.
    ensures ok { OnOk result
        (Repeats (DoesTurn ⟦<Replica<M, D> as ServerReplica>⟧.Says S.is_observable) (2 ^ 48) server.old server.new) }
    // At an error it has done fewer, and then one that ended the replica, or after which a node of another genesis had
    // led the node.
    ensures err { OnErr result
        (BreaksOff ⟦<Replica<M, D> as ServerReplica>⟧.Says S.is_observable (2 ^ 48) server.old server.new
        ⊎ BreaksOffByStranger ⟦<Replica<M, D> as ServerReplica>⟧.Says S.is_observable (2 ^ 48) server.old server.new) }
    // After each of its turns, but the last at an error, it warns by the server's own status if that is due, and
    // nothing else is written.
    ensures warns { OnOk result
        ((last : PortReminder) × Repeats
        (DoesTurnAndWarns ⟦<Replica<M, D> as ServerReplica>⟧.Says S.is_observable plan.now.header.node plan.now.port)
        (2 ^ 48) (reminded server.old reminder (E.contents err.old)) (reminded server.new last (E.contents err.new))) }
    ensures warned { OnErr result
        (WarnsUntil ⟦<Replica<M, D> as ServerReplica>⟧.Says S.is_observable plan.now.header.node plan.now.port (2 ^ 48)
        (reminded server.old reminder (E.contents err.old)) server.new) }
    // Nodes live where they did, or where the file of the hosts says.
    ensures hosts { AreHostsKept (P.is_text platform.now) (host_path plan.now.options) server.old server.new }
{
    let mut buffer = ReceiveBuffer::new();
    let mut tick_timer = TickTimer::new(platform);
    let mut hosts = HostWatch::STARTED;
    let mut reminder = reminder;
    'turns: for _ in 0..TURNS {
        do_turn::<M, D, S, &P, P, L, O, E>(
            server,
            &mut buffer,
            &mut tick_timer,
            &mut hosts,
            plan,
            platform,
            log,
            observer,
            err,
        )?;
        warn_if_due(server, &mut reminder, plan, err);
    }
    Ok(())
}

// Logs the port of a server, reports its start to an observer, and does 2^48 turns.
fn run_turns<
    M: TableMachine,
    D: LogDisk + FailureCause + Drop,
    S: DatagramSocket + Drop,
    P: Clock + TextFiles,
    L: Log,
    O: Observer,
    E: Write,
>(
    platform: &P,
    server: &mut NodeServer<M, D, S>,
    plan: &NodePlan<'_>,
    reminder: PortReminder,
    log: &L,
    observer: &mut O,
    err: &mut E,
) -> Result<(), ProgramFault>
    ensures ok { OnOk result
        (Repeats (DoesTurn ⟦<Replica<M, D> as ServerReplica>⟧.Says S.is_observable) (2 ^ 48) server.old server.new) }
    ensures err { OnErr result
        (BreaksOff ⟦<Replica<M, D> as ServerReplica>⟧.Says S.is_observable (2 ^ 48) server.old server.new
        ⊎ BreaksOffByStranger ⟦<Replica<M, D> as ServerReplica>⟧.Says S.is_observable (2 ^ 48) server.old server.new) }
    ensures hosts { AreHostsKept (P.is_text platform.now) (host_path plan.now.options) server.old server.new }
{
    log_port(log, plan.port);
    observe_start(server, observer);
    do_turns(platform, server, plan, reminder, log, observer, err)
}

/// Runs a node on these resources, and reports what happens to it to an observer. Returns its status, which is 0 after
/// 2^48 turns, and 1 after a fault, which is written to standard error; and what is left, as it is then: the server, or
/// the device and the socket of a node that did not start.
pub fn run_node<
    M: TableMachine,
    D: LogDisk + FailureCause + Drop,
    S: DatagramSocket + Drop,
    P: Clock + TextFiles,
    L: Log,
    O: Observer,
    E: Write,
>(
    platform: &P,
    alloc: Global,
    plan: &NodePlan<'_>,
    resources: Resources<D, S>,
    log: &L,
    observer: &mut O,
    err: &mut E,
) -> NodeEnd<M, D, S>
    requires { AreSealsOf plan.now.header resources.network.seals }
    ensures status { result.status ≤ 1 }
    // For the server that is left nodes live where these resources say, or where the file of the hosts says, which is
    // read again while it runs.
    ensures hosts { IfOk result.left (λ s. AreHosts (P.is_text platform.now) (host_path plan.now.options)
        resources.network.hosts s.addresses.hosts) }
    // At status 0 a server is left. It has started as the one of the plan's node, on these resources, with a replica
    // restarted from what the device had, and since then it has done this many turns and nothing else.
    ensures ran_all_turns { result.status ≡ 0 → IsOkAnd result.left
        (RunsTurns (StartsOn M.meaning D.is_honest (D.disk resources.device) plan.now.header
        (surroundings resources.pace resources.network
        (socket_value S.sent S.failures S.incoming resources.socket)))
        ⟦<Replica<M, D> as ServerReplica>⟧.Says S.is_observable (2 ^ 48)) }
    // If one is left at status 1, it has done fewer, and then one that ended its replica, or after which a node of
    // another genesis had led it, and nothing else.
    ensures broken { result.status ≡ 1 → IfOk result.left
        (EndsBefore (StartsOn M.meaning D.is_honest (D.disk resources.device) plan.now.header
        (surroundings resources.pace resources.network
        (socket_value S.sent S.failures S.incoming resources.socket)))
        ⟦<Replica<M, D> as ServerReplica>⟧.Says S.is_observable (2 ^ 48)) }
    // If none is left, the restart from what the device had failed. Its disks are as that has left them, and the socket
    // is as it was given.
    ensures refused { IfErr result.left (λ e. RestsOn M.meaning M.IsText D.is_honest (D.disk resources.device)
        plan.now.header (surroundings resources.pace resources.network
        (socket_value S.sent S.failures S.incoming resources.socket)) e.fault (D.disk e.device)
        (socket_value S.sent S.failures S.incoming e.socket)) }
{
    let reminder = PortReminder::of(resources.unreached);
    match revive_plan::<M, D, S, L, E>(alloc, plan, resources, log, err) {
        Ok(server) => {
            let mut server = server;
            let ran = run_turns(platform, &mut server, plan, reminder, log, observer, err);
            NodeEnd {
                status: status_after(ran, observer, err),
                left: Ok(server),
            }
        }
        Err(refused) => NodeEnd {
            status: status_after(Err(refused.fault), observer, err),
            left: Err(refused),
        },
    }
}
