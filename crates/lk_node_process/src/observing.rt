//! Reports to an observer how a node starts, what each turn does, and why the node ends.

ghost use Rattle.std.specs.Prelude.{◌≡◌};

use lk_disk::LogDisk;
use lk_node::Node;
use lk_node_events::line::Observer;
use lk_node_events::observation::Observation;
use lk_program_fault::ProgramFault;
use lk_replica::Replica;
use lk_server::server::Server;
use lk_server::turn_events::TurnEvents;
use lk_server_replica::TableMachine;
use lk_state::Machine;
use lk_transport::socket::DatagramSocket;
use lk_types::{Members, NodeNo};

// A node follows a leader as long as fewer periods than this have passed since it heard of it.
const HEARD: u64 = 4;

// Returns the leader that a node follows: another node, of which it has heard lately, while it has no term of its own.
fn followed_leader<M: Machine>(node: &Node<M>, silence: u64) -> Option<NodeNo> {
    let known = node.presumed_leader()?;
    let is_heard = node.term().is_none() && silence < HEARD;
    (is_heard && known != node.header().node()).then_some(known)
}

// The members of the next position.
fn next_members<M: Machine>(node: &Node<M>) -> &Members {
    let roster = node.roster();
    match roster.window().get(0) {
        Some(members) => members,
        None => roster.newest(),
    }
}

// Makes the observation of a server's node, from its state and from what happened in its turn.
fn observation_of<M: TableMachine, D: LogDisk + Drop, S: DatagramSocket + Drop>(
    server: &Server<Replica<M, D>, S>,
    events: &TurnEvents,
) -> Observation {
    let node = server.replica().node();
    let own = node.header().node();
    let members = next_members(node).copy();
    let is_member = members.as_slice().iter().any(|member| member.node == own);
    Observation {
        leads: if node.leads() { node.term() } else { None },
        follows: followed_leader(node, server.silence()),
        promised: node.promised(),
        executed: node.executed(),
        snapshot: node.snapshot_position(),
        installed: events.installed,
        is_member,
        members,
        wanted: events.sends.wanted,
        unsent: events.sends.unsent,
        stranger: events.stranger,
        foreign: events.foreign,
        unopened: events
            .unopened
            .map(|unopened| (unopened.from, unopened.cluster)),
        barred: events.barred,
        are_hosts_usable: events.are_hosts_usable,
        heard: server.count_heard(),
        deaf: server.is_deaf(),
        is_queue_full: events.is_queue_full,
        names: node.machine().table().len(),
        state: server.state_digest(),
        told: events.told,
    }
}

// Returns whether a node has started as from an empty store: it has executed nothing, and promised no ballot.
fn is_empty<M: Machine>(node: &Node<M>) -> bool {
    node.executed().get() == 0 && node.promised().round() == 0
}

/// Reports to an observer that a node has started.
pub fn observe_start<M: TableMachine, D: LogDisk + Drop, S: DatagramSocket + Drop, O: Observer>(
    server: &Server<Replica<M, D>, S>,
    observer: &mut O,
) {
    if observer.is_on() {
        let seen = observation_of(server, &TurnEvents::NOTHING);
        observer.start(is_empty(server.replica().node()), seen);
    }
}

/// Reports to an observer that a server has done a turn, and clears the server's events. Does nothing if it is off.
pub fn observe_turn<M: TableMachine, D: LogDisk + Drop, S: DatagramSocket + Drop, O: Observer>(
    server: &mut Server<Replica<M, D>, S>,
    observer: &mut O,
)
    ensures { server.new ≡ server.old }
{
    if observer.is_on() {
        let events = server.drain_events();
        let seen = observation_of(server, &events);
        observer.observe(seen);
    }
}

// Returns the text of a fault for an event, without a line end.
fn words_for(fault: ProgramFault) -> &'static str {
    match fault {
        ProgramFault::OtherGenesis => "another genesis",
        _ => fault.text().trim_end(),
    }
}

/// Reports to an observer that a node ends with a fault.
pub fn observe_end<O: Observer>(fault: ProgramFault, observer: &mut O) {
    if observer.is_on() {
        observer.end(words_for(fault));
    }
}
