// Logs what changes in a server and its replica besides the notes, one fact a line: at level debug, and at level warn
// that it hears a node of another genesis. A line that cannot be written is dropped.

use lk_address_book::arrival::Arrival;
use lk_server_replica::replica_status::ReplicaStatus;
use lk_transport::post::SendSummary;
use lk_transport::unopened::UnopenedFrame;
use lk_types::{Executed, NodeNo, Port, RealBallot};
use log::{Log, debug, warn};
use std::io;

/// Logs how a node started: whether its store is new, and what it holds.
pub fn log_start<L: Log>(log: &L, is_new: bool, status: &ReplicaStatus) {
    if is_new {
        debug!(log; "came up with a new store");
    } else {
        debug!(log; "came up with the store that it had");
    }
    log_number(log, "generation", status.generation);
    log_number(log, "snapshot", status.snapshot.get());
    log_number(log, "executed", status.executed.get());
}

/// Logs the port at which a node listens.
pub fn log_port<L: Log>(log: &L, port: Port) {
    log_number(log, "port", u64::from(port.get()));
}

/// Logs at level warn that this node hears one of another genesis.
pub fn log_stranger<L: Log>(log: &L, node: NodeNo) {
    warn!(log; "hears node {} of another genesis", node.get());
}

/// Logs at level warn that a node has executed other commands than this one.
pub fn log_apart<L: Log>(log: &L, node: NodeNo, position: Executed) {
    let (node, position) = (node.get(), position.get());
    warn!(log; "has executed other commands than node {node} up to position {position}");
}

/// Logs at level warn that the hosts file names other hosts now.
pub fn log_moved<L: Log>(log: &L) {
    warn!(log; "has read other hosts in the hosts file");
}

/// Logs at level warn that the hosts file cannot be used.
pub fn log_unusable<L: Log>(log: &L) {
    warn!(log; "cannot read the hosts file, or it is invalid: the hosts stay as they were");
}

/// Logs at level warn that this node cannot open a node's frame.
pub fn log_unopened<L: Log>(log: &L, unopened: &UnopenedFrame) {
    match unopened.cluster {
        None => warn!(log; "cannot open frames of a node at {}", unopened.from),
        Some(cluster) => {
            warn!(log; "cannot open frames of a node of cluster {cluster} at {}", unopened.from);
        }
    }
}

// Logs a named number.
fn log_number<L: Log>(log: &L, name: &str, number: u64) {
    debug!(log; "{name} {number}");
}

// Logs that a term has begun.
fn log_begun<L: Log>(log: &L, term: RealBallot) {
    let ballot = term.get();
    debug!(log; "term {}.{} begun", ballot.round(), ballot.node());
}

// Logs that a term has ended, and at which input.
fn log_ended<L: Log>(log: &L, arrival: &Arrival, term: RealBallot) {
    let ballot = term.get();
    debug!(log; "term {}.{} ended by {arrival}", ballot.round(), ballot.node());
}

// Logs which term has ended and which has begun, if the term is another one.
fn log_term<L: Log>(
    log: &L,
    arrival: &Arrival,
    before: Option<RealBallot>,
    after: Option<RealBallot>,
) {
    if before == after {
        return;
    }
    if let Some(term) = before {
        log_ended(log, arrival, term);
    }
    if let Some(term) = after {
        log_begun(log, term);
    }
}

// Logs a change of the leader.
fn log_known<L: Log>(log: &L, before: Option<NodeNo>, after: Option<NodeNo>) {
    match after {
        _ if before == after => {}
        Some(node) => log_number(log, "known leader", u64::from(node.get())),
        None => debug!(log; "known leader none"),
    }
}

// Logs a compaction of the store, and an installed snapshot of another node.
fn log_store<L: Log>(log: &L, before: &ReplicaStatus, after: &ReplicaStatus) {
    // an installed snapshot adds one to the generation too, without a compaction
    let rebases = after.generation.saturating_sub(before.generation);
    let is_installed = after.snapshot.get() > before.executed.get();
    if rebases > u64::from(is_installed) {
        log_number(log, "compacted at", before.executed.get());
    }
    if is_installed {
        log_number(log, "installed at", after.snapshot.get());
    }
}

/// Logs what an input has changed.
pub fn log_changes<L: Log>(
    log: &L,
    arrival: &Arrival,
    before: &ReplicaStatus,
    after: &ReplicaStatus,
) {
    log_term(log, arrival, before.term, after.term);
    log_known(log, before.known, after.known);
    log_store(log, before, after);
}

/// Logs how many datagrams the replica produced at another node's Want, if that is what came.
pub fn log_catch_up<L: Log>(log: &L, arrival: &Arrival, said: usize) {
    if let Arrival::Want(node) = arrival {
        debug!(log; "datagrams for the Want of node {}: {said}", node.get());
    }
}

// Logs to which node a Want was sent, if one was.
fn log_wants<L: Log>(log: &L, sends: &SendSummary) {
    if let Some(node) = sends.wanted {
        log_number(log, "Want sent to node", u64::from(node.get()));
    }
}

// Logs how many sends failed, if any did, and why the last one did.
fn log_lost<L: Log>(log: &L, lost: u64, cause: Option<io::Error>) {
    match cause {
        _ if lost == 0 => {}
        Some(cause) => debug!(log; "lost sends: {lost}, {cause}"),
        None => log_number(log, "lost sends:", lost),
    }
}

/// Logs the Want among a turn's envelopes, and the sends that failed.
pub fn log_sends<L: Log>(log: &L, sends: &SendSummary, cause: Option<io::Error>) {
    log_wants(log, sends);
    log_lost(log, sends.lost, cause);
}
