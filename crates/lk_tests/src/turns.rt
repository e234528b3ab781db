//! What a turn logs, and a demonstration that nobody answers.
ghost use Rattle.std.specs.Prelude.{◌≡◌, [], ⊤};
ghost use Rattle.lk_server_replica.specs.Tables.{greatest_of, members_of, table_of};

use crate::clocks::Stopped;
use crate::replicas::{Locks, begun};
use lk_address_book::network::Network;
use lk_locks::LockTable;
use lk_memory_socket::MemorySocket;
use lk_node_interface::{Input, Note, Outbox, Post, ReplicaFault};
use lk_node_process::demo::{Sockets, run_demo};
use lk_pacing::pace::Pace;
use lk_pacing::tick_timer::TickTimer;
use lk_probe::StateDigest;
use lk_replica::Group;
use lk_server::server::{Server, node_turn};
use lk_server_replica::replica_status::ReplicaStatus;
use lk_server_replica::{ProbedState, ServerReplica};
use lk_transport::receive_buffer::ReceiveBuffer;
use lk_types::{Ballot, Command, Executed, Members, NodeNo, Position, RealBallot};
use log::sink::Memory;
use std::alloc::Global;
use std::test::Fail;

// How a group of a replica ends.
#[derive(Clone, Copy)]
enum End {
    Notes,
    Broken,
}

// Stands for a replica: it notes that it ran position 3.
#[derive(Drop)]
struct NotingReplica {
    alloc: Global,
    end: End,
    failed: bool,
    status: ReplicaStatus,
    // what is seen once it has taken something
    after: ReplicaStatus,
    // the replica whose state a probe is shown
    probed: Locks,
}

// A step that notes position 3.
fn ran(alloc: Global) -> Option<Outbox> {
    let (Some(node), Some(position)) = (NodeNo::of(1), Position::of(3)) else {
        return None;
    };
    let mut outbox = Outbox::new(alloc);
    match outbox.note(Note::Ran(node, position, Command::Noop)) {
        Ok(()) => Some(outbox),
        Err(_) => None,
    }
}

impl ServerReplica for NotingReplica {
    ghost failed = { λ t. t.failed };

    ghost Says = { λ _ _ envelopes _. envelopes ≡ [] };

    ghost Gathers = { λ _ _ _ _. ⊤ };

    ghost Takes = { λ _ _ _ _ _. ⊤ };

    ghost HasStatus = { λ t s. s ≡ t.status };

    ghost Shows = { λ _ _. ⊤ };

    ghost IsRaised = { λ _ _. ⊤ };

    ghost table = { λ t. table_of t.probed };

    ghost KeepsDigest = { λ _ _ _. ⊤ };

    ghost greatest = { λ t. greatest_of t.probed };

    ghost members = { λ t. members_of t.probed };

    fn new_group(&self, alloc: Global) -> Group {
        Group::new(alloc)
    }

    fn add_step(&mut self, _input: Input, group: &mut Group) -> Result<(), ReplicaFault> {
        self.failed = true;
        self.status = self.after;
        let Some(outbox) = ran(self.alloc) else {
            return Err(ReplicaFault::NoMemory);
        };
        match group.add(false, outbox) {
            Ok(()) => Ok(()),
            Err(_) => Err(ReplicaFault::NoMemory),
        }
    }

    fn sync_and_send<P: Post>(
        &mut self,
        _group: &Group,
        _post: &mut P,
    ) -> Result<bool, ReplicaFault> {
        self.failed = self.end == End::Broken;
        match self.end {
            End::Notes => Ok(true),
            End::Broken => Err(ReplicaFault::Device),
        }
    }

    fn status(&self) -> ReplicaStatus {
        self.status
    }

    fn show(&self) -> ProbedState {
        ProbedState::of(&self.probed)
    }

    fn is_raised(&self, _alloc: Global) -> Option<bool> {
        None
    }

    fn table(&self) -> &LockTable {
        self.probed.table()
    }

    fn next_digest(&self, kept: StateDigest) -> StateDigest {
        kept
    }

    fn greatest(&self) -> NodeNo {
        self.probed.greatest()
    }

    fn members(&self) -> &Members {
        self.probed.members()
    }
}

// The generation, the snapshot's position, how many positions are executed, and where there is one the round of a
// term of node 1 and the known leader, else 0.
type Seen = (u64, u64, u64, u64, u32);

const NEW: Seen = (1, 0, 0, 0, 0);

// The status of a replica that is seen so.
fn status_of(seen: Seen) -> Result<ReplicaStatus, Fail> {
    let (generation, snapshot, executed, round, known) = seen;
    Ok(ReplicaStatus {
        generation,
        snapshot: Executed::of(snapshot).ok_or("snapshot")?,
        executed: Executed::of(executed).ok_or("executed")?,
        gathered: 0,
        term: match Ballot::of(round, 1) {
            Some(ballot) => RealBallot::of(ballot),
            None => None,
        },
        known: NodeNo::of(known),
        silence: 0,
    })
}

// A server whose replica is seen so before and after what it takes.
fn server(
    alloc: Global,
    end: End,
    before: Seen,
    after: Seen,
) -> Result<Server<NotingReplica, MemorySocket>, Fail> {
    let replica = NotingReplica {
        alloc,
        end,
        failed: false,
        status: status_of(before)?,
        after: status_of(after)?,
        probed: begun(alloc, 1, 1, 3)?,
    };
    let node = NodeNo::of(1).ok_or("node")?;
    let socket = MemorySocket::new(alloc, 7001);
    let network = Network::local(5, node);
    Ok(Server::new(alloc, 5, node, Pace::Datagrams, network, replica, socket))
}

// What a turn logs whose replica ends so, and is seen so before and after it.
fn logged(alloc: Global, end: End, before: Seen, after: Seen) -> Result<Vec<u8>, Fail> {
    let memory = Memory::new(alloc);
    let mut server = server(alloc, end, before, after)?;
    let mut tick_timer = TickTimer::new(Stopped);
    let _ = node_turn(
        &mut server,
        &mut ReceiveBuffer::new(),
        &mut tick_timer,
        &memory,
    );
    let mut text = Vec::new(alloc);
    for line in memory.into_lines().as_slice() {
        text.extend_from_slice(line.as_bytes())?;
        text.push(b'\n')?;
    }
    Ok(text)
}

// What is seen before a tick and after it, and the lines of level debug.
type Change<'a> = (Seen, Seen, &'a [u8]);

const CHANGES: [Change; 6] = [
    (NEW, NEW, b""),
    (
        NEW,
        (1, 0, 0, 3, 0),
        b"[DEBUG lk_server_log::changes] term 3.1 begun\n",
    ),
    (
        (1, 0, 0, 3, 1),
        (1, 0, 0, 0, 2),
        b"[DEBUG lk_server_log::changes] term 3.1 ended by a tick\n[DEBUG lk_server_log::changes] known leader 2\n",
    ),
    (
        (1, 0, 256, 0, 2),
        (2, 256, 256, 0, 0),
        b"[DEBUG lk_server_log::changes] known leader none\n[DEBUG lk_server_log::changes] compacted at 256\n",
    ),
    (
        (1, 0, 5, 0, 0),
        (2, 300, 300, 0, 0),
        b"[DEBUG lk_server_log::changes] installed at 300\n",
    ),
    (
        (1, 0, 256, 0, 0),
        (3, 600, 600, 0, 0),
        b"[DEBUG lk_server_log::changes] compacted at 256\n[DEBUG lk_server_log::changes] installed at 600\n",
    ),
];

// The first change that is logged otherwise.
fn first_other(alloc: Global, changes: &[Change]) -> Result<Option<usize>, Fail> {
    for (at, change) in changes.iter().enumerate() {
        let (before, after, text) = *change;
        if logged(alloc, End::Broken, before, after)?.as_slice() != text {
            return Ok(Some(at));
        }
    }
    Ok(None)
}

#[test]
fn what_changes_by_a_turn_is_logged(rt: HostRuntime) -> Result<(), Fail> {
    assert_eq!(rt; first_other(rt.alloc(), &CHANGES)?, None);
    Ok(())
}

#[test]
fn notes_are_logged_unless_the_replica_ends(rt: HostRuntime) -> Result<(), Fail> {
    for (end, text) in [
        (
            End::Notes,
            b"[INFO  lk_server_log::notes] ran 3\n".as_slice(),
        ),
        (End::Broken, b"".as_slice()),
    ] {
        assert_eq!(rt; logged(rt.alloc(), end, NEW, NEW)?.as_slice(), text);
    }
    Ok(())
}

// Four sockets whose datagrams nobody carries.
fn apart(alloc: Global) -> Result<Sockets<MemorySocket>, Fail> {
    let mut nodes = Vec::new(alloc);
    for port in 7001..7004 {
        nodes.push(MemorySocket::new(alloc, port))?;
    }
    Ok(Sockets {
        nodes,
        client: MemorySocket::new(alloc, 8001),
    })
}

#[test]
fn a_demonstration_that_nobody_answers_ends(rt: HostRuntime) -> Result<(), Fail> {
    let mut out = Vec::new(rt.alloc());
    let is_answered = run_demo::<LockTable, _, _>(rt.alloc(), apart(rt.alloc())?, &mut out)?;
    assert_eq!(rt;
        (is_answered, out.as_slice()),
        (false, b"no answer\n".as_slice())
    );
    Ok(())
}
