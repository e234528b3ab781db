//! A demonstration in one process: three nodes, and two clients that take turns.

ghost use Rattle.std.specs.Prelude.{◌≤◌};

use crate::running::revive;
use lk_address_book::network::Network;
use lk_client::destination::Destination;
use lk_client::question::{Heard, Question, datagram, next_reply, write_reply};
use lk_client::reply::Reply;
use lk_memory_disk::MemoryDisk;
use lk_node_setup::resources::Resources;
use lk_pacing::pace::Pace;
use lk_program_fault::ProgramFault;
use lk_replica::Replica;
use lk_server::server::Server;
use lk_server_replica::TableMachine;
use lk_store_format::Header;
use lk_transport::receive_buffer::ReceiveBuffer;
use lk_transport::socket::{DatagramSocket, LocalSocket, local};
use lk_types::{ClientNo, Genesis, Member, NodeNo, Port, Request, RequestNumber};
use lk_word_parsers::operation::read_operation;
use log::sink::Discard;
use std::alloc::Global;
use std::io::Write;
use std::net::Net;

// The number of the demonstration's cluster.
const CLUSTER: u64 = 1;
// How many positions ahead its members are known.
const ALPHA: u8 = 2;
// How many nodes it has.
const NODES: usize = 3;
// The clients' requests in order: the client, the number of the request, and its words as `locks ask` takes them.
const REQUESTS: [(u16, u64, &[u8]); 4] = [
    (1, 1, b"acquire db"),
    (2, 1, b"acquire db"),
    (1, 2, b"release db 1"),
    (2, 2, b"acquire db"),
];
// How many idle turns pass before a request is resent.
const PATIENCE: u32 = 200;
// How many idle turns pass before the client gives up.
const IDLE_TURNS: u32 = 10_000;
// A bound for the turns between two idle ones, which a loop must have.
const TURNS: u64 = 1 << 48;

/// The sockets of the nodes, and that of their clients.
#[derive(Drop)]
pub struct Sockets<S: DatagramSocket + Drop> {
    pub nodes: Vec<S>,
    pub client: S,
}

// A node with a disk in memory.
type DemoServer<M, S> = Server<Replica<M, MemoryDisk>, S>;

// The nodes, and the socket of their clients.
#[derive(Drop)]
struct Cluster<M: TableMachine, S: DatagramSocket + Drop> {
    nodes: Vec<DemoServer<M, S>>,
    client: S,
    // the receive buffer that all of them share
    buffer: ReceiveBuffer,
    // where requests go first
    port: Port,
}

// Makes the member that runs on a socket; `None` if the port of the socket is not known, or a number is out of range.
fn member_at<S: DatagramSocket>(node: u32, socket: &S) -> Option<Member> {
    let port = socket.port()?;
    match (NodeNo::of(node), Port::of(port)) {
        (Some(node), Some(port)) => Some(Member { node, port }),
        _ => None,
    }
}

// Makes the genesis of a cluster whose members, numbered from 1, run on these sockets.
fn genesis_at<S: DatagramSocket>(alloc: Global, sockets: &[S]) -> Result<Genesis, ProgramFault> {
    let mut members = Vec::new(alloc);
    let mut node = 0u32;
    for socket in sockets {
        node = node.saturating_add(1);
        let Some(member) = member_at(node, socket) else {
            return Err(ProgramFault::CannotOpen);
        };
        members.push(member)?;
    }
    Genesis::of(CLUSTER, ALPHA, &members).map_err(|_| ProgramFault::CannotOpen)
}

// Starts the server of a member, on an empty disk in memory.
fn start<M: TableMachine, S: DatagramSocket + Drop>(
    alloc: Global,
    node: NodeNo,
    genesis: &Genesis,
    socket: S,
) -> Result<DemoServer<M, S>, ProgramFault> {
    let header = Header::new(node, genesis.copy());
    let resources = Resources {
        device: MemoryDisk::new(alloc),
        socket,
        network: Network::local(genesis.cluster, node),
        pace: Pace::Datagrams,
        unreached: None,
    };
    match revive::<M, _, _, _>(alloc, &header, resources, &Discard) {
        Ok(server) => Ok(server),
        Err(refused) => Err(ProgramFault::of_replica(&refused.fault)),
    }
}

// Starts the servers of the members, in order, each on its socket.
fn start_all<M: TableMachine, S: DatagramSocket + Drop>(
    alloc: Global,
    genesis: &Genesis,
    sockets: Vec<S>,
) -> Result<Vec<DemoServer<M, S>>, ProgramFault> {
    let mut nodes = Vec::new(alloc);
    for (member, socket) in genesis.members.as_slice().iter().zip(sockets) {
        nodes.push(start(alloc, member.node, genesis, socket)?)?;
    }
    Ok(nodes)
}

// Makes the request of a row of the story, for the node at a port; `None` if its words or numbers are invalid.
fn question_of(row: (u16, u64, &[u8]), port: Port) -> Option<Question> {
    let (client, number, words) = row;
    let op = read_operation(words)?;
    match (ClientNo::of(client), RequestNumber::of(number)) {
        (Some(client), Some(number)) => Some(Question {
            cluster: CLUSTER,
            port,
            request: Request { client, number, op },
            destination: Destination::local(CLUSTER),
        }),
        _ => None,
    }
}

impl<M: TableMachine, S: DatagramSocket + Drop> Cluster<M, S> {
    // Starts a new cluster on these sockets.
    fn start(alloc: Global, sockets: Sockets<S>) -> Result<Cluster<M, S>, ProgramFault> {
        let Sockets { nodes, client } = sockets;
        let genesis = genesis_at(alloc, &nodes)?;
        let port = genesis.members.as_slice()[0].port;
        let nodes = start_all(alloc, &genesis, nodes)?;
        Ok(Cluster {
            nodes,
            client,
            buffer: ReceiveBuffer::new(),
            port,
        })
    }

    // Each node takes what is waiting for it as one group. Returns whether any replica was given something.
    fn step_nodes(&mut self) -> Result<bool, ProgramFault> {
        let mut was_given = false;
        for node in &mut self.nodes {
            was_given |= node.untimed_turn(&mut self.buffer, &Discard)?;
        }
        Ok(was_given)
    }

    // Each node takes a tick.
    fn tick(&mut self) -> Result<(), ProgramFault> {
        for node in &mut self.nodes {
            node.tick(&Discard)?;
        }
        Ok(())
    }

    // Receives the next datagram for the clients. If it is an Elsewhere, resends the request to the node that it names.
    fn receive_reply(&mut self, question: &Question, bytes: &[u8]) -> Heard {
        match next_reply(&mut self.buffer, &mut self.client, question) {
            Heard::Reply(Reply::Elsewhere(member)) => {
                let _ = self.client.send_to(local(member.port.get()), bytes);
                Heard::Other
            }
            heard => heard,
        }
    }

    // Serves until a reply arrives or no datagram is waiting.
    fn run_until_reply(
        &mut self,
        question: &Question,
        bytes: &[u8],
    ) -> Result<Option<Reply>, ProgramFault> {
        for _ in 0..TURNS {
            let was_given = self.step_nodes()?;
            match self.receive_reply(question, bytes) {
                Heard::Reply(reply) => return Ok(Some(reply)),
                Heard::Nothing if !was_given => return Ok(None),
                Heard::Nothing | Heard::Other => {}
            }
        }
        Ok(None)
    }

    // Sends a request, and resends it after every 200 idle turns; in each idle turn every node takes a tick. Returns
    // the reply, or `None` after 10,000 idle turns.
    fn exchange(
        &mut self,
        alloc: Global,
        question: &Question,
    ) -> Result<Option<Reply>, ProgramFault> {
        let bytes = datagram(alloc, question)?;
        for idle in 0..IDLE_TURNS {
            if idle % PATIENCE == 0 {
                let _ = self.client.send_to(local(self.port.get()), &bytes);
            }
            if let Some(reply) = self.run_until_reply(question, &bytes)? {
                return Ok(Some(reply));
            }
            self.tick()?;
        }
        Ok(None)
    }

    // Sends the request of a row of the story, and prints the reply. Returns whether there was one.
    fn play_row<W: Write>(
        &mut self,
        alloc: Global,
        row: (u16, u64, &[u8]),
        out: &mut W,
    ) -> Result<bool, ProgramFault> {
        let reply = match question_of(row, self.port) {
            Some(question) => self.exchange(alloc, &question)?,
            None => None,
        };
        write_reply(reply, out).map_err(|_| ProgramFault::Write)
    }
}

/// Runs nodes with disks in memory, and prints the replies to their clients, which take turns. The sockets' receives
/// must not wait. Returns whether every request got a reply; if not, the last line is `no answer`.
pub fn run_demo<M: TableMachine, S: DatagramSocket + Drop, W: Write>(
    alloc: Global,
    sockets: Sockets<S>,
    out: &mut W,
) -> Result<bool, ProgramFault> {
    let mut cluster: Cluster<M, S> = Cluster::start(alloc, sockets)?;
    for row in REQUESTS {
        if !cluster.play_row(alloc, row, out)? {
            return Ok(false);
        }
    }
    Ok(true)
}

// Opens a socket at a free port of 127.0.0.1, whose receives do not wait.
fn free_socket<R: Net>(rt: &R) -> Result<LocalSocket, ProgramFault> {
    LocalSocket::without_waiting(rt, 0).map_err(|_| ProgramFault::CannotOpen)
}

// Opens this many of them.
fn free_sockets<R: Net>(
    rt: &R,
    alloc: Global,
    count: usize,
) -> Result<Vec<LocalSocket>, ProgramFault> {
    let mut sockets = Vec::new(alloc);
    for _ in 0..count {
        sockets.push(free_socket(rt)?)?;
    }
    Ok(sockets)
}

// Opens a socket for the clients and one for each node, at free ports of 127.0.0.1, and plays the story on them.
fn play_on_ports<M: TableMachine, R: Net, W: Write>(
    rt: &R,
    alloc: Global,
    out: &mut W,
) -> Result<bool, ProgramFault> {
    let client = free_socket(rt)?;
    let nodes = free_sockets(rt, alloc, NODES)?;
    let is_answered = run_demo::<M, _, W>(alloc, Sockets { nodes, client }, out)?;
    if out.flush().is_err() {
        return Err(ProgramFault::Write);
    }
    Ok(is_answered)
}

/// Runs the demonstration: three nodes of this process on free ports of 127.0.0.1, and the replies to two clients that
/// take turns. Returns status 0, or 1 after `no answer` or an error message.
pub fn demo<M: TableMachine, R: Net, W: Write, E: Write>(
    rt: &R,
    alloc: Global,
    out: &mut W,
    err: &mut E,
) -> u8
    ensures { result ≤ 1 }
{
    match play_on_ports::<M, R, W>(rt, alloc, out) {
        Ok(true) => 0,
        Ok(false) => 1,
        Err(fault) => fault.write_to(err),
    }
}
