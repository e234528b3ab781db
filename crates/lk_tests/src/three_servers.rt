//! Three servers on sockets in memory, between which the test carries each datagram.

use crate::clocks::Stopped;
use crate::replicas::{Locks, begun};
use lk_address_book::network::Network;
use lk_client::destination::Destination;
use lk_client::question::{Question, datagram};
use lk_client::reply::{Reply, read_reply};
use lk_memory_socket::{MemoryDatagram, MemorySocket};
use lk_pacing::pace::Pace;
use lk_pacing::tick_timer::TickTimer;
use lk_server::server::{Server, node_turn};
use lk_transport::receive_buffer::ReceiveBuffer;
use lk_transport::socket::local;
use lk_types::{Answer, ClientNo, NodeNo, Port, Request, RequestNumber};
use lk_word_parsers::operation::read_operation;
use log::sink::Discard;
use std::alloc::Global;
use std::test::Fail;

type MemoryServer = Server<Locks, MemorySocket>;

const CLUSTER: u64 = 5;
// The ports of the nodes, in the order of their numbers, and that of the client.
const PORTS: [u16; 3] = [7001, 7002, 7003];

const CLIENT: u16 = 8001;
// How many turns each node does at most, and after how many the client resends its request.
const TURNS: u32 = 4_000;

const PATIENCE: u32 = 200;

// The server of the node whose port this is, on empty disks.
fn server(alloc: Global, port: u16) -> Result<MemoryServer, Fail> {
    let node = u32::from(port.saturating_sub(7000));
    let replica = begun(alloc, node, 2, 3)?;
    let node = NodeNo::of(node).ok_or("node")?;
    let network = Network::local(CLUSTER, node);
    let socket = MemorySocket::new(alloc, port);
    Ok(Server::new(
        alloc,
        CLUSTER,
        node,
        Pace::Datagrams,
        network,
        replica,
        socket,
    ))
}

// The servers of the three nodes.
fn three(alloc: Global) -> Result<Vec<MemoryServer>, Fail> {
    let mut servers = Vec::new(alloc);
    for port in PORTS {
        servers.push(server(alloc, port)?)?;
    }
    Ok(servers)
}

// A client's request for a lock.
fn question() -> Result<Question, Fail> {
    Ok(Question {
        cluster: CLUSTER,
        port: Port::of(7001).ok_or("port")?,
        request: Request {
            client: ClientNo::of(1).ok_or("client")?,
            number: RequestNumber::of(1).ok_or("number")?,
            op: read_operation(b"acquire db").ok_or("operation")?,
        },
        destination: Destination::local(CLUSTER),
    })
}

// Gives a datagram to the server at that port, behind a receive that finds nothing; other ports get nothing.
fn give(servers: &mut Vec<MemoryServer>, from: u16, to: u16, bytes: &[u8]) -> Result<(), Fail> {
    for (server, port) in servers.iter_mut().zip(PORTS) {
        if port == to {
            server.socket_mut().add_silence()?;
            server.socket_mut().add_incoming(local(from), bytes)?;
        }
    }
    Ok(())
}

// Does a turn of a server, and returns what it has sent.
fn sent_in_turn(alloc: Global, server: &mut MemoryServer) -> Result<Vec<MemoryDatagram>, Fail> {
    let mut tick_timer = TickTimer::new(Stopped);
    let mut buffer = ReceiveBuffer::new();
    match node_turn(server, &mut buffer, &mut tick_timer, &Discard) {
        Ok(()) => Ok(server.socket_mut().drain_sent()),
        Err(_) => Err("turn")?,
    }
}

// Gives a reply to the client: what it says, unless it names another node, to which the request is sent again.
fn hear(
    servers: &mut Vec<MemoryServer>,
    question: &Question,
    request: &[u8],
    reply: &[u8],
) -> Result<Option<Answer>, Fail> {
    match read_reply(CLUSTER, &question.request, reply) {
        Some(Reply::Answer(answer)) => Ok(Some(answer)),
        Some(Reply::Elsewhere(member)) => {
            give(servers, CLIENT, member.port.get(), request)?;
            Ok(None)
        }
        _ => Ok(None),
    }
}

// Carries what the server at that port has sent: to the servers, or to the client. Returns the answer, if one was sent.
fn carry(
    servers: &mut Vec<MemoryServer>,
    from: u16,
    sent: &[MemoryDatagram],
    question: &Question,
    request: &[u8],
) -> Result<Option<Answer>, Fail> {
    let mut answer = None;
    for datagram in sent {
        let to = datagram.address.port();
        if to == CLIENT {
            answer = hear(servers, question, request, &datagram.bytes)?;
        } else {
            give(servers, from, to, &datagram.bytes)?;
        }
    }
    Ok(answer)
}

// Each server does a turn, one after another, and what it sends is carried. Returns the answer, if one was sent.
fn step(
    alloc: Global,
    servers: &mut Vec<MemoryServer>,
    question: &Question,
    request: &[u8],
) -> Result<Option<Answer>, Fail> {
    let mut answer = None;
    for (place, port) in PORTS.iter().enumerate() {
        let server = servers.get_mut(place).ok_or("server")?;
        let sent = sent_in_turn(alloc, server)?;
        answer = match carry(servers, *port, &sent, question, request)? {
            Some(given) => Some(given),
            None => answer,
        };
    }
    Ok(answer)
}

// Runs the three servers until they have answered the request, which the client sends again and again.
fn answered(alloc: Global) -> Result<Option<Answer>, Fail> {
    let mut servers = three(alloc)?;
    let question = question()?;
    let request = datagram(alloc, &question).map_err(|_| "request")?;
    for turn in 0..TURNS {
        if turn % PATIENCE == 0 {
            give(&mut servers, CLIENT, PORTS[0], &request)?;
        }
        if let Some(answer) = step(alloc, &mut servers, &question, &request)? {
            return Ok(Some(answer));
        }
    }
    Ok(None)
}

#[test]
fn three_servers_grant_a_lock(rt: HostRuntime) -> Result<(), Fail> {
    let is_granted = matches!(answered(rt.alloc())?, Some(Answer::Granted(_)));
    assert!(rt; is_granted);
    Ok(())
}
