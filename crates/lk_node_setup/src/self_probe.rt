//! Finds out whether a node is heard at the port that the genesis names, if it listens at another one: sends a probe to
//! itself there.

ghost use Rattle.std.specs.Prelude.{◌≡◌, Ok, None, Some, true, false, IfOk, IfErr, OnErr, IfSome};
ghost use Rattle.lk_node_setup.specs.SelfProbes.{ComesNext, FindsUnreached, IsHeard, ProbesItself, socket_value};

use lk_address_book::network::Network;
use lk_auth::Seals;
use lk_probe::neighbours::Origin;
use lk_probe::reported::question;
use lk_program_fault::ProgramFault;
use lk_store_format::Header;
use lk_transport::receive_buffer::ReceiveBuffer;
use lk_transport::socket::DatagramSocket;
use lk_types::Port;
use std::alloc::Global;
use std::net::SocketAddr;
use std::time::Duration;

// How many receives a node makes at most to find its probe.
const RECEIVES: u32 = 30;
// How long it waits for each, in milliseconds.
const WAIT: u64 = 10;

// Receives the next datagram, and drops it. Returns whether it has these bytes.
fn comes_next<S: DatagramSocket>(buffer: &mut ReceiveBuffer, socket: &mut S, frame: &[u8]) -> bool
    ensures comes { S.is_observable → ComesNext frame.now result (S.incoming socket.old) (S.incoming socket.new) }
    ensures unchanged { S.sent socket.new ≡ S.sent socket.old }
    ensures spares { S.failures socket.new ≡ S.failures socket.old }
{
    buffer.receive(socket);
    match buffer.latest() {
        Some((bytes, _)) => bytes == frame,
        None => false,
    }
}

// Drops what its receives find, up to a datagram of these bytes, in at most 30 receives of about 10 ms. Returns whether
// it came.
fn comes_back<S: DatagramSocket>(socket: &mut S, frame: &[u8]) -> bool
    ensures heard { S.is_observable → IsHeard frame.now 30 result (S.incoming socket.old) (S.incoming socket.new) }
    ensures unchanged { S.sent socket.new ≡ S.sent socket.old }
    ensures spares { S.failures socket.new ≡ S.failures socket.old }
{
    socket.set_timeout(Duration::from_millis(WAIT));
    let mut buffer = ReceiveBuffer::new();
    'receives: for _ in 0..RECEIVES {
        if comes_next(&mut buffer, socket, frame) {
            return true;
        }
    }
    false
}

// Sends the probe of a header's node to itself, sealed if the nodes have a key. Returns whether it came back.
fn probe_itself<S: DatagramSocket>(
    alloc: Global,
    socket: &mut S,
    header: &Header,
    seals: &Seals,
    address: SocketAddr,
) -> Result<bool, ProgramFault>
    ensures probes { S.is_observable → IfOk result (λ is_back. ProbesItself header.now seals.now address is_back
        (socket_value S.sent S.failures S.incoming socket.old) (socket_value S.sent S.failures S.incoming socket.new)) }
    ensures err { OnErr result (socket.new ≡ socket.old) }
    ensures only { IfErr result (λ f. f ≡ ProgramFault.NoMemory) }
{
    let asker = Origin {
        node: header.node(),
        genesis: seals.genesis,
    };
    let probe = question(header.genesis().cluster, asker).datagram();
    let mut frame = Vec::new(alloc);
    let framed = seals.seal_to_node(header.node().get(), probe.as_slice(), &mut frame)?;
    match socket.send_to(address, framed) {
        Ok(()) => Ok(comes_back(socket, framed)),
        Err(_) => Ok(false),
    }
}

/// Probes the port that the genesis names, if the node listens at another one (`named`). Returns that port if the probe
/// does not come back, or if no address of the node is known. Other datagrams that come meanwhile are lost.
pub fn unreached_port<S: DatagramSocket>(
    alloc: Global,
    socket: &mut S,
    header: &Header,
    network: &Network,
    named: Option<Port>,
) -> Result<Option<Port>, ProgramFault>
    ensures finds { S.is_observable → IfOk result (λ unreached. FindsUnreached header.now network.now named unreached
        (socket_value S.sent S.failures S.incoming socket.old) (socket_value S.sent S.failures S.incoming socket.new)) }
    // Where the ports agree nothing is sent and nothing received.
    ensures alike { named ≡ None → (result ≡ Ok None) × (socket.new ≡ socket.old) }
    ensures some { IfOk result (λ unreached. IfSome unreached (λ port. named ≡ Some port)) }
    ensures err { OnErr result (socket.new ≡ socket.old) }
    ensures only { IfErr result (λ f. f ≡ ProgramFault.NoMemory) }
{
    let Some(port) = named else {
        return Ok(None);
    };
    let Some(host) = network.hosts.address(header.node()) else {
        return Ok(Some(port));
    };
    let address = SocketAddr::from((host, port.get()));
    let is_heard = probe_itself(alloc, socket, header, &network.seals, address)?;
    Ok(if is_heard { None } else { Some(port) })
}
