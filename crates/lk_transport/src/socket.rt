//! A socket that sends and receives datagrams, and its implementation over UDP.

ghost use Rattle.std.specs.Prelude.{◌≡◌, ◌≤◌, ◌++◌, ◌∷◌, [], List, ℕ, length, IfSome, OnOk, OnErr};
ghost use Rattle.std.specs.Net.Socket.{socket_port};
ghost use Rattle.std.specs.declared.net.socket_addr.SocketAddr.{SocketAddr as Address};
ghost use Rattle.lk_disk.specs.Disk.{HasCause};
ghost use Rattle.lk_transport.specs.Streams.{Receives, Stream, heard_in};

use lk_bundle::bundling::{OpenBundles, OpenedBundle};
use lk_node_interface::SendFault;
use lk_types::NodeNo;
use std::alloc::Global;
use std::io;
use std::net::{Ipv4Addr, Net, SocketAddr, UdpSocket};
use std::time::Duration;

// The timeout of a receive before one is set, in milliseconds.
const WAIT: u64 = 100;

// A receive may wait this many milliseconds longer than its timeout: each change costs a system call.
const SLACK: u64 = 10;

/// Returns the address of a port on 127.0.0.1.
pub fn local(port: u16) -> SocketAddr
    ensures { socket_port result ≡ port }
{
    SocketAddr::from((Ipv4Addr::LOCALHOST, port))
}

/// Something that carries datagrams: a socket, or its stand-in in a test.
pub trait DatagramSocket {
    /// What was sent, in order: each datagram's destination and bytes.
    ghost sent: { Self → List (Address × List ℕ) };

    /// What its receives find from now on, in order: each a datagram, with its source and bytes, or nothing. The stream
    /// says what each receive finds when it is made, and not what has arrived by now.
    ghost incoming: { Self → Stream };

    /// How many sends have failed.
    ghost failures: { Self → ℕ };

    /// Its contract reveals what was sent, how many sends failed, and what each receive finds. This is a property of
    /// its type, so no call can change it. A socket of a network can have it: its `incoming` is the list of what its
    /// receives will have found, timeouts among them, which nobody knows before.
    ghost is_observable: { Type 0 };

    /// Sends a datagram. A failed call sends nothing, and is counted.
    fn send_to(&mut self, to: SocketAddr, bytes: &[u8]) -> Result<(), SendFault>
        ensures ok { is_observable → OnOk result (sent self.new ≡ sent self.old ++ (to, bytes.now) ∷ []) }
        ensures err { is_observable → OnErr result (sent self.new ≡ sent self.old) }
        ensures still { is_observable → incoming self.new ≡ incoming self.old }
        ensures cause { is_observable → HasCause (failures self.old) (failures self.new) result };

    /// Sends a datagram as `send_to` does, but perhaps only at the next `flush`, together with others to the same
    /// address. The receiver is a node, since it has to read bundles.
    fn send_in_group(&mut self, node: NodeNo, to: SocketAddr, bytes: &[u8]) -> Result<(), SendFault>
        ensures ok { is_observable → OnOk result (sent self.new ≡ sent self.old ++ (to, bytes.now) ∷ []) }
        ensures err { is_observable → OnErr result (sent self.new ≡ sent self.old) }
        ensures still { is_observable → incoming self.new ≡ incoming self.old }
        ensures cause { is_observable → HasCause (failures self.old) (failures self.new) result };

    /// Sends what `send_in_group` kept back. Returns how many of these datagrams are lost, and the node of the last.
    fn flush(&mut self) -> (u64, Option<NodeNo>)
        ensures unchanged { sent self.new ≡ sent self.old }
        ensures spares { failures self.new ≡ failures self.old }
        ensures still { incoming self.new ≡ incoming self.old };

    /// Sets how long a receive waits at most; it may wait up to 10 ms longer. Before the first call it is 100 ms.
    fn set_timeout(&mut self, time: Duration)
        ensures unchanged { sent self.new ≡ sent self.old }
        ensures spares { failures self.new ≡ failures self.old }
        ensures still { incoming self.new ≡ incoming self.old };

    /// Puts the next datagram into the buffer, and returns its length and its source. Bytes that do not fit are lost.
    /// `None` if none arrived within the timeout, or the receive failed; that says nothing about later receives.
    fn receive(&mut self, buffer: &mut [u8]) -> Option<(usize, SocketAddr)>
        // The buffer has room for the longest frame and one byte more.
        requires room { 16421 ≤ length buffer.old }
        ensures within { IfSome result (λ r. r.0 ≤ length buffer.new) }
        ensures receives { is_observable
            → Receives (heard_in buffer.new result) (incoming self.old) (incoming self.new) }
        ensures unchanged { sent self.new ≡ sent self.old }
        ensures spares { failures self.new ≡ failures self.old };

    /// Does the same as `receive` without waiting: `None` if no datagram has arrived yet.
    fn try_receive(&mut self, buffer: &mut [u8]) -> Option<(usize, SocketAddr)>
        requires room { 16421 ≤ length buffer.old }
        ensures within { IfSome result (λ r. r.0 ≤ length buffer.new) }
        ensures receives { is_observable
            → Receives (heard_in buffer.new result) (incoming self.old) (incoming self.new) }
        ensures unchanged { sent self.new ≡ sent self.old }
        ensures spares { failures self.new ≡ failures self.old };

    /// Whether it reads the bundles that come.
    fn reads_bundles(&self) -> bool;

    /// Whether it may send in bundles what is sent within a group.
    fn sends_bundles(&self) -> bool;

    /// Why the last failed send failed, if the system reported it.
    fn cause(&self) -> Option<io::Error>;

    /// The port at which datagrams arrive, if it is known.
    fn port(&self) -> Option<u16>;
}

/// A UDP socket of the operating system. Its contract reveals nothing of what it sends and receives.
#[derive(Drop)]
pub struct LocalSocket {
    socket: UdpSocket,
    // whether it is in blocking mode
    waits: bool,
    // whether it stays in non-blocking mode
    never_waits: bool,
    // the timeout that was asked for, and the one that the system has
    wait: Duration,
    timeout: Duration,
    // why the last failed send failed
    cause: Option<io::Error>,
    // what it keeps back within a group, if it sends bundles
    open: Option<OpenBundles>,
    // what is left of the last bundle that came, if it reads bundles
    opened: Option<OpenedBundle>,
}

impl LocalSocket {
    /// Opens a socket on 127.0.0.1 at a port, or at any free port for 0. Returns the system's error.
    pub fn open<R: Net>(rt: &R, port: u16) -> io::Result<LocalSocket> {
        LocalSocket::open_at(rt, local(port))
    }

    /// Opens a socket at an address, whose receives wait for 100 ms at most. Returns the system's error.
    pub fn open_at<R: Net>(rt: &R, address: SocketAddr) -> io::Result<LocalSocket> {
        let socket = UdpSocket::bind(rt, address)?;
        let wait = Duration::from_millis(WAIT);
        socket.set_read_timeout(Some(wait))?;
        Ok(LocalSocket {
            socket,
            waits: true,
            never_waits: false,
            wait,
            timeout: wait,
            cause: None,
            open: None,
            opened: None,
        })
    }

    /// From now on it splits the bundles that come.
    pub fn read_bundles(&mut self, alloc: Global) {
        self.opened = Some(OpenedBundle::new(alloc, local(0)));
    }

    /// From now on it sends what is sent within a group in bundles.
    pub fn send_bundles(&mut self, alloc: Global) {
        self.open = Some(OpenBundles::new(alloc));
    }

    /// Opens a socket as `open` does, whose receives never wait, whatever timeout is set.
    pub fn without_waiting<R: Net>(rt: &R, port: u16) -> io::Result<LocalSocket> {
        let mut opened = LocalSocket::open(rt, port)?;
        opened.socket.set_nonblocking(true)?;
        opened.waits = false;
        opened.never_waits = true;
        Ok(opened)
    }

    // Switches between blocking and non-blocking mode, by a system call only if that changes. Returns whether it
    // succeeded.
    fn set_waiting(&mut self, waits: bool) -> bool {
        if self.waits == waits {
            return true;
        }
        if self.socket.set_nonblocking(!waits).is_err() {
            return false;
        }
        self.waits = waits;
        true
    }

    // Returns whether the system's timeout is the one asked for, or less than 10 ms longer.
    fn is_in_time(&self) -> bool {
        match self.timeout.checked_sub(self.wait) {
            Some(more) => more < Duration::from_millis(SLACK),
            None => false,
        }
    }

    // Sets the system's timeout, unless it is near enough already. If the call fails, the old one remains.
    fn apply_timeout(&mut self) {
        if !self.is_in_time() && self.socket.set_read_timeout(Some(self.wait)).is_ok() {
            self.timeout = self.wait;
        }
    }

    // Keeps a datagram until the flush. Returns false if it does not: it sends no bundles, or has no room.
    fn keep(&mut self, node: NodeNo, to: SocketAddr, bytes: &[u8]) -> bool {
        match &mut self.open {
            Some(open) => open.keep(&self.socket, node, to, bytes),
            None => false,
        }
    }

    // Puts the next datagram of the last bundle into the buffer, if one is left.
    fn next_piece(&mut self, buffer: &mut [u8]) -> Option<(usize, SocketAddr)>
        ensures within { IfSome result (λ r. r.0 ≤ length buffer.new) }
    {
        match &mut self.opened {
            Some(opened) => opened.next(buffer),
            None => None,
        }
    }

    // Receives the next payload. Of a bundle it returns the first datagram, and keeps the others for later.
    fn receive_payload(&mut self, buffer: &mut [u8]) -> Option<(usize, SocketAddr)>
        ensures within { IfSome result (λ r. r.0 ≤ length buffer.new) }
    {
        let (end, from) = self.socket.recv_from(buffer).ok()?;
        match &mut self.opened {
            Some(opened) => opened.take_up(buffer, end, from),
            None => Some((end, from)),
        }
    }

    // Receives a datagram that is waiting or arrives within the timeout.
    fn receive_in_time(&mut self, buffer: &mut [u8]) -> Option<(usize, SocketAddr)>
        ensures within { IfSome result (λ r. r.0 ≤ length buffer.new) }
    {
        self.apply_timeout();
        if !self.set_waiting(true) {
            return None;
        }
        self.receive_payload(buffer)
    }

    // Receives a datagram that is already waiting.
    fn receive_waiting(&mut self, buffer: &mut [u8]) -> Option<(usize, SocketAddr)>
        ensures within { IfSome result (λ r. r.0 ≤ length buffer.new) }
    {
        if !self.set_waiting(false) {
            return None;
        }
        self.receive_payload(buffer)
    }

    // Receives a datagram as `receive_in_time` does. A socket in non-blocking mode is first read as it is: while
    // datagrams keep arriving, no system call switches its mode.
    fn receive_next(&mut self, buffer: &mut [u8]) -> Option<(usize, SocketAddr)>
        ensures within { IfSome result (λ r. r.0 ≤ length buffer.new) }
    {
        if self.wait.is_zero() {
            return self.receive_waiting(buffer);
        }
        if self.waits {
            return self.receive_in_time(buffer);
        }
        match self.receive_payload(buffer) {
            None if !self.never_waits => self.receive_in_time(buffer),
            came => came,
        }
    }
}

impl DatagramSocket for LocalSocket {
    ghost sent = { λ _. [] };

    ghost incoming = { λ _. [] };

    ghost failures = { λ _. 0 };

    ghost is_observable = { ⊥ };

    fn send_to(&mut self, to: SocketAddr, bytes: &[u8]) -> Result<(), SendFault> {
        match self.socket.send_to(bytes, to) {
            Ok(_) => Ok(()),
            Err(cause) => {
                self.cause = Some(cause);
                Err(SendFault)
            }
        }
    }

    // Without bundles it sends at once.
    fn send_in_group(
        &mut self,
        node: NodeNo,
        to: SocketAddr,
        bytes: &[u8],
    ) -> Result<(), SendFault> {
        if self.keep(node, to, bytes) {
            return Ok(());
        }
        self.send_to(to, bytes)
    }

    fn flush(&mut self) -> (u64, Option<NodeNo>) {
        let Some(open) = &mut self.open else {
            return (0, None);
        };
        let lost = open.flush(&self.socket);
        if lost.cause.is_some() {
            self.cause = lost.cause;
        }
        (lost.count, lost.node)
    }

    fn set_timeout(&mut self, time: Duration) {
        self.wait = time;
    }

    // What is left of a bundle comes first.
    fn receive(&mut self, buffer: &mut [u8]) -> Option<(usize, SocketAddr)> {
        match self.next_piece(buffer) {
            None => self.receive_next(buffer),
            came => came,
        }
    }

    fn try_receive(&mut self, buffer: &mut [u8]) -> Option<(usize, SocketAddr)> {
        match self.next_piece(buffer) {
            None => self.receive_waiting(buffer),
            came => came,
        }
    }

    fn reads_bundles(&self) -> bool {
        self.opened.is_some()
    }

    fn sends_bundles(&self) -> bool {
        self.open.is_some()
    }

    fn cause(&self) -> Option<io::Error> {
        self.cause
    }

    fn port(&self) -> Option<u16> {
        let address = self.socket.local_addr().ok()?;
        Some(address.port())
    }
}
