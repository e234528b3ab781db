//! A socket in memory, for tests: its contract reveals what is sent and what arrives.

ghost use Rattle.std.specs.Prelude.{◌≡◌, ◌≤◌, ◌++◌, ◌∷◌, [], Some, None, length, min, take, OnOk, OnErr};
ghost use Rattle.lk_memory_socket.specs.Sockets.{sent_in, coming_in};

use lk_node_interface::SendFault;
use lk_transport::socket::DatagramSocket;
use lk_types::{NoMemory, NodeNo};
use std::alloc::Global;
use std::collections::VecDeque;
use std::net::SocketAddr;
use std::time::Duration;
use std::{io, mem};

/// A datagram of a socket in memory, with its source or destination.
#[derive(Drop)]
pub struct MemoryDatagram {
    pub address: SocketAddr,
    pub bytes: Vec<u8>,
}

/// What its receives are to find, in order, and the datagrams that were sent.
#[derive(Drop)]
pub struct MemorySocket {
    alloc: Global,
    port: u16,
    // a datagram, or nothing
    incoming: VecDeque<Option<MemoryDatagram>>,
    sent: Vec<MemoryDatagram>,
    failures: u64,
}

// Returns how many bytes of a datagram of this length are received: at most 8,229, the longest frame and one more.
fn cut_length(length: usize) -> usize
    ensures { result ≡ min length 16421 }
{
    if length <= 16421 { length } else { 16421 }
}

impl MemoryDatagram {
    // Copies its first bytes into a buffer, at most 8,229. Returns how many these are, and its source.
    fn copy_to(&self, buffer: &mut [u8]) -> (usize, SocketAddr)
        requires room { 16421 ≤ length buffer.old }
        ensures within { result.0 ≤ length buffer.new }
        ensures copies { take result.0 buffer.new ≡ take 16421 self.now.bytes.items }
        ensures source { result.1 ≡ self.now.address }
    {
        let length = cut_length(self.bytes.len());
        buffer[..length].copy_from_slice(&self.bytes[..length]);
        (length, self.address)
    }
}

impl MemorySocket {
    /// The socket of a port, with nothing to receive and nothing sent.
    pub fn new(alloc: Global, port: u16) -> MemorySocket
        ensures incoming { coming_in result.incoming.items ≡ [] }
        ensures sent { result.sent.items ≡ [] }
    {
        MemorySocket {
            alloc,
            port,
            incoming: VecDeque::new(alloc),
            sent: Vec::new(alloc),
            failures: 0,
        }
    }

    /// Appends a datagram to what the receives will find. A receive returns its first 8,229 bytes only.
    pub fn add_incoming(&mut self, from: SocketAddr, bytes: &[u8]) -> Result<(), NoMemory>
        ensures ok { OnOk result
            (coming_in self.new.incoming.items
            ≡ coming_in self.old.incoming.items ++ Some (from, take 16421 bytes.now) ∷ []) }
        ensures err { OnErr result (coming_in self.new.incoming.items ≡ coming_in self.old.incoming.items) }
        ensures others { self.new ≡ record self.old { incoming = self.new.incoming } }
    {
        let kept = bytes.to_vec(self.alloc)?;
        self.incoming.push_back(Some(MemoryDatagram {
            address: from,
            bytes: kept,
        }))?;
        Ok(())
    }

    /// Appends a silence to what the receives will find: after what was added before, one receive finds nothing.
    pub fn add_silence(&mut self) -> Result<(), NoMemory>
        ensures ok { OnOk result
            (coming_in self.new.incoming.items ≡ coming_in self.old.incoming.items ++ None ∷ []) }
        ensures err { OnErr result (coming_in self.new.incoming.items ≡ coming_in self.old.incoming.items) }
        ensures others { self.new ≡ record self.old { incoming = self.new.incoming } }
    {
        self.incoming.push_back(None)?;
        Ok(())
    }

    /// Removes and returns what was sent, in order.
    pub fn drain_sent(&mut self) -> Vec<MemoryDatagram>
        ensures drained { result.items ≡ self.old.sent.items }
        ensures others { self.new ≡ record self.old { sent = self.new.sent } }
        ensures left { self.new.sent.items ≡ [] }
    {
        mem::replace(&mut self.sent, Vec::new(self.alloc))
    }

    // Records a sent datagram; out of memory it records nothing.
    fn keep_sent(&mut self, to: SocketAddr, bytes: &[u8]) -> Result<(), NoMemory>
        ensures ok { OnOk result (sent_in self.new.sent.items ≡ sent_in self.old.sent.items ++ (to, bytes.now) ∷ []) }
        ensures err { OnErr result (sent_in self.new.sent.items ≡ sent_in self.old.sent.items) }
        ensures failures { self.new.failures ≡ self.old.failures }
        ensures incoming { self.new.incoming ≡ self.old.incoming }
    {
        let kept = bytes.to_vec(self.alloc)?;
        self.sent.push(MemoryDatagram {
            address: to,
            bytes: kept,
        })?;
        Ok(())
    }
}

impl DatagramSocket for MemorySocket {
    ghost use Rattle.std.specs.Prelude.{⊤};

    ghost sent = { λ s. sent_in s.sent.items };

    ghost incoming = { λ s. coming_in s.incoming.items };

    ghost failures = { λ s. s.failures };

    ghost is_observable = { ⊤ };

    // Out of memory the datagram is lost, and the failure counted.
    fn send_to(&mut self, to: SocketAddr, bytes: &[u8]) -> Result<(), SendFault> {
        match self.keep_sent(to, bytes) {
            Ok(()) => Ok(()),
            Err(NoMemory) => {
                self.failures = self.failures.saturating_add(1);
                Err(SendFault)
            }
        }
    }

    // Sends at once.
    fn send_in_group(
        &mut self,
        _node: NodeNo,
        to: SocketAddr,
        bytes: &[u8],
    ) -> Result<(), SendFault> {
        self.send_to(to, bytes)
    }

    // Does nothing: it keeps nothing back.
    fn flush(&mut self) -> (u64, Option<NodeNo>) {
        (0, None)
    }

    // Does nothing: a receive never waits.
    fn set_timeout(&mut self, _time: Duration) {}

    fn receive(&mut self, buffer: &mut [u8]) -> Option<(usize, SocketAddr)> {
        match self.incoming.pop_front() {
            Some(Some(datagram)) => Some(datagram.copy_to(buffer)),
            Some(None) | None => None,
        }
    }

    // The same as `receive`, which never waits.
    fn try_receive(&mut self, buffer: &mut [u8]) -> Option<(usize, SocketAddr)> {
        self.receive(buffer)
    }

    fn reads_bundles(&self) -> bool {
        false
    }

    fn sends_bundles(&self) -> bool {
        false
    }

    fn cause(&self) -> Option<io::Error> {
        None
    }

    fn port(&self) -> Option<u16> {
        Some(self.port)
    }
}
