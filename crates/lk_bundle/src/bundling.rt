//! What a UDP socket does with bundles: it keeps back what is sent within a group, and hands out what has come together
//! one datagram after another.

ghost use Rattle.std.specs.Prelude.{◌≡◌, ◌≤◌, ◌<◌, ◌⊎◌, ℕ, List, [], Some, length, take, vec_len, IfSome, IsSome};
ghost use Rattle.std.specs.Prelude.{IsNone};
ghost use Rattle.lk_bundle.specs.Bundles.{Bundles};
ghost use Rattle.lk_bundle.specs.Opened.{HandsOutFirst, LeavesPayload, OpensBundle};

use crate::bundle::{Bundle, is_piece};
use crate::pieces::Pieces;
use lk_types::NodeNo;
use std::alloc::Global;
use std::io;
use std::marker::Model;
use std::net::{SocketAddr, UdpSocket};

// The most addresses to which bundles are kept back: more than a cluster has members.
const MOST: usize = 16;

// The longest bundle to another address of this machine, and to another machine: that fits an Ethernet frame. A longer
// datagram is sent bare.
const LOCAL_ROOM: usize = 8192;

const REMOTE_ROOM: usize = 1400;

// The datagrams that wait for the end of their group, and where they go: the address, and the node of the last of them.
#[derive(Drop)]
struct WaitingBundle {
    to: SocketAddr,
    node: NodeNo,
    bundle: Bundle,
}

/// Datagrams that were lost: how many, the node of the last of them, and why.
#[derive(Clone, Copy)]
pub struct LostDatagrams {
    pub count: u64,
    pub node: Option<NodeNo>,
    pub cause: Option<io::Error>,
}

impl LostDatagrams {
    // None are lost.
    const NONE: LostDatagrams = LostDatagrams {
        count: 0,
        node: None,
        cause: None,
    };
}

/// The bundles of a group that is being sent, one for each address.
#[derive(Drop)]
pub struct OpenBundles {
    alloc: Global,
    kept: Vec<WaitingBundle>,
    // those that were lost since the last flush
    lost: LostDatagrams,
}

// Returns how long a bundle to an address may be.
fn room(to: SocketAddr) -> usize {
    if to.ip().is_loopback() {
        LOCAL_ROOM
    } else {
        REMOTE_ROOM
    }
}

impl OpenBundles {
    /// No bundles. Each address takes memory at its first datagram.
    pub fn new(alloc: Global) -> OpenBundles {
        OpenBundles {
            alloc,
            kept: Vec::new(alloc),
            lost: LostDatagrams::NONE,
        }
    }

    // Returns where the bundle of an address is, if it has one.
    fn position(&self, to: SocketAddr) -> Option<usize>
        ensures { IfSome result (λ i. i < vec_len self.now.kept) }
    {
        self.kept.iter().position(|waiting| waiting.to == to)
    }

    // Returns where a bundle without datagrams is, if there is one.
    fn spare(&self) -> Option<usize>
        ensures { IfSome result (λ i. i < vec_len self.now.kept) }
    {
        self.kept
            .iter()
            .position(|waiting| waiting.bundle.len() == 0)
    }

    // Makes a bundle of no datagrams to an address, and returns where it is; `None` if all are taken, or out of memory.
    fn add(&mut self, node: NodeNo, to: SocketAddr) -> Option<usize>
        ensures { IfSome result (λ i. i < vec_len self.new.kept) }
    {
        if self.kept.len() >= MOST {
            let index = self.spare()?;
            self.kept[index].to = to;
            return Some(index);
        }
        let Ok(bundle) = Bundle::new(self.alloc) else {
            return None;
        };
        let index = self.kept.len();
        match self.kept.push(WaitingBundle { to, node, bundle }) {
            Ok(()) => Some(index),
            Err(_) => None,
        }
    }

    // Returns where the bundle of an address is, and makes one if it has none.
    fn position_for(&mut self, node: NodeNo, to: SocketAddr) -> Option<usize>
        ensures { IfSome result (λ i. i < vec_len self.new.kept) }
    {
        match self.position(to) {
            Some(index) => Some(index),
            None => self.add(node, to),
        }
    }

    // Sends the bundle at an index, if it has datagrams, and empties it. Counts them if they are lost.
    fn send_at(&mut self, socket: &UdpSocket, index: usize)
        requires { index < vec_len self.old.kept }
        ensures { vec_len self.new.kept ≡ vec_len self.old.kept }
    {
        let count = self.kept[index].bundle.len();
        if count == 0 {
            return;
        }
        let to = self.kept[index].to;
        let sent = socket.send_to(self.kept[index].bundle.payload(), to);
        if let Err(cause) = sent {
            self.lost = LostDatagrams {
                count: self.lost.count.saturating_add(count as u64),
                node: Some(self.kept[index].node),
                cause: Some(cause),
            };
        }
        self.kept[index].bundle.clear();
    }

    // Whether the bundle at an index has room for a datagram to that address.
    fn has_room(&self, index: usize, to: SocketAddr, datagram: &[u8]) -> bool
        requires { index < vec_len self.now.kept }
    {
        self.kept[index].bundle.has_room(datagram, room(to))
    }

    /// Keeps a datagram until the flush, or until its bundle is full. Returns false if it does not: the datagram is too
    /// long or too short, or there is no memory or no place for it.
    pub fn keep(
        &mut self,
        socket: &UdpSocket,
        node: NodeNo,
        to: SocketAddr,
        datagram: &[u8],
    ) -> bool {
        if !is_piece(datagram) {
            return false;
        }
        let Some(index) = self.position_for(node, to) else {
            return false;
        };
        if !self.has_room(index, to, datagram) {
            self.send_at(socket, index);
        }
        if !self.has_room(index, to, datagram) {
            return false;
        }
        self.kept[index].node = node;
        self.kept[index].bundle.push(datagram).is_ok()
    }

    /// Sends all that is kept. Returns what is lost since the last flush.
    pub fn flush(&mut self, socket: &UdpSocket) -> LostDatagrams {
        for index in 0..self.kept.len() {
            self.send_at(socket, index);
        }
        let lost = self.lost;
        self.lost = LostDatagrams::NONE;
        lost
    }
}

/// What is left of the last bundle that came, and where it came from.
#[derive(Drop)]
pub struct OpenedBundle {
    pieces: Pieces,
    from: SocketAddr,
}

impl Model for OpenedBundle {
    ghost use Rattle.lk_bundle.specs.Opened.{OpenedValue};

    ghost Value = { OpenedValue };

    ghost view = { λ o. record { left = o.pieces; from = o.from } };
}

impl OpenedBundle {
    /// Nothing. It takes memory at the first bundle.
    pub fn new(alloc: Global, address: SocketAddr) -> OpenedBundle
        ensures { result ≡ record { left = []; from = address } }
    {
        OpenedBundle {
            pieces: Pieces::new(alloc),
            from: address,
        }
    }

    /// Puts the next datagram into the buffer, and returns its length and its source; `None` if none is left. What does
    /// not fit is lost.
    pub fn next(&mut self, buffer: &mut [u8]) -> Option<(usize, SocketAddr)>
        ensures some { IfSome result
            (λ r. HandsOutFirst (length buffer.old) self.old (take r.0 buffer.new) r.1 self.new) }
        ensures within { IfSome result (λ r. r.0 ≤ length buffer.new) }
        ensures none { IsNone result → (self.old.left ≡ []) × (self.new ≡ self.old) }
    {
        let length = self.pieces.take_next(buffer)?;
        Some((length, self.from))
    }

    /// Takes up a payload of this length in the buffer, if it is a bundle, and puts its first datagram there instead.
    /// Returns the length and the source of what is in the buffer then. Out of memory a bundle stays there as it is,
    /// and nobody reads it.
    pub fn take_up(
        &mut self,
        buffer: &mut [u8],
        end: usize,
        from: SocketAddr,
    ) -> Option<(usize, SocketAddr)>
        requires { end ≤ length buffer.old }
        // It hands out the first datagram of a bundle, and keeps the others; or what came stays, and nothing is left.
        ensures some { IfSome result (λ r.
            OpensBundle (length buffer.old) (take end buffer.old) from (take r.0 buffer.new) r.1 self.new
            ⊎ LeavesPayload end from buffer.old buffer.new r self.new) }
        // A payload that is no bundle stays.
        ensures bare { ((datagrams : List (List ℕ)) → Bundles datagrams (take end buffer.old) → ⊥)
            → (result ≡ Some (end, from)) × (buffer.new ≡ buffer.old) × (self.new.left ≡ []) }
        ensures within { IfSome result (λ r. r.0 ≤ length buffer.new) }
        ensures always { IsSome result }
    {
        match self.pieces.fill(&buffer[..end]) {
            Ok(true) => {
                self.from = from;
                self.next(buffer)
            }
            _ => Some((end, from)),
        }
    }
}
