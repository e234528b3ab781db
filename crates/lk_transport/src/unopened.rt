//! Frames from nodes that a node cannot open, and what their bytes tell of the node that sent them.

ghost use Rattle.std.specs.Prelude.{◌≡◌};
ghost use Rattle.lk_transport.specs.Unopened.{cluster_in, is_node_frame, is_nothing, names_cluster, other_cluster};
ghost use Rattle.lk_transport.specs.Unopened.{unopened};

use crate::post::SocketPost;
use crate::socket::DatagramSocket;
use lk_address_book::kinds::byte_at;
use std::net::SocketAddr;

/// A frame from a node to a node that this node cannot open.
#[derive(Clone, Copy)]
pub struct UnopenedFrame {
    pub from: SocketAddr,
    /// The cluster that it names, if that is another one.
    pub cluster: Option<u64>,
}

// The offset of a datagram in its frame, and in it that of the cluster, eight bytes.
const DATAGRAM: usize = 36;

const CLUSTER: usize = DATAGRAM + 4;

// Returns whether these bytes begin as a frame from a node to a node does.
fn is_node_frame(frame: &[u8]) -> bool
    ensures { result ≡ is_node_frame frame.now }
{
    matches!(frame, [b'L', b'S', 1, 1, ..])
}

// Returns whether the datagram of a frame begins as a message or a probe does, and so names its cluster.
fn names_cluster(frame: &[u8]) -> bool
    ensures { result ≡ names_cluster frame.now }
{
    let second = byte_at(frame, DATAGRAM + 1);
    byte_at(frame, DATAGRAM) == b'L' && (second == b'K' || second == b'P')
}

// Returns the cluster that the datagram of a frame names, unchecked.
fn cluster_in(frame: &[u8]) -> u64
    ensures { result ≡ cluster_in frame.now }
{
    u64::from_be_bytes([
        byte_at(frame, CLUSTER),
        byte_at(frame, CLUSTER + 1),
        byte_at(frame, CLUSTER + 2),
        byte_at(frame, CLUSTER + 3),
        byte_at(frame, CLUSTER + 4),
        byte_at(frame, CLUSTER + 5),
        byte_at(frame, CLUSTER + 6),
        byte_at(frame, CLUSTER + 7),
    ])
}

// Returns the cluster that a frame names, if it is not this one.
fn other_cluster(cluster: u64, frame: &[u8]) -> Option<u64>
    ensures { result ≡ other_cluster cluster frame.now }
{
    let named = cluster_in(frame);
    if names_cluster(frame) && named != cluster {
        return Some(named);
    }
    None
}

// Returns whether there are no bytes.
fn is_nothing(bytes: &[u8]) -> bool
    ensures { result ≡ is_nothing bytes.now }
{
    matches!(bytes, [])
}

impl<S: DatagramSocket + Drop> SocketPost<S> {
    /// Returns what is to be told of a frame, if it is a node's and opens to nothing: its node has another key or
    /// another genesis, or is of another cluster.
    pub fn unopened(&self, from: SocketAddr, frame: &[u8]) -> Option<UnopenedFrame>
        ensures { result ≡ unopened self.now.addresses.seals from frame.now }
    {
        if !is_nothing(self.open(frame)) || !is_node_frame(frame) {
            return None;
        }
        let cluster = other_cluster(self.addresses.seals().cluster, frame);
        Some(UnopenedFrame { from, cluster })
    }
}
