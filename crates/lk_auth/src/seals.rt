//! How a node opens what arrives at its socket, and seals the datagrams that it sends.

ghost use Rattle.std.specs.Prelude.{◌≡◌, ◌≢◌, [], drop, IfOk, IsErr};
ghost use Rattle.lk_auth.specs.Clients.{client_keys, client_in};
ghost use Rattle.lk_auth.specs.Seals.{key_list, heard, heard_of, heard_of_client, only_request, framed_by, to_node};
ghost use Rattle.lk_auth.specs.Seals.{no_genesis, asking, replying};

use crate::frame::{DIGEST, OVERHEAD, Purpose, Scope};
use crate::keys::Keys;
use crate::masters::Masters;
use std::alloc::AllocError;

// The offset of a datagram's kind, and the kind of a request.
const KIND: usize = 3;

const REQUEST: u8 = 9;

/// The keys with which a node checks and seals datagrams: those of the nodes, and the masters of the clients' keys. Its
/// cluster, genesis and number are part of what a tag covers.
#[derive(Drop)]
pub struct Seals {
    pub cluster: u64,
    /// The digest of the genesis.
    pub genesis: [u8; DIGEST],
    pub node: u32,
    pub nodes: Keys,
    pub clients: Masters,
}

// The offset of the client in a request, two bytes.
const CLIENT: usize = 16;

// Returns the bytes of a frame after its tag, unchecked; none if it is too short.
fn behind_tag<'a>(frame: &'a [u8]) -> &'a [u8]
    ensures { result.now ≡ drop 36 frame.now }
{
    if frame.len() < OVERHEAD {
        return &[];
    }
    &frame[OVERHEAD..]
}

// Returns the client that a request names, unchecked. Missing bytes count as 0.
fn client_in(datagram: &[u8]) -> u16
    ensures { result ≡ client_in datagram.now }
{
    let first = datagram.get(CLIENT).copied().unwrap_or(0);
    let second = datagram.get(CLIENT + 1).copied().unwrap_or(0);
    u16::from_be_bytes([first, second])
}

// Returns the datagram if it is of a request's kind, and otherwise no bytes.
fn only_request<'a>(datagram: &'a [u8]) -> &'a [u8]
    ensures { result.now ≡ only_request datagram.now }
{
    match datagram.get(KIND) {
        Some(&REQUEST) => datagram,
        _ => &[],
    }
}

impl Seals {
    // Returns the scope of a message to that node.
    fn to_node(&self, node: u32) -> Scope
        ensures { result ≡ to_node self.now node }
    {
        Scope {
            purpose: Purpose::ToNode,
            cluster: self.cluster,
            genesis: self.genesis,
            bound: node,
        }
    }

    // Returns the scope of that client's requests or of the replies to them.
    fn with_client(&self, purpose: Purpose, client: u16) -> Scope
        ensures { result ≡ record {
          purpose = purpose;
          cluster = self.now.cluster;
          genesis = no_genesis;
          bound = client;
        } }
    {
        Scope {
            purpose,
            cluster: self.cluster,
            genesis: [0; DIGEST],
            bound: u32::from(client),
        }
    }

    // Opens a frame as that client's, and returns its request; no bytes if it is not.
    fn heard_of<'a>(&self, client: u16, frame: &'a [u8]) -> &'a [u8]
        ensures { result.now ≡ heard_of client (key_list self.now.clients) self.now.cluster frame.now }
    {
        let scope = self.with_client(Purpose::Asking, client);
        match self.clients.open(client, &scope, frame) {
            Some(datagram) => only_request(datagram),
            None => &[],
        }
    }

    // Opens a frame under the keys of the client that it names. Without masters requests are bare: it returns them as
    // they are.
    fn heard_of_client<'a>(&self, frame: &'a [u8]) -> &'a [u8]
        ensures { result.now ≡ heard_of_client (key_list self.now.clients) self.now.cluster frame.now }
    {
        if self.clients.is_none() {
            return only_request(frame);
        }
        self.heard_of(client_in(behind_tag(frame)), frame)
    }

    /// Opens what arrives at the node: returns a node's message to it or a client's request, and no bytes for
    /// anything else. If the nodes have no key, it returns what arrives, unchecked.
    pub fn unseal<'a>(&self, frame: &'a [u8]) -> &'a [u8]
        ensures { result.now ≡ heard self.now frame.now }
    {
        if self.nodes.is_none() {
            return frame;
        }
        match self.nodes.open(&self.to_node(self.node), frame) {
            Some(datagram) => datagram,
            None => self.heard_of_client(frame),
        }
    }

    /// Seals a datagram to a node: writes its frame into the buffer and returns that. Without a key it returns the
    /// datagram itself, and cannot fail.
    pub fn seal_to_node<'a>(
        &self,
        node: u32,
        datagram: &'a [u8],
        frame: &'a mut Vec<u8>,
    ) -> Result<&'a [u8], AllocError>
        ensures ok { IfOk result
            (λ f. f.now ≡ framed_by (key_list self.now.nodes) (to_node self.now node) datagram.now) }
        ensures refused { IsErr result → key_list self.now.nodes ≢ [] }
    {
        self.nodes.frame_of(&self.to_node(node), datagram, frame)
    }

    /// Seals a datagram to that client, as `seal_to_node` does for a node.
    pub fn seal_to_client<'a>(
        &self,
        client: u16,
        datagram: &'a [u8],
        frame: &'a mut Vec<u8>,
    ) -> Result<&'a [u8], AllocError>
        ensures ok { IfOk result
            (λ f. f.now ≡ framed_by (client_keys client (key_list self.now.clients))
            (replying self.now.cluster client) datagram.now) }
        ensures refused { IsErr result → client_keys client (key_list self.now.clients) ≢ [] }
    {
        let scope = self.with_client(Purpose::Replying, client);
        self.clients.frame_of(client, &scope, datagram, frame)
    }
}
