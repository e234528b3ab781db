//! Probes that arrive at a server. They are not part of the protocol: the server replies, and no replica gets one.

ghost use Rattle.std.specs.Prelude.{◌≡◌, ◌≢◌, ◌↔◌, [], length, IsTrue, IsSome};
ghost use Rattle.lk_auth.specs.Seals.{key_list, heard};
ghost use Rattle.lk_transport.specs.Askers.{asker, BringsProbe, IsSealedAsNamed};
ghost use Rattle.lk_transport.specs.Inquiring.{is_of};

use lk_auth::{DIGEST, Seals};
use lk_node_interface::To;
use lk_probe::Probe;
use std::net::SocketAddr;

/// A probe that a node is to answer, and its source.
#[derive(Clone, Copy)]
pub struct ReceivedProbe {
    pub from: SocketAddr,
    pub probe: Probe,
}

// Returns whether a probe may name the node that it names: if the nodes have a key, such a probe must have been sealed.
// A frame is longer than its datagram, so equal lengths mean that there was no seal.
fn is_sealed_as_named(seals: &Seals, frame: &[u8], datagram: &[u8], probe: &Probe) -> bool
    ensures { IsTrue result ↔ (IsSome probe.now.origin → key_list seals.now.nodes ≢ []
        → length frame.now ≢ length datagram.now) }
{
    probe.origin.is_none() || seals.nodes.is_none() || frame.len() != datagram.len()
}

impl ReceivedProbe {
    /// Parses the probe in a datagram, which was opened from a frame that arrived from an address. `None` if it is no
    /// probe, is of another cluster, or names a node without a seal although the nodes have a key.
    pub fn by(
        seals: &Seals,
        from: SocketAddr,
        frame: &[u8],
        datagram: &[u8],
    ) -> Option<ReceivedProbe>
        requires { datagram.now ≡ heard seals.now frame.now }
        ensures { BringsProbe seals.now (from, frame.now) result }
    {
        let probe = Probe::read(datagram)?;
        if probe.cluster != seals.cluster || !is_sealed_as_named(seals, frame, datagram, &probe) {
            return None;
        }
        Some(ReceivedProbe { from, probe })
    }

    /// Returns whether the probe names a node of that genesis.
    pub fn is_of(&self, genesis: &[u8; DIGEST]) -> bool
        ensures { result ≡ is_of genesis.now self.now.probe.origin }
    {
        match &self.probe.origin {
            Some(asker) => asker.genesis == *genesis,
            None => false,
        }
    }

    /// Returns the client or the node that the probe names, if any; of a node the port is unknown (0).
    pub fn asker(&self) -> Option<To>
        ensures { result ≡ asker self.now.probe }
    {
        match (self.probe.client, self.probe.node()) {
            (Some(client), _) => Some(To::Client(client)),
            (None, Some(node)) => Some(To::Node(node, 0)),
            (None, None) => None,
        }
    }
}
