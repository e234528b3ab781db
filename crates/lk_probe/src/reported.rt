//! The probe by which a node asks for the genesis of another one, and what it keeps of a report.

ghost use Rattle.std.specs.Prelude.{◌≡◌};
ghost use Rattle.lk_probe.specs.Questions.{IsReportedOf, question};

use crate::neighbours::Origin;
use crate::probe::{Probe, Report};
use crate::state_digest::StateDigest;
use std::net::SocketAddr;

/// The node and the genesis that a report names, the token that it repeats, the digest that it tells, and the address
/// that it came from.
#[derive(Clone, Copy)]
pub struct Reported {
    pub from: SocketAddr,
    pub reporter: Origin,
    pub token: u64,
    /// The digest of its node's state, that of none in a report of form 1.
    pub state: StateDigest,
}

/// Returns the probe by which the node `asker` asks for a genesis. Its token is the asker's number.
pub fn question(cluster: u64, asker: Origin) -> Probe
    ensures { result ≡ question cluster asker }
{
    let token = u64::from(asker.node.get());
    Probe {
        cluster,
        origin: Some(asker),
        client: None,
        token,
        asks_reach: false,
    }
}

impl Reported {
    /// Reads a datagram from an address. `None` if it is no report, is of another cluster, or replies to a client.
    pub fn by(cluster: u64, from: SocketAddr, datagram: &[u8]) -> Option<Reported>
        ensures { IsReportedOf cluster (from, datagram.now) result }
    {
        let report = Report::read(datagram)?;
        if report.cluster != cluster || report.client.is_some() {
            return None;
        }
        let reporter = Origin {
            node: report.node,
            genesis: report.status.identity.genesis,
        };
        Some(Reported {
            from,
            reporter,
            token: report.token,
            state: report.state_digest(),
        })
    }
}
