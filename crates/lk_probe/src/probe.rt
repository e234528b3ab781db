// Probes and reports as values, and which report replies to which probe.
ghost use Rattle.std.specs.Prelude.{◌≡◌, ◌↔◌, IsTrue, IfSome, Some, None, if◌then◌else◌};
ghost use Rattle.lk_types.specs.Ranges.{IsClient};
ghost use Rattle.lk_probe.specs.Grammar.{IsOrigin, IsProbe, IsReport, IsReportFor, SpellsProbe, SpellsReport, heard_of};
ghost use Rattle.lk_probe.specs.Grammar.{digest_in, node_in};

use crate::datagram::ProbeDatagram;
use crate::neighbours::Origin;
use crate::reach::{Reach, reach_facts};
use crate::state_digest::StateDigest;
use crate::status::Status;
use crate::writing::{write_probe, write_report};
use lk_types::{ClientNo, NodeNo};

/// A request for a node's status.
#[derive(Clone, Copy)]
pub struct Probe {
    pub cluster: u64,
    /// The node that asks and its genesis, if a node does.
    pub origin: Option<Origin>,
    /// The client by whose key it is sealed, if a client asks and has one.
    pub client: Option<ClientNo>,
    /// A number that the report repeats, by which the asker matches them.
    pub token: u64,
    /// Whether the report is to have a reach: then both have form 2.
    pub asks_reach: bool,
}

/// A node's reply to a probe.
#[derive(Drop)]
pub struct Report {
    pub cluster: u64,
    /// The node that replies.
    pub node: NodeNo,
    /// The client that the probe names.
    pub client: Option<ClientNo>,
    /// The token of the probe.
    pub token: u64,
    pub status: Status,
    /// What form 2 has beside the status, if the probe asks for that: then the report has form 2.
    pub reach: Option<Reach>,
}

impl Origin {
    // Shows the prover that each part is in its range. Does nothing at run time.
    fn facts(&self)
        ensures { IsOrigin self.now }
    {
        let _ = self.node.get();
        let _genesis = self.genesis;
    }
}

// Shows the prover that an origin, if there is one, is in its range. Does nothing at run time.
fn origin_facts(origin: &Option<Origin>)
    ensures { IfSome origin.now IsOrigin }
{
    if let Some(origin) = origin {
        origin.facts();
    }
}

// Shows the prover that a client, if there is one, is in its range. Does nothing at run time.
fn client_facts(client: Option<ClientNo>)
    ensures { IfSome client IsClient }
{
    if let Some(client) = client {
        let _ = client.get();
    }
}

impl Probe {
    /// Shows the prover that each part is in its range. Does nothing at run time.
    pub fn facts(&self)
        ensures { IsProbe self.now }
    {
        let _cluster = self.cluster;
        origin_facts(&self.origin);
        client_facts(self.client);
        let _token = self.token;
    }

    /// The node that asks, if a node does.
    pub fn node(&self) -> Option<NodeNo>
        ensures { result ≡ node_in self.now.origin }
    {
        match &self.origin {
            Some(origin) => Some(origin.node),
            None => None,
        }
    }

    /// Returns its datagram, as long as that of its report. Allocates nothing.
    pub fn datagram(&self) -> ProbeDatagram
        ensures { SpellsProbe self.now result }
    {
        self.facts();
        write_probe(self)
    }

    /// Returns the report that replies to this probe: with its cluster, client and token, that node and status, and
    /// that reach if the probe asks for it.
    pub fn report(&self, node: NodeNo, status: Status, reach: Reach) -> Report
        ensures is_for { IsReportFor self.now result }
        ensures node { result.node ≡ node }
        ensures status { result.status ≡ status }
        ensures reach { result.reach ≡ (if self.now.asks_reach then Some reach else None) }
    {
        let reach = if self.asks_reach { Some(reach) } else { None };
        Report {
            cluster: self.cluster,
            node,
            client: self.client,
            token: self.token,
            status,
            reach,
        }
    }
}

impl Report {
    /// Shows the prover that each part is in its range. Does nothing at run time.
    pub fn facts(&self)
        ensures { IsReport self.now }
    {
        let _cluster = self.cluster;
        let _ = self.node.get();
        client_facts(self.client);
        let _token = self.token;
        self.status.facts();
        reach_facts(&self.reach);
    }

    /// Returns its datagram, in form 2 if it has a reach. Allocates nothing.
    pub fn datagram(&self) -> ProbeDatagram
        ensures { SpellsReport self.now result }
    {
        self.facts();
        write_report(self)
    }

    /// Returns how many of the members its node hears, itself included; `None` if it does not say it.
    pub fn heard(&self) -> Option<u8>
        ensures { result ≡ heard_of self.now.reach }
    {
        match &self.reach {
            Some(reach) => reach.heard,
            None => None,
        }
    }

    /// Returns the digest of its node's state, that of none if it has no reach.
    pub fn state_digest(&self) -> StateDigest
        ensures { result ≡ digest_in self.now.reach }
    {
        match &self.reach {
            Some(reach) => reach.state,
            None => StateDigest::none(),
        }
    }

    /// Whether it is for that probe: cluster, client and token are the same. Its form is not asked.
    pub fn is_for(&self, probe: &Probe) -> bool
        ensures { IsTrue result ↔ IsReportFor probe.now self.now }
    {
        self.cluster == probe.cluster && self.client == probe.client && self.token == probe.token
    }
}
