//! Whom a round asks: the targets, their addresses, and the client whose key is used.

ghost use Rattle.std.specs.Option.{option_copied};
ghost use Rattle.std.specs.Net.Socket.{socket_ip, socket_port};
ghost use Rattle.std.specs.Prelude.{◌≡◌, None, is_some, map, IfOk, IfSome};
ghost use Rattle.lk_probe.specs.Grammar.{or_zero};
ghost use Rattle.lk_status.specs.Rounds.{has_token, report_of};
ghost use Rattle.lk_status.specs.Targets.{SpellsTarget, SpellTargets, target_address, target_place};
ghost use Rattle.lk_status.specs.Targets.{targets_at};

use lk_client::destination::{Destination, Place};
use lk_probe::{Probe, Report};
use lk_program_fault::ProgramFault;
use lk_types::{ClientNo, Member, NodeNo, Port};
use lk_word_parsers::member::member_of;
use lk_word_parsers::operation::port_of;
use std::alloc::Global;
use std::net::{IpAddr, Ipv4Addr, Ipv6Addr, SocketAddr};

/// The most targets of a round.
pub const MAX_TARGETS: usize = 64;

/// A port to ask. Its address is that of `node` if the hosts name it, or else the one of the inquiry.
#[derive(Clone, Copy)]
pub struct Target {
    pub node: Option<NodeNo>,
    pub port: Port,
}

/// What a round asks: which cluster, which targets, and with the key of which client.
#[derive(Drop)]
pub struct Inquiry {
    pub cluster: u64,
    pub client: Option<ClientNo>,
    pub destination: Destination,
    /// At most `MAX_TARGETS`.
    pub targets: Vec<Target>,
    /// How many receives of 100 ms may bring nothing before a round ends.
    pub patience: u32,
}

// Reads `PORT` or `NODE:PORT` as the port and the node, if one is given. `None` if the word is neither.
fn target_in(word: &[u8]) -> Option<(Option<NodeNo>, Port)>
    ensures { IfSome result (λ target. SpellsTarget word.now target.0 target.1) }
{
    if let Some(member) = member_of(word) {
        return Some((Some(member.node), member.port));
    }
    match port_of(word) {
        Some(port) => Some((None, port)),
        None => None,
    }
}

/// Reads each word as a target, `PORT` or `NODE:PORT`. `None` if a word is neither, or there are more than
/// `MAX_TARGETS`. Fails if it is out of memory.
pub fn targets_of(alloc: Global, words: &[&str]) -> Result<Option<Vec<Target>>, ProgramFault>
    ensures { IfOk result (λ targets. IfSome targets (λ ts. SpellTargets (map (λ word. word.now) words.now) ts.items)) }
{
    if words.len() > MAX_TARGETS {
        return Ok(None);
    }
    let mut targets = Vec::new(alloc);
    'words: for word in words {
        let Some((node, port)) = target_in(word.as_bytes()) else {
            return Ok(None);
        };
        targets.push(Target { node, port })?;
    }
    Ok(Some(targets))
}

/// Returns these members as targets, each at its own port.
pub fn targets_at(alloc: Global, members: &[Member]) -> Result<Vec<Target>, ProgramFault>
    ensures { IfOk result (λ ts. ts.items ≡ targets_at members.now) }
{
    let mut targets = Vec::new(alloc);
    'members: for member in members {
        targets.push(Target {
            node: Some(member.node),
            port: member.port,
        })?;
    }
    Ok(targets)
}

impl Inquiry {
    /// The client that its frames name, 0 where it has no key.
    pub fn client_number(&self) -> u16
        ensures { result ≡ or_zero self.now.client }
    {
        match self.client {
            Some(client) => client.get(),
            None => 0,
        }
    }

    /// Returns where a target is asked: at the address of its node if the hosts name it, else at the inquiry's.
    pub fn place_of(&self, target: &Target) -> Place
        ensures { result ≡ target_place self.now target.now }
    {
        let known = match target.node {
            Some(node) => self.destination.hosts.address(node),
            None => None,
        };
        Place {
            address: known.unwrap_or(self.destination.address),
            port: target.port,
        }
    }

    /// Returns the same as an address of a socket.
    pub fn address_of(&self, target: &Target) -> SocketAddr
        ensures ip { socket_ip result ≡ target_address self.now target.now }
        ensures port { socket_port result ≡ target.now.port }
    {
        let place = self.place_of(target);
        SocketAddr::from((place.address, place.port.get()))
    }

    /// Returns the local address to bind: `::` or `0.0.0.0` by the family of the first target that is not IPv4
    /// loopback, or 127.0.0.1 if all are.
    pub fn local_address(&self) -> IpAddr {
        for target in self.targets.as_slice() {
            let host = self.address_of(target).ip();
            if !host.is_ipv4() {
                return IpAddr::V6(Ipv6Addr::UNSPECIFIED);
            }
            if !host.is_loopback() {
                return IpAddr::V4(Ipv4Addr::UNSPECIFIED);
            }
        }
        IpAddr::V4(Ipv4Addr::LOCALHOST)
    }

    /// The probe that carries that token, in form 2 if it asks for a reach.
    pub fn probe(&self, token: u64, asks_reach: bool) -> Probe
        ensures { result ≡ record {
          cluster = self.now.cluster;
          origin = None;
          client = self.now.client;
          token = token;
          asks_reach = asks_reach;
        } }
    {
        Probe {
            cluster: self.cluster,
            origin: None,
            client: self.client,
            token,
            asks_reach,
        }
    }
}

/// The report with that token.
pub fn report_with<'a>(reports: &'a [Report], token: u64) -> Option<&'a Report>
    ensures some { is_some result ≡ has_token token reports.now }
    ensures report { option_copied result ≡ report_of token reports.now }
{
    for report in reports {
        if report.token == token {
            return Some(report);
        }
    }
    None
}

/// Whether one of the reports has that token.
pub fn is_reported(reports: &[Report], token: u64) -> bool
    ensures { result ≡ has_token token reports.now }
{
    report_with(reports, token).is_some()
}
