//! Probes the other members, and finds out by their reports whether this node hears a majority of them.

ghost use Rattle.std.specs.Prelude.{◌≡◌, ◌≤◌, length};
ghost use Rattle.lk_hearing.specs.Probes.{count_heard, hears_majority};
ghost use Rattle.lk_address_book.specs.Addresses.{IsSameNetwork};
ghost use Rattle.lk_transport.specs.Listening.{HearsReported, ProbesMember, ProbesMembers, ProbesRound};
ghost use Rattle.lk_transport.specs.Listening.{SendsSealedProbe, asks_state, is_expected_by, member_probe, reply_of};
ghost use Rattle.lk_transport.specs.Listening.{state_told};
ghost use Rattle.lk_transport.specs.Posts.{send_state_of};

use crate::post::{SocketPost, framed, route};
use crate::socket::DatagramSocket;
use lk_hearing::hearing::{Reply, SentProbe};
use lk_hearing::token_source::TokenSource;
use lk_node_interface::{SendFault, To};
use lk_probe::neighbours::Origin;
use lk_probe::reported::Reported;
use lk_probe::{Probe, Reach, StateDigest};
use lk_types::{Member, NodeNo};
use std::net::SocketAddr;

// In so many periods one round of probes asks for a digest. A round is due in each second period.
const STATE_ROUND: u64 = 50;

// Whether the probes of period `now` ask for a digest.
fn asks_state(now: u64) -> bool
    ensures { result ≡ asks_state now }
{
    now % STATE_ROUND >= STATE_ROUND - 2
}

// Returns the reply that a report is.
fn reply_of(reported: &Reported) -> Reply
    ensures { result ≡ reply_of reported.now }
{
    Reply {
        node: reported.reporter.node,
        token: reported.token,
    }
}

impl<S: DatagramSocket + Drop> SocketPost<S> {
    /// Returns how many of these members this node hears in period `now`; itself it always hears.
    pub fn count_heard(&self, members: &[Member], now: u64) -> usize
        ensures value { result ≡ count_heard self.now.node now self.now.addresses.hearing.asked members.now }
        ensures most { result ≤ length members.now }
    {
        self.addresses.count_heard(self.node, members, now)
    }

    /// Whether this node hears more than half of these members in period `now`.
    pub fn hears_majority(&self, members: &[Member], now: u64) -> bool
        ensures { result ≡ hears_majority self.now.node now self.now.addresses.hearing.asked members.now }
    {
        self.addresses.hears_majority(self.node, members, now)
    }

    /// Returns the reach to report of a node that hears this many members, or does not find that out, and keeps that
    /// many watches and names and that digest: with what its socket does with bundles.
    pub fn reach(&self, heard: Option<u8>, watches: u16, names: u16, state: StateDigest) -> Reach
        ensures heard { result.heard ≡ heard }
        ensures watches { result.watches ≡ watches }
        ensures names { result.names ≡ names }
        ensures state { result.state ≡ state }
    {
        Reach {
            heard,
            reads_bundles: self.socket.reads_bundles(),
            sends_bundles: self.socket.sends_bundles(),
            watches,
            names,
            state,
        }
    }

    // Whether a report replies to a probe that this node remembers, and its node has this genesis.
    fn expects(&self, reported: &Reported) -> bool
        ensures { result ≡ is_expected_by self.now.addresses reported.now }
    {
        let reply = reply_of(reported);
        let seals = self.addresses.seals();
        reported.reporter.genesis == seals.genesis && self.addresses.expects(&reply)
    }

    /// Returns the node that reports, and the digest of its state that it tells. `None` if the report replies to no
    /// probe that this node remembers, or its node has another genesis.
    pub fn state_told(&self, reported: &Reported) -> Option<(NodeNo, StateDigest)>
        ensures { result ≡ state_told self.now.addresses reported.now }
    {
        if !self.expects(reported) {
            return None;
        }
        Some((reported.reporter.node, reported.state))
    }

    /// Records a report that came in period `now` as a reply to a probe, if its node has this genesis.
    pub fn note_reply(&mut self, reported: &Reported, now: u64)
        ensures hears { HearsReported now reported.now self.old.addresses self.new.addresses }
        ensures network { IsSameNetwork self.old.addresses self.new.addresses }
        ensures others { self.new ≡ record self.old { addresses = self.new.addresses } }
    {
        let seals = self.addresses.seals();
        if reported.reporter.genesis != seals.genesis {
            return;
        }
        self.addresses.note_reply(&reply_of(reported), now);
    }

    // Returns the probe of this node with that token, in form 2 if it asks for a digest.
    fn member_probe(&self, asks_state: bool, token: u64) -> Probe
        ensures { result ≡ member_probe self.now.addresses.seals self.now.node asks_state token }
    {
        Probe {
            cluster: self.addresses.seals().cluster,
            origin: Some(Origin {
                node: self.node,
                genesis: self.genesis(),
            }),
            client: None,
            token,
            asks_reach: asks_state,
        }
    }

    // Sends the probe with that token to a member at an address, sealed if the nodes have a key.
    fn send_member_probe(
        &mut self,
        to: &To,
        address: SocketAddr,
        asks_state: bool,
        token: u64,
    ) -> Result<(), SendFault>
        ensures sends { SendsSealedProbe S.is_observable self.old.addresses.seals to.now
            (member_probe self.old.addresses.seals self.old.node asks_state token) address
            (send_state_of self.old) (send_state_of self.new) }
        ensures still { S.is_observable → self.new.incoming ≡ self.old.incoming }
        ensures others { self.new
            ≡ record self.old {
              sent = self.new.sent;
              socket_failures = self.new.socket_failures;
              incoming = self.new.incoming;
            } }
    {
        let probe = self.member_probe(asks_state, token).datagram();
        let datagram = probe.as_slice();
        let Ok(framed) = framed(self.addresses.seals(), to, datagram, &mut self.frame) else {
            return Err(SendFault);
        };
        self.socket.send_to(address, framed)
    }

    // Probes a member with that token, if its address is known and it is another node. Returns whether no send failed.
    fn probe_member(&mut self, member: Member, asks_state: bool, token: u64) -> bool
        ensures probes { ProbesMember S.is_observable self.old.node asks_state member token
            self.old.addresses self.new.addresses
            (send_state_of self.old) (send_state_of self.new) }
        ensures network { IsSameNetwork self.old.addresses self.new.addresses }
        ensures still { S.is_observable → self.new.incoming ≡ self.old.incoming }
        ensures others { self.new
            ≡ record self.old {
              addresses = self.new.addresses;
              sent = self.new.sent;
              socket_failures = self.new.socket_failures;
              incoming = self.new.incoming;
            } }
    {
        if member.node == self.node {
            return true;
        }
        let to = To::Node(member.node, member.port.get());
        let Some(address) = route(&self.addresses, &to) else {
            return true;
        };
        self.addresses.note_sent(SentProbe {
            node: member.node,
            token,
        });
        self.send_member_probe(&to, address, asks_state, token)
            .is_ok()
    }

    // Probes each of these members but the node itself, each with a token of its own. Returns how many sends failed.
    fn probe_members(
        &mut self,
        members: &[Member],
        asks_state: bool,
        tokens: &mut TokenSource,
    ) -> u64
        ensures probes { ProbesMembers S.is_observable self.old.node asks_state members.now
            self.old.addresses self.new.addresses
            (send_state_of self.old) (send_state_of self.new) }
        ensures network { IsSameNetwork self.old.addresses self.new.addresses }
        ensures still { S.is_observable → self.new.incoming ≡ self.old.incoming }
        ensures others { self.new
            ≡ record self.old {
              addresses = self.new.addresses;
              sent = self.new.sent;
              socket_failures = self.new.socket_failures;
              incoming = self.new.incoming;
            } }
    {
        let mut lost = 0u64;
        'members: for member in members {
            if !self.probe_member(*member, asks_state, tokens.draw()) {
                lost = lost.saturating_add(1);
            }
        }
        lost
    }

    /// Probes the other members, if that is due in period `now`, in one of fifty periods for a digest of their states
    /// too. Returns how many sends failed.
    pub fn probe_round(&mut self, members: &[Member], now: u64, tokens: &mut TokenSource) -> u64
        ensures probes { ProbesRound S.is_observable self.old.node now members.now self.old.addresses self.new.addresses
            (send_state_of self.old) (send_state_of self.new) }
        ensures network { IsSameNetwork self.old.addresses self.new.addresses }
        ensures still { S.is_observable → self.new.incoming ≡ self.old.incoming }
        ensures others { self.new
            ≡ record self.old {
              addresses = self.new.addresses;
              sent = self.new.sent;
              socket_failures = self.new.socket_failures;
              incoming = self.new.incoming;
            } }
    {
        if !self.addresses.begin_round(now) {
            return 0;
        }
        self.probe_members(members, asks_state(now), tokens)
    }
}
