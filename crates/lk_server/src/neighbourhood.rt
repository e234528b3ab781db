//! How a server handles probes after a turn: it replies to one, and finds out which genesis each node that writes to it
//! was started with.

ghost use Rattle.std.specs.Prelude.{◌≡◌, None, not};
ghost use Rattle.lk_probe.specs.Neighbours.{bound_in};
ghost use Rattle.lk_address_book.specs.Addresses.{IsSameFilter, IsSameNetwork};
ghost use Rattle.lk_hearing.specs.Probes.{count_heard, hears_majority};
ghost use Rattle.lk_transport.specs.Inquiring.{AsksOne};
ghost use Rattle.lk_address_book.specs.Inquiries.{LearnsKept};
ghost use Rattle.lk_transport.specs.Listening.{HearsKept, ProbesRound};
ghost use Rattle.lk_server.specs.ProbeHandling.{HandlesProbes, ListensIf, RecordsMember, Welcomes};
ghost use Rattle.lk_server.specs.Servers.{periods, send_state_at};

use crate::server::Server;
use lk_probe::StateDigest;
use lk_probe::neighbours::{Neighbour, Origin};
use lk_probe::reported::Reported;
use lk_server_log::{log_apart, log_stranger};
use lk_server_replica::ServerReplica;
use lk_transport::receive_buffer::ReceiveBuffer;
use lk_transport::received_probe::ReceivedProbe;
use lk_transport::socket::DatagramSocket;
use lk_types::NodeNo;
use log::Log;

// A minute in periods of 100 ms. Where ticks go by datagrams they may be faster.
const MINUTE: u64 = 600;

impl<R: ServerReplica, S: DatagramSocket + Drop> Server<R, S> {
    /// Returns the node's number and the digest of its genesis.
    pub fn origin(&self) -> Origin
        ensures { result ≡ record { node = self.now.node; genesis = self.now.addresses.seals.genesis } }
    {
        Origin {
            node: self.post.node(),
            genesis: self.post.genesis(),
        }
    }

    // Whether 600 periods have passed since that count of them, if it is one.
    pub(crate) fn is_minute_past(&self, noted: Option<u64>) -> bool {
        match noted {
            Some(periods) => self.now().saturating_sub(periods) >= MINUTE,
            None => true,
        }
    }

    // Logs a warning, and records an event, that it hears a node of another genesis: once in 600 periods at most.
    pub(crate) fn warn_of_stranger<L: Log>(&mut self, node: NodeNo, log: &L)
        ensures { self.new ≡ self.old }
    {
        if self.is_minute_past(self.stranger_warned) {
            self.stranger_warned = Some(self.now());
            self.events.stranger = Some(node);
            log_stranger(log, node);
        }
    }

    // Warns of the node that a report was learned from, if it is of another genesis.
    fn warn_if_stranger<L: Log>(&mut self, learned: Option<Neighbour>, log: &L)
        ensures { self.new ≡ self.old }
    {
        let Some(neighbour) = learned else {
            return;
        };
        if let Some(other) = neighbour.as_stranger() {
            self.warn_of_stranger(other.node, log);
        }
    }

    // Records the address of a probe if another node of this genesis sent it that is a member after all joins and
    // leaves so far: without keys only if no address of it is known.
    fn record_prober(&mut self, asked: &ReceivedProbe)
        ensures records { RecordsMember R.Shows asked.now self.old.replica self.old.node
            self.old.addresses self.new.addresses }
        ensures network { IsSameFilter self.old.addresses self.new.addresses }
        ensures others { self.new ≡ record self.old { addresses = self.new.addresses } }
    {
        let shown = self.replica.show();
        self.post.record_prober(shown.newest.as_slice(), asked);
    }

    // Hears the address of a probe again, if another genesis was known there and the probe names a node of this one.
    // Records it if that node is a member or has joined.
    #[tactic(auto, using(crate::proofs::Acting::same_place))]
    fn readmit(&mut self, asked: &Option<ReceivedProbe>)
        ensures readmits { Welcomes R.Shows asked.now self.old.replica self.old.node
            self.old.addresses self.new.addresses }
        ensures network { IsSameNetwork self.old.addresses self.new.addresses }
        ensures others { self.new ≡ record self.old { addresses = self.new.addresses } }
    {
        let Some(asked) = asked else {
            return;
        };
        self.post.readmit(asked);
        self.record_prober(asked);
    }

    // Records the genesis of the node of a report, if there is one, and warns if it is another.
    fn learn<L: Log>(&mut self, reported: &Option<Reported>, log: &L)
        ensures learns { LearnsKept self.old.node reported.now self.old.addresses self.new.addresses }
        ensures network { IsSameNetwork self.old.addresses self.new.addresses }
        ensures others { self.new ≡ record self.old { addresses = self.new.addresses } }
    {
        let Some(reported) = reported else {
            return;
        };
        let learned = self.post.learn(reported);
        self.warn_if_stranger(learned, log);
    }

    // Probes one address for the genesis of its node, if that is due at this count of ticks. A failed send is counted.
    pub(crate) fn probe_next(&mut self, now: u64)
        ensures asks { AsksOne S.is_observable now self.old.node self.old.addresses self.new.addresses
            (send_state_at self.old.loopback self.old) (send_state_at self.new.loopback self.new) }
        ensures network { IsSameNetwork self.old.addresses self.new.addresses }
        ensures still { S.is_observable → self.new.incoming ≡ self.old.incoming }
        ensures others { self.new
            ≡ record self.old {
              addresses = self.new.addresses;
              sent = self.new.sent;
              socket_failures = self.new.socket_failures;
              incoming = self.new.incoming;
            } }
    {
        if self.post.probe_next(now).is_err() {
            self.unsent = self.unsent.saturating_add(1);
        }
    }

    // Returns how many periods have ended since its start: each ended with a tick or a nudge, or with a tick withheld.
    pub(crate) fn now(&self) -> u64
        ensures { result ≡ periods self.now }
    {
        self.ticks.saturating_add(self.withheld)
    }

    /// Whether it was found to hear too few members: then ticks are withheld, and clients' requests are dropped.
    pub fn is_deaf(&self) -> bool
        ensures { result ≡ self.now.addresses.deaf }
    {
        self.post.is_deaf()
    }

    /// Returns how many of the members of the next position it hears, itself included.
    pub fn count_heard(&self) -> u8
        ensures { result
            ≡ count_heard self.now.node (periods self.now) self.now.addresses.hearing.asked
            (R.members self.now.replica) }
    {
        let members = self.replica.members();
        members.facts();
        self.post.count_heard(members.as_slice(), self.now()) as u8
    }

    // Logs a warning that a node tells another state than its own at one position: once in 600 periods at most.
    fn warn_of_state<L: Log>(&mut self, node: NodeNo, told: &StateDigest, log: &L)
        ensures { self.new ≡ self.old }
    {
        if self.digest.differs_from(told) && self.is_minute_past(self.state_warned) {
            self.state_warned = Some(self.now());
            log_apart(log, node, told.position);
        }
    }

    // Records for the events which state a report tells, if it replies to a probe of this server.
    fn note_state<L: Log>(&mut self, reported: &Reported, log: &L)
        ensures { self.new ≡ self.old }
    {
        self.events.told = self.post.state_told(reported);
        if let Some((node, told)) = self.events.told {
            self.warn_of_state(node, &told, log);
        }
    }

    // Counts the kept report as a reply to a probe, if there is one. Records the state that it tells for the events.
    fn hear<L: Log>(&mut self, reported: &Option<Reported>, now: u64, log: &L)
        ensures hears { HearsKept now reported.now self.old.addresses self.new.addresses }
        ensures network { IsSameNetwork self.old.addresses self.new.addresses }
        ensures others { self.new ≡ record self.old { addresses = self.new.addresses } }
    {
        if let Some(reported) = reported {
            self.note_state(reported, log);
            self.post.note_reply(reported, now);
        }
    }

    // Probes the other members of the next position, if that is due in this period. A failed send is counted.
    fn probe_members(&mut self, now: u64)
        ensures probes { ProbesRound S.is_observable self.old.node now (R.members self.old.replica)
            self.old.addresses self.new.addresses
            (send_state_at self.old.loopback self.old) (send_state_at self.new.loopback self.new) }
        ensures network { IsSameNetwork self.old.addresses self.new.addresses }
        ensures still { S.is_observable → self.new.incoming ≡ self.old.incoming }
        ensures others { self.new
            ≡ record self.old {
              addresses = self.new.addresses;
              sent = self.new.sent;
              socket_failures = self.new.socket_failures;
              incoming = self.new.incoming;
            } }
    {
        let members = self.replica.members().as_slice();
        let lost = self.post.probe_round(members, now, &mut self.tokens);
        self.unsent = self.unsent.saturating_add(lost);
    }

    // Finds out whether it hears a majority of the members of the next position: without one it is deaf.
    fn judge(&mut self, now: u64)
        ensures { self.new ≡ record self.old {
          addresses = record self.old.addresses {
            deaf = not (hears_majority self.old.node now self.old.addresses.hearing.asked
                (R.members self.old.replica));
          };
        } }
    {
        let members = self.replica.members().as_slice();
        let hears = self.post.hears_majority(members, now);
        self.post.set_deaf(!hears);
    }

    // Where ticks go by the clock: counts the kept report, probes the members of the next position if that is due, and
    // finds out whether it hears a majority of them.
    fn listen<L: Log>(&mut self, reported: &Option<Reported>, log: &L)
        ensures listens { ListensIf R.members S.is_observable reported.now self.old self.new }
        ensures network { IsSameNetwork self.old.addresses self.new.addresses }
        ensures still { S.is_observable → self.new.incoming ≡ self.old.incoming }
        ensures others { self.new
            ≡ record self.old {
              addresses = self.new.addresses;
              sent = self.new.sent;
              socket_failures = self.new.socket_failures;
              incoming = self.new.incoming;
            } }
    {
        if !self.pace.is_clock() {
            return;
        }
        let now = self.now();
        self.hear(reported, now, log);
        self.probe_members(now);
        self.judge(now);
    }

    // Returns the first node of another genesis that this one has followed: one that sent it a Prepare, an Accept, a
    // Lead or a Decided.
    fn followed_stranger(&self) -> Option<Origin>
        ensures { result ≡ bound_in self.now.addresses.neighbours }
    {
        self.post.followed_stranger()
    }

    /// Handles probes after the envelopes of a turn. It replies to the probe that the buffer keeps; if the node that
    /// sent it has this genesis, that node's datagrams are taken again. It learns from the report that the buffer
    /// keeps, and asks one node for its genesis if that is due. Where ticks go by the clock it probes the members if
    /// that is due, and finds out whether it hears a majority of them. Returns the first node of another genesis that
    /// this one has followed, if there is one; the caller then ends the node.
    pub fn handle_probes<L: Log>(&mut self, buffer: &mut ReceiveBuffer, log: &L) -> Option<Origin>
        ensures acts { HandlesProbes R.Shows R.members S.is_observable buffer.old.asked buffer.old.reported
            self.old self.new }
        ensures kept { buffer.new ≡ record buffer.old { asked = None; reported = None } }
        ensures bound { result ≡ bound_in self.new.addresses.neighbours }
    {
        let asked = buffer.pop_probe();
        let reported = buffer.pop_reported();
        self.report_to(&asked);
        self.readmit(&asked);
        self.learn(&reported, log);
        let now = self.now();
        self.probe_next(now);
        self.listen(&reported, log);
        self.followed_stranger()
    }
}
