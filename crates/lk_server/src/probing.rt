//! Composes a node's report, and replies to a probe with it.

ghost use Rattle.std.specs.Prelude.{◌≡◌, ◌≤◌, ◌+◌, length, min};
ghost use Rattle.lk_types.specs.Limits.{max_members};
ghost use Rattle.lk_server.specs.Probes.{RepliesToKept, IsReportTo, ReportsStatus, TellsSilence};
ghost use Rattle.lk_server.specs.Servers.{heard_by, periods};
ghost use Rattle.lk_transport.specs.Askers.{IsReplyAddress};
ghost use Rattle.lk_server_replica.specs.declared.probed_state.ProbedState.{ProbedState as ProbedStateValue};
ghost use Rattle.lk_server_replica.specs.declared.replica_status.ReplicaStatus.{ReplicaStatus as ReplicaStatusValue};

use crate::server::Server;
use lk_probe::{Identity, Leadership, PROGRAM, ProbeDatagram, Reach, Status, Traffic};
use lk_server_replica::{ProbedState, ServerReplica, TableVersion};
use lk_transport::received_probe::ReceivedProbe;
use lk_transport::socket::DatagramSocket;
use lk_types::Member;
use std::net::SocketAddr;

impl<R: ServerReplica, S: DatagramSocket + Drop> Server<R, S> {
    // Returns for how many periods a replica that shows this silence has heard no leader.
    fn silence_of(&self, shown: u64) -> u64
        ensures is { result ≡ min (shown + min self.now.quiet self.now.withheld) 18446744073709551615 }
        ensures least { shown ≤ result }
        ensures most { result ≤ shown + self.now.withheld }
    {
        let withheld = self.silence.periods().min(self.withheld);
        shown.saturating_add(withheld)
    }

    /// Returns for how many periods it has heard no leader, or since its start if it never did; 0 while it seeks votes.
    pub fn silence(&self) -> u64
        ensures { (status : ReplicaStatusValue) × R.HasStatus self.now.replica status
            × (result ≡ min (status.silence + min self.now.quiet self.now.withheld) 18446744073709551615) }
    {
        self.silence_of(self.replica.status().silence)
    }

    // Returns the leadership that it tells: what the replica shows, with the silence in periods.
    fn leadership_of(&self, shown: Leadership) -> Leadership
        ensures { TellsSilence self.now.withheld self.now.quiet shown result }
    {
        Leadership {
            silence: self.silence_of(shown.silence),
            ..shown
        }
    }

    // Returns what it reports of its node, whose replica shows this.
    fn status_of(&self, shown: ProbedState) -> Status
        ensures { ReportsStatus self.now.addresses.seals.genesis (periods self.now) self.now.withheld self.now.quiet
            shown result }
    {
        Status {
            identity: Identity {
                genesis: self.post.genesis(),
                program: PROGRAM,
                format: shown.format,
                table: self.table.number(),
            },
            leadership: self.leadership_of(shown.leadership),
            progress: shown.progress,
            traffic: Traffic {
                waiting: shown.waiting,
                unread: self.ignored.unread(),
                unsent: self.unsent,
                ticks: self.now(),
            },
            members: shown.members,
        }
    }

    /// Returns what it reports of its node: what the replica shows, the silence in periods, the digest of the genesis,
    /// its count of periods and what else it has counted, and the version of the lock table, as it was last read.
    pub fn status(&self) -> Status
        ensures { (shown : ProbedStateValue) × R.Shows self.now.replica shown
            × ReportsStatus self.now.addresses.seals.genesis (periods self.now) self.now.withheld self.now.quiet
            shown result }
    {
        self.status_of(self.replica.show())
    }

    // Returns how many of these members it hears, itself included; `None` where ticks go by datagrams, and it does not
    // find that out.
    fn heard_of(&self, members: &[Member]) -> Option<u8>
        requires { length members.now ≤ max_members }
        ensures { result ≡ heard_by members.now self.now }
    {
        if !self.pace.is_clock() {
            return None;
        }
        Some(self.post.count_heard(members, self.now()) as u8)
    }

    // Returns how many watches it keeps.
    fn count_watches(&self) -> u16
        ensures { result ≡ length self.now.waiting.queue.waiters }
    {
        // It does nothing; by its contract there are at most 1,024.
        self.watches.facts();
        self.watches.len() as u16
    }

    // Returns whom it hears of the members that its replica shows, what its socket does with bundles, how many watches
    // and names it keeps, and the digest that it took last.
    fn reach_of(&self, shown: &ProbedState) -> Reach
        ensures heard { result.heard ≡ heard_by shown.now.members self.now }
        ensures watches { result.watches ≡ length self.now.waiting.queue.waiters }
        ensures names { result.names ≡ shown.now.names }
        ensures state { result.state ≡ self.now.digest }
    {
        shown.members.facts();
        let heard = self.heard_of(shown.members.as_slice());
        let watches = self.count_watches();
        self.post.reach(heard, watches, shown.names, self.digest)
    }

    // Returns the version of the lock table, which it reads if that is unknown.
    fn known_table(&self) -> TableVersion {
        match self.table {
            TableVersion::Unread => TableVersion::of(self.replica.is_raised(self.alloc)),
            known => known,
        }
    }

    // Returns the report that replies to a probe: the server's status, with what its replica shows now, and whom it
    // hears, how many watches and names it keeps now and the digest that it took last, if the probe asks for that.
    fn report(&self, asked: &ReceivedProbe) -> ProbeDatagram
        ensures { (shown : ProbedStateValue) × R.Shows self.now.replica shown
            × IsReportTo self.now.node self.now.addresses.seals.genesis (periods self.now) self.now.withheld
            self.now.quiet (heard_by shown.members self.now) (length self.now.waiting.queue.waiters) self.now.digest
            shown asked.now.probe result }
    {
        let shown = self.replica.show();
        let reach = self.reach_of(&shown);
        let status = self.status_of(shown);
        let report = asked.probe.report(self.post.node(), status, reach);
        report.datagram()
    }

    // Returns where the report that replies to a probe goes: to a member where its envelopes go, else to where the
    // probe came from.
    fn address_for(&self, asked: &ReceivedProbe) -> SocketAddr
        ensures { (shown : ProbedStateValue) × R.Shows self.now.replica shown
            × IsReplyAddress self.now.addresses shown.members asked.now result }
    {
        let shown = self.replica.show();
        self.post.reply_address(shown.members.as_slice(), asked)
    }

    /// Sends the report that replies to a probe, if there is one: to a member where its envelopes go, else to where the
    /// probe came from. Reads the lock table's version first if that is unknown. A failed send is counted.
    pub fn report_to(&mut self, asked: &Option<ReceivedProbe>)
        ensures replies { RepliesToKept R.Shows S.is_observable asked.now self.old self.new }
        ensures others { self.new
            ≡ record self.old {
              sent = self.new.sent;
              socket_failures = self.new.socket_failures;
              incoming = self.new.incoming;
            } }
    {
        let Some(asked) = asked else {
            return;
        };
        self.table = self.known_table();
        let report = self.report(asked);
        let address = self.address_for(asked);
        let report = report.as_slice();
        if self.post.reply(asked, address, report).is_err() {
            self.unsent = self.unsent.saturating_add(1);
        }
    }
}
