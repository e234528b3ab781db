// The status that a report carries, and the sizes of its parts.
ghost use Rattle.std.specs.Prelude.{IfSome};
ghost use Rattle.lk_types.specs.Ranges.{IsNode};
ghost use Rattle.lk_probe.specs.Grammar.{IsIdentity, IsLeadership, IsProgress, IsTraffic, IsStatus};

use lk_types::{Ballot, Executed, Members, NodeNo};

/// The length of the SHA-256 digest of a genesis, in bytes.
pub const DIGEST: usize = 32;

/// The length of a probe's datagram in form 1, and of a report's, in bytes.
pub const LENGTH: usize = 174;

/// How many bytes form 2 has after these.
pub const REACH: usize = 32;

/// The length of the digest of a state, in bytes.
pub const STATE_DIGEST: usize = 16;

/// The version of a program.
#[derive(Clone, Copy, PartialEq, Eq)]
pub struct Version {
    pub major: u8,
    pub minor: u8,
    pub patch: u8,
}

/// The version of this program.
pub const PROGRAM: Version = Version {
    major: 0,
    minor: 1,
    patch: 0,
};

/// The genesis of a node, and the versions of its program, store and lock table.
#[derive(Clone, Copy)]
pub struct Identity {
    /// The SHA-256 digest of its genesis.
    pub genesis: [u8; DIGEST],
    /// The version of its program.
    pub program: Version,
    /// The format of its store.
    pub format: u8,
    /// The version of its lock table: 2 once that is raised, 1 before, 0 if the node does not report it.
    pub table: u8,
}

/// Who leads, as far as a node knows.
#[derive(Clone, Copy)]
pub struct Leadership {
    /// Whether it leads.
    pub leads: bool,
    /// The node that it takes for the leader.
    pub leader: Option<NodeNo>,
    /// For how many periods, by datagrams ticks, it has heard of no leader, or since its start if it never did; 0 while
    /// it seeks votes.
    pub silence: u64,
    /// The ballot that it has promised.
    pub promised: Ballot,
}

/// How far a node has executed the list.
#[derive(Clone, Copy)]
pub struct Progress {
    /// How many positions it has executed.
    pub executed: Executed,
    /// The position of its snapshot.
    pub snapshot: Executed,
    /// How many positions, from the next one on, precede the first for which the last join or leave is in force: 0 if
    /// none is pending, 255 if there are more.
    pub pending: u8,
}

/// Counts of a node's waiting requests, datagrams and ticks.
#[derive(Clone, Copy)]
pub struct Traffic {
    /// The requests that wait to be proposed, 65535 if there are more.
    pub waiting: u16,
    /// The datagrams since its start that could not be read.
    pub unread: u64,
    /// The sends that failed since its start.
    pub unsent: u64,
    /// The ticks since its start.
    pub ticks: u64,
}

/// What a node reports of itself to whoever probes it.
#[derive(Drop)]
pub struct Status {
    pub identity: Identity,
    pub leadership: Leadership,
    pub progress: Progress,
    pub traffic: Traffic,
    /// The members of the next position.
    pub members: Members,
}

/// Shows the prover that a node, if there is one, is in its range. Does nothing at run time.
pub fn node_facts(node: Option<NodeNo>)
    ensures { IfSome node IsNode }
{
    if let Some(node) = node {
        let _ = node.get();
    }
}

impl Identity {
    /// Shows the prover that each part is in its range. Does nothing at run time.
    pub fn facts(&self)
        ensures { IsIdentity self.now }
    {
        let Version {
            major: _major,
            minor: _minor,
            patch: _patch,
        } = self.program;
        let _genesis = self.genesis;
        let _format = self.format;
        let _table = self.table;
    }
}

impl Leadership {
    /// Shows the prover that each part is in its range. Does nothing at run time.
    pub fn facts(&self)
        ensures { IsLeadership self.now }
    {
        node_facts(self.leader);
        let _silence = self.silence;
        let _ = self.promised.round();
    }
}

impl Progress {
    /// Shows the prover that each part is in its range. Does nothing at run time.
    pub fn facts(&self)
        ensures { IsProgress self.now }
    {
        let _ = self.executed.get();
        let _ = self.snapshot.get();
        let _pending = self.pending;
    }
}

impl Traffic {
    /// Shows the prover that each part is in its range. Does nothing at run time.
    pub fn facts(&self)
        ensures { IsTraffic self.now }
    {
        let _waiting = self.waiting;
        let _unread = self.unread;
        let _unsent = self.unsent;
        let _ticks = self.ticks;
    }
}

impl Status {
    /// Shows the prover that each part is in its range. Does nothing at run time.
    pub fn facts(&self)
        ensures { IsStatus self.now }
    {
        self.identity.facts();
        self.leadership.facts();
        self.progress.facts();
        self.traffic.facts();
        self.members.facts();
    }
}
