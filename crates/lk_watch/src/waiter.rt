// A client in a queue, and the envelopes to it.
ghost use Rattle.std.specs.Prelude.{◌≡◌, ◌<◌, IsTrue, ◌↔◌};
ghost use Rattle.lk_watch.specs.Waiters.{is_of, waits_for, stage_at, is_passed, load, ignores, newcomer, renewed, aged};
ghost use Rattle.lk_watch.specs.Waiters.{aged_stage, next_stage, settled, told, weight};

use crate::notice::{News, Notice};
use crate::same_name::is_same;
use crate::standing::Standing;
use crate::ticket::{Mode, Ticket};
use crate::watch::Watch;
use lk_locks::Name;
use lk_types::limits::MAX_SHARERS;
use lk_types::{ClientNo, NodeNo};
use std::net::SocketAddr;

/// The most periods that a watch lives.
pub const MAX_PERIODS: u8 = 20;

/// The most datagrams that are sent for one watch.
pub const MAX_SENT: u8 = 4;

/// How often a client was told since the name was free last.
#[derive(Clone, Copy, PartialEq, Eq)]
pub enum Stage {
    NotYet,
    /// For the first time, in this period.
    JustNow,
    /// Once, in an earlier period.
    Once,
    Twice,
}

/// A client in a queue.
#[derive(Drop)]
pub struct Waiter {
    /// What its last watch says.
    pub ticket: Ticket,
    /// Where its watches come from, and where its notices go.
    pub address: SocketAddr,
    /// How many periods it lives.
    pub periods: u8,
    /// Whether it waits. If not, it was granted the name or withdrew, and only its number is kept.
    pub waits: bool,
    /// How many datagrams were sent for its last watch.
    pub sent: u8,
    /// The fence at which the name was free when the client was told last.
    pub opening: u64,
    /// How often it was told at that fence.
    pub stage: Stage,
}

/// A notice that a queue hands out, and where it goes.
#[derive(Drop)]
pub struct Envelope {
    pub to: SocketAddr,
    /// The watch that it answers.
    pub ticket: Ticket,
    pub news: News,
    /// The client's place in the queue for the name, from 1; 0 if it does not wait there.
    pub place: u16,
}

impl Envelope {
    /// Returns the notice of a node of that cluster.
    pub fn notice(&self, cluster: u64, node: NodeNo) -> Notice
        ensures { result ≡ record {
          cluster = cluster;
          node = node;
          ticket = self.now.ticket;
          news = self.now.news;
          place = self.now.place;
        } }
    {
        Notice {
            cluster,
            node,
            ticket: self.ticket.copy(),
            news: self.news,
            place: self.place,
        }
    }
}

// Returns how many places a client takes before those who came later.
fn weight(mode: Mode) -> usize
    ensures { result ≡ weight mode }
{
    match mode {
        Mode::Exclusive => usize::from(MAX_SHARERS),
        Mode::Share => 1,
    }
}

impl Stage {
    // Returns the stage after a period.
    fn aged(self) -> Stage
        ensures { result ≡ aged_stage self }
    {
        match self {
            Stage::JustNow => Stage::Once,
            other => other,
        }
    }

    // Returns the stage after one more notice.
    fn next(self) -> Stage
        ensures { result ≡ next_stage self }
    {
        match self {
            Stage::NotYet | Stage::JustNow => Stage::JustNow,
            Stage::Once | Stage::Twice => Stage::Twice,
        }
    }
}

impl Waiter {
    /// Returns the waiter of a watch that was answered.
    pub(crate) fn new(watch: &Watch, from: SocketAddr) -> Waiter
        ensures { result ≡ newcomer watch.now from }
    {
        Waiter {
            ticket: watch.ticket.copy(),
            address: from,
            periods: watch.periods.min(MAX_PERIODS),
            waits: true,
            sent: 1,
            opening: 0,
            stage: Stage::NotYet,
        }
    }

    /// Whether it is of that client, for that name.
    pub(crate) fn is_of(&self, client: ClientNo, name: &Name) -> bool
        ensures { result ≡ is_of client name.now self.now }
    {
        self.ticket.client == client && is_same(&self.ticket.name, name)
    }

    /// Whether it waits for that name.
    pub(crate) fn waits_for(&self, name: &Name) -> bool
        ensures { result ≡ waits_for name.now self.now }
    {
        self.waits && is_same(&self.ticket.name, name)
    }

    /// Whether it ignores a watch of its client for its name: the watch is not newer than its last one, or comes from
    /// another address.
    pub(crate) fn ignores(&self, watch: &Watch, from: SocketAddr) -> bool
        ensures { result ≡ ignores watch.now from self.now }
    {
        watch.ticket.number <= self.ticket.number || !(self.address == from)
    }

    /// Takes a newer watch of its client for its name, which was answered. It stops waiting if that withdraws.
    pub(crate) fn renew(&mut self, watch: &Watch)
        ensures { self.new ≡ renewed watch.now self.old }
    {
        self.ticket.number = watch.ticket.number;
        self.ticket.fence = watch.ticket.fence;
        self.ticket.mode = watch.ticket.mode;
        self.waits = watch.periods > 0;
        self.sent = 1;
        if self.waits {
            self.periods = watch.periods.min(MAX_PERIODS);
        }
    }

    /// Returns how often it was told since the name was free at that fence.
    pub(crate) fn stage_at(&self, opening: u64) -> Stage
        ensures { result ≡ stage_at opening self.now }
    {
        if self.opening == opening {
            self.stage
        } else {
            Stage::NotYet
        }
    }

    /// Whether it does not hold back those who came later: it was told in an earlier period, or cannot be told.
    pub(crate) fn is_passed(&self, opening: u64) -> bool
        ensures { result ≡ is_passed opening self.now }
    {
        match self.stage_at(opening) {
            Stage::NotYet => self.sent >= MAX_SENT,
            Stage::JustNow => false,
            Stage::Once | Stage::Twice => true,
        }
    }

    /// Returns how many places for that name it takes before those who came later.
    pub(crate) fn load(&self, standing: Standing, name: &Name) -> usize
        ensures { result ≡ load standing name.now self.now }
    {
        if self.waits_for(name)
            && standing.serves(&self.ticket)
            && !self.is_passed(standing.opening())
        {
            weight(self.ticket.mode)
        } else {
            0
        }
    }

    /// Counts a notice that tells it that the name is free, and returns it. Its place is that.
    pub(crate) fn tell(&mut self, opening: u64, place: u16) -> Envelope
        requires { self.old.sent < 255 }
        ensures envelope { result ≡ record {
          to = self.old.address;
          ticket = self.old.ticket;
          news = News.Free;
          place = place;
        } }
        ensures told { self.new ≡ told opening self.old }
    {
        self.stage = self.stage_at(opening).next();
        self.opening = opening;
        self.sent += 1;
        Envelope {
            to: self.address,
            ticket: self.ticket.copy(),
            news: News::Free,
            place,
        }
    }

    /// Passes that many periods.
    pub(crate) fn age(&mut self, count: u64)
        ensures { self.new ≡ aged count self.old }
    {
        self.periods = u64::from(self.periods).saturating_sub(count) as u8;
        if count > 0 {
            self.stage = self.stage.aged();
        }
    }

    /// Stops waiting if it was granted the name.
    pub(crate) fn settle(&mut self, is_granted: bool)
        ensures { self.new ≡ settled is_granted self.old }
    {
        self.waits = self.waits && !is_granted;
    }
}
