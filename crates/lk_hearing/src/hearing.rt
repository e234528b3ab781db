//! The probes that a node sends to the other members, and the replies by which it hears them.

ghost use Rattle.std.specs.Prelude.{◌≡◌, ◌↔◌, ◌≤◌, length, IsTrue};
ghost use Rattle.lk_hearing.specs.Probes.{IsHeard, answered, answered_at, is_reply, is_recent, counts_for, hears};
ghost use Rattle.lk_hearing.specs.Probes.{count_heard, hears_majority, having_sent, having_heard, having_begun};
ghost use Rattle.lk_hearing.specs.Probes.{is_expected, is_reply_at, is_round_due, nothing_sent};

use lk_types::{Member, NodeNo};
use std::marker::Model;

// How many periods pass from one round of probes to the next.
const ROUND: u64 = 2;

// How many probes are remembered: with six others, those of the last 36 periods.
const PROBES: usize = 112;

// For how many periods a reply counts, the one in which it came included.
const WINDOW: u64 = 8;

/// A probe that was sent to a member.
#[derive(Clone, Copy)]
pub struct SentProbe {
    /// The member.
    pub node: NodeNo,
    /// The number that the reply has to repeat.
    pub token: u64,
}

/// A report that came from a node.
#[derive(Clone, Copy)]
pub struct Reply {
    /// The node that reports.
    pub node: NodeNo,
    /// The token that it repeats.
    pub token: u64,
}

/// A probe, and in which period its first reply came, if one did.
#[derive(Clone, Copy)]
pub struct Asked {
    pub probe: SentProbe,
    pub replied: Option<u64>,
}

/// The last 112 probes of a node, each with its reply. A period is 100 ms of the node's clock; periods are counted from
/// its start. The size is fixed, whatever arrives.
#[derive(Drop)]
pub struct Hearing {
    // the most recent first
    asked: [Option<Asked>; PROBES],
    // the period in which the next probes are due
    next_round: u64,
}

impl Model for Hearing {
    ghost use Rattle.lk_hearing.specs.Probes.{HearingValue};

    ghost Value = { HearingValue };

    ghost view = { λ h. record { asked = h.asked; next_round = h.next_round } };
}

impl SentProbe {
    // Whether a report replies to this probe: node and token are the same.
    fn is_answered_by(&self, reply: &Reply) -> bool
        ensures { result ≡ is_reply reply.now self.now }
    {
        reply.node == self.node && reply.token == self.token
    }
}

impl Asked {
    // Returns the probe after this report: replied to in this period if the report is the first that replies to it.
    fn answered(self, reply: &Reply, now: u64) -> Asked
        ensures { result ≡ answered reply.now now self }
    {
        if self.replied.is_some() || !self.probe.is_answered_by(reply) {
            return self;
        }
        Asked {
            probe: self.probe,
            replied: Some(now),
        }
    }

    // Whether the reply came in this period, or in one of the seven before it.
    fn is_recent(&self, now: u64) -> bool
        ensures { result ≡ is_recent now self.now.replied }
    {
        match self.replied {
            Some(period) => now.saturating_sub(period) < WINDOW,
            None => false,
        }
    }
}

// Whether an entry is a probe to that node, and has a recent reply.
fn counts_for(node: NodeNo, now: u64, entry: &Option<Asked>) -> bool
    ensures { result ≡ counts_for node now entry.now }
{
    match entry {
        Some(asked) => asked.probe.node == node && asked.is_recent(now),
        None => false,
    }
}

// Whether an entry is a probe to which a report replies.
fn is_reply_at(reply: &Reply, entry: &Option<Asked>) -> bool
    ensures { result ≡ is_reply_at reply.now entry.now }
{
    match entry {
        Some(asked) => asked.probe.is_answered_by(reply),
        None => false,
    }
}

// Whether a report replies to one of the entries.
fn is_expected(reply: &Reply, entries: &[Option<Asked>]) -> bool
    ensures { result ≡ is_expected reply.now entries.now }
{
    for entry in entries {
        if is_reply_at(reply, entry) {
            return true;
        }
    }
    false
}

// Returns an entry after this report.
fn answered_at(reply: &Reply, now: u64, entry: Option<Asked>) -> Option<Asked>
    ensures { result ≡ answered_at reply.now now entry }
{
    match entry {
        Some(asked) => Some(asked.answered(reply, now)),
        None => None,
    }
}

// Notes this report at each probe to which it is the first reply.
fn answer_all(entries: &mut [Option<Asked>], reply: &Reply, now: u64)
    ensures { entries.new ≡ having_heard reply.now now entries.old }
{
    for entry in entries.iter_mut() {
        *entry = answered_at(reply, now, *entry);
    }
}

// Whether one of the entries counts for that node.
fn hears(node: NodeNo, now: u64, entries: &[Option<Asked>]) -> bool
    ensures { result ≡ hears node now entries.now }
{
    for entry in entries {
        if counts_for(node, now, entry) {
            return true;
        }
    }
    false
}

impl Hearing {
    /// Nothing was sent yet.
    pub fn new() -> Hearing
        ensures { result ≡ nothing_sent }
    {
        Hearing {
            asked: [None; PROBES],
            next_round: 1,
        }
    }

    /// Returns whether probes are due in period `now`: in each second one, the first among them. If so, the next are
    /// due two periods later.
    pub fn begin_round(&mut self, now: u64) -> bool
        ensures due { result ≡ is_round_due now self.old }
        ensures next { self.new ≡ having_begun now self.old }
    {
        if now < self.next_round {
            return false;
        }
        self.next_round = now.saturating_add(ROUND);
        true
    }

    /// Records a probe that was sent. The oldest of 112 is forgotten.
    pub fn note_sent(&mut self, probe: SentProbe)
        ensures { self.new ≡ record self.old { asked = having_sent probe self.old.asked } }
    {
        self.asked.rotate_right(1);
        self.asked[0] = Some(Asked {
            probe,
            replied: None,
        });
    }

    /// Records a report that came in period `now`. It counts if it is the first reply to one of the last 112 probes.
    pub fn note_reply(&mut self, reply: &Reply, now: u64)
        ensures { self.new ≡ record self.old { asked = having_heard reply.now now self.old.asked } }
    {
        answer_all(&mut self.asked, reply, now);
    }

    /// Whether a report replies to one of the last 112 probes.
    pub fn expects(&self, reply: &Reply) -> bool
        ensures { result ≡ is_expected reply.now self.now.asked }
    {
        is_expected(reply, &self.asked)
    }

    /// Whether a node is heard in period `now`: it replied to a probe in this period or in one of the seven before it.
    pub fn hears(&self, node: NodeNo, now: u64) -> bool
        ensures value { result ≡ hears node now self.now.asked }
        ensures heard { IsTrue result ↔ IsHeard node now self.now.asked }
    {
        hears(node, now, &self.asked)
    }

    /// Returns how many of these members are heard in period `now`. The node itself, `own`, always is.
    pub fn count_heard(&self, own: NodeNo, members: &[Member], now: u64) -> usize
        ensures value { result ≡ count_heard own now self.now.asked members.now }
        ensures most { result ≤ length members.now }
    {
        let mut count = 0;
        for member in members {
            if member.node == own || self.hears(member.node, now) {
                count += 1;
            }
        }
        count
    }

    /// Whether more than half of these members are heard in period `now`.
    pub fn hears_majority(&self, own: NodeNo, members: &[Member], now: u64) -> bool
        ensures { result ≡ hears_majority own now self.now.asked members.now }
    {
        members.len() < 2 * self.count_heard(own, members, now)
    }
}
