//! Which members a node hears, by the replies to its probes.

ghost use Rattle.std.specs.Prelude.{◌≡◌, ◌≤◌, length};
ghost use Rattle.lk_hearing.specs.Probes.{count_heard, hears_majority, having_begun, having_heard, having_sent};
ghost use Rattle.lk_hearing.specs.Probes.{is_expected, is_round_due};

use crate::addresses::Addresses;
use lk_hearing::hearing::{Reply, SentProbe};
use lk_types::{Member, NodeNo};

impl Addresses {
    /// Returns how many of these members are heard in period `now`; `own`, this node, always is.
    pub fn count_heard(&self, own: NodeNo, members: &[Member], now: u64) -> usize
        ensures value { result ≡ count_heard own now self.now.hearing.asked members.now }
        ensures most { result ≤ length members.now }
    {
        self.hearing.count_heard(own, members, now)
    }

    /// Whether `own`, this node, hears more than half of these members in period `now`.
    pub fn hears_majority(&self, own: NodeNo, members: &[Member], now: u64) -> bool
        ensures { result ≡ hears_majority own now self.now.hearing.asked members.now }
    {
        self.hearing.hears_majority(own, members, now)
    }

    /// Records a reply that came in period `now`.
    pub fn note_reply(&mut self, reply: &Reply, now: u64)
        ensures { self.new
            ≡ record self.old {
              hearing = record self.old.hearing { asked = having_heard reply.now now self.old.hearing.asked };
            } }
    {
        self.hearing.note_reply(reply, now);
    }

    /// Whether a report replies to one of the probes that are remembered.
    pub fn expects(&self, reply: &Reply) -> bool
        ensures { result ≡ is_expected reply.now self.now.hearing.asked }
    {
        self.hearing.expects(reply)
    }

    /// Records a probe that is sent.
    pub fn note_sent(&mut self, probe: SentProbe)
        ensures { self.new
            ≡ record self.old {
              hearing = record self.old.hearing { asked = having_sent probe self.old.hearing.asked };
            } }
    {
        self.hearing.note_sent(probe);
    }

    /// Whether probes are due in period `now`; if so, the next are due two periods later.
    pub fn begin_round(&mut self, now: u64) -> bool
        ensures due { result ≡ is_round_due now self.old.hearing }
        ensures next { self.new ≡ record self.old { hearing = having_begun now self.old.hearing } }
    {
        self.hearing.begin_round(now)
    }
}
