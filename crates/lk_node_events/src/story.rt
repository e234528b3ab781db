//! What was last reported of a node, and the events that an observation yields compared with that.

ghost use Rattle.std.specs.Prelude.{◌≡◌};
ghost use Rattle.lk_node_events.specs.News.{Gives, story_of, forgetting, story_with, is_one_of};
ghost use Rattle.lk_node_events.specs.News.{deafening, ending, hearing, leading, following, joining, leaving};
ghost use Rattle.lk_node_events.specs.News.{writing, installing, failing, meeting, straying, refusing, filling};
ghost use Rattle.lk_node_events.specs.News.{barring, differing, mismatching, rehosting};
ghost use Rattle.lk_node_events.specs.News.{apart_after, is_entry_of, is_reported};
ghost use Rattle.lk_node_events.specs.Observations.{apart_in};
ghost use Rattle.lk_node_events.specs.News.{lead_topics, joins, leaves, member_topics, work_topics, topics};
ghost use Rattle.lk_node_events.specs.Watches.{PutsNews};

use crate::event::Event;
use crate::observation::Observation;
use crate::rate_limits::RateLimits;
use lk_types::{Executed, Member, Members, NodeNo, RealBallot};

// How many names of the lock table are reported: nine tenths of the 512 that it can have.
const MANY_NAMES: usize = 461;

// How many nodes of another state are remembered: more than twice as many as there are members at a time.
const MOST_APART: usize = 16;

/// What was last reported of a node.
#[derive(Drop)]
pub struct Story {
    /// The ballot in which it leads, where it does.
    pub leads: Option<RealBallot>,
    /// The node that it followed last.
    pub follows: Option<NodeNo>,
    /// The members of the next position.
    pub members: Members,
    /// The position of its snapshot.
    pub snapshot: Executed,
    /// Whether it hears too few members.
    pub deaf: bool,
    /// How many names its lock table has; 0 before the first turn.
    pub names: usize,
    /// The nodes whose states were reported to differ from its own, the last first.
    pub apart: [Option<NodeNo>; MOST_APART],
}

// Whether an entry is that node.
fn is_entry_of(node: NodeNo, entry: &Option<NodeNo>) -> bool
    ensures { result ≡ is_entry_of node entry.now }
{
    match entry {
        Some(other) => *other == node,
        None => false,
    }
}

// Whether one of the entries is that node.
fn is_reported(node: NodeNo, entries: &[Option<NodeNo>]) -> bool
    ensures { result ≡ is_reported node entries.now }
{
    for entry in entries {
        if is_entry_of(node, entry) {
            return true;
        }
    }
    false
}

// Whether the node is one of these members.
fn is_one_of(node: NodeNo, members: &[Member]) -> bool
    ensures { result ≡ is_one_of node members.now }
{
    members.iter().any(|member| member.node == node)
}

impl Story {
    /// Returns the story of a node that was first seen like this: all of it passes as reported, except how many names
    /// there are.
    pub fn of(seen: Observation) -> Story
        ensures { result ≡ story_of seen }
    {
        let Observation {
            leads,
            follows,
            members,
            snapshot,
            deaf,
            ..
        } = seen;
        Story {
            leads,
            follows,
            members,
            snapshot,
            deaf,
            names: 0,
            apart: [None; MOST_APART],
        }
    }

    /// Returns `Ended` if it no longer leads in the ballot that was reported.
    pub fn ended(&self, seen: &Observation) -> Option<Event>
        ensures { Gives ending self.now seen.now result }
    {
        let ballot = self.leads?;
        if seen.leads == self.leads {
            return None;
        }
        Some(Event::Ended(ballot, seen.why(ballot)))
    }

    /// Returns `Leads` if it leads in a ballot that was not reported.
    pub fn leads(&self, seen: &Observation) -> Option<Event>
        ensures { Gives leading self.now seen.now result }
    {
        let ballot = seen.leads?;
        if seen.leads == self.leads {
            return None;
        }
        Some(Event::Leads(ballot))
    }

    /// Returns `Follows` if it follows another node than was reported.
    pub fn follows(&self, seen: &Observation) -> Option<Event>
        ensures { Gives following self.now seen.now result }
    {
        let node = seen.follows?;
        if seen.follows == self.follows {
            return None;
        }
        Some(Event::Follows(node))
    }

    /// Returns `Joined` if this node is a member now, but was not one in the story.
    pub fn joined(&self, seen: &Observation, node: NodeNo) -> Option<Event>
        ensures { Gives (joining node) self.now seen.now result }
    {
        let was = is_one_of(node, self.members.as_slice());
        let is = is_one_of(node, seen.members.as_slice());
        if was || !is {
            return None;
        }
        Some(Event::Joined(node, seen.members.copy()))
    }

    /// Returns `Left` if this node was a member in the story, but is not one now.
    pub fn left(&self, seen: &Observation, node: NodeNo) -> Option<Event>
        ensures { Gives (leaving node) self.now seen.now result }
    {
        let was = is_one_of(node, self.members.as_slice());
        let is = is_one_of(node, seen.members.as_slice());
        if is || !was {
            return None;
        }
        Some(Event::Left(node, seen.members.copy()))
    }

    /// Returns `Wrote` if its snapshot is at a greater position than was reported, and none was installed in the turn.
    pub fn wrote(&self, seen: &Observation) -> Option<Event>
        ensures { Gives writing self.now seen.now result }
    {
        if seen.installed.is_some() || seen.snapshot.get() <= self.snapshot.get() {
            return None;
        }
        Some(Event::Wrote(seen.snapshot))
    }

    /// Returns `Installed` if it installed another node's snapshot in the turn.
    pub fn installed(&self, seen: &Observation) -> Option<Event>
        ensures { Gives installing self.now seen.now result }
    {
        let (position, node) = seen.installed?;
        Some(Event::Installed(position, node))
    }

    /// Returns `Unsent` if a send failed in the turn.
    pub fn unsent(&self, seen: &Observation) -> Option<Event>
        ensures { Gives failing self.now seen.now result }
    {
        let node = seen.unsent?;
        Some(Event::Unsent(node))
    }

    /// Returns `OtherGenesis` if it received from a node of another genesis, and that is to be reported.
    pub fn stranger(&self, seen: &Observation) -> Option<Event>
        ensures { Gives meeting self.now seen.now result }
    {
        let node = seen.stranger?;
        Some(Event::OtherGenesis(node))
    }

    /// Returns `OtherCluster` if datagrams of another cluster (`foreign`) came, and that is to be reported.
    pub fn foreign(&self, seen: &Observation) -> Option<Event>
        ensures { Gives straying self.now seen.now result }
    {
        let count = seen.foreign?;
        Some(Event::OtherCluster(count))
    }

    /// Returns `Deaf` if it hears no majority now, but did in the story.
    pub fn deaf(&self, seen: &Observation) -> Option<Event>
        ensures { Gives deafening self.now seen.now result }
    {
        if self.deaf || !seen.deaf {
            return None;
        }
        Some(Event::Deaf(seen.heard, seen.members.copy()))
    }

    /// Returns `Hears` if it hears a majority now, but did not in the story.
    pub fn hears(&self, seen: &Observation) -> Option<Event>
        ensures { Gives hearing self.now seen.now result }
    {
        if seen.deaf || !self.deaf {
            return None;
        }
        Some(Event::Hears(seen.heard, seen.members.copy()))
    }

    /// Returns `QueueFull` if it had no room for a watch in the turn.
    pub fn queue_full(&self, seen: &Observation) -> Option<Event>
        ensures { Gives refusing self.now seen.now result }
    {
        if !seen.is_queue_full {
            return None;
        }
        Some(Event::QueueFull)
    }

    /// Returns `Names` if its lock table has many names, and more than in the story.
    pub fn names(&self, seen: &Observation) -> Option<Event>
        ensures { Gives filling self.now seen.now result }
    {
        if seen.names < MANY_NAMES || seen.names <= self.names {
            return None;
        }
        Some(Event::Names(seen.names))
    }

    /// Returns `Barred` if the turn brought a dropped request that is to be reported.
    pub fn barred(&self, seen: &Observation) -> Option<Event>
        ensures { Gives barring self.now seen.now result }
    {
        let client = seen.barred?;
        Some(Event::Barred(client))
    }

    /// Returns `Unopened` if a node's frame came that did not open, and that is to be reported.
    pub fn unopened(&self, seen: &Observation) -> Option<Event>
        ensures { Gives mismatching self.now seen.now result }
    {
        let (from, cluster) = seen.unopened?;
        Some(Event::Unopened(from, cluster))
    }

    /// Returns `Hosts` if the file of the hosts was read again, and what it says is to be reported.
    pub fn hosts(&self, seen: &Observation) -> Option<Event>
        ensures { Gives rehosting self.now seen.now result }
    {
        let are_usable = seen.are_hosts_usable?;
        Some(Event::Hosts(are_usable))
    }

    /// Returns `Apart` if a report told a state that differs from its own, and its node was not reported so before.
    pub fn apart(&self, seen: &Observation) -> Option<Event>
        ensures { Gives differing self.now seen.now result }
    {
        let (node, position) = seen.apart()?;
        if is_reported(node, &self.apart) {
            return None;
        }
        Some(Event::Apart(node, position))
    }

    // Puts the news of the leader, and of whether a majority is heard, into the rate limits.
    fn put_leads(&self, now: u64, seen: &Observation, rate_limits: &mut RateLimits)
        ensures { PutsNews now self.now seen.now lead_topics rate_limits.old.all rate_limits.new.all }
    {
        rate_limits.put_some(now, self.ended(seen));
        rate_limits.put_some(now, self.leads(seen));
        rate_limits.put_some(now, self.follows(seen));
        rate_limits.put_some(now, self.deaf(seen));
        rate_limits.put_some(now, self.hears(seen));
    }

    // Puts `Joined` for each of these members that has joined.
    fn put_joined(
        &self,
        now: u64,
        seen: &Observation,
        members: &[Member],
        rate_limits: &mut RateLimits,
    )
        ensures { PutsNews now self.now seen.now (joins members.now) rate_limits.old.all rate_limits.new.all }
    {
        'members: for member in members {
            rate_limits.put_some(now, self.joined(seen, member.node));
        }
    }

    // Puts `Left` for each of these members that has left.
    fn put_left(
        &self,
        now: u64,
        seen: &Observation,
        members: &[Member],
        rate_limits: &mut RateLimits,
    )
        ensures { PutsNews now self.now seen.now (leaves members.now) rate_limits.old.all rate_limits.new.all }
    {
        'members: for member in members {
            rate_limits.put_some(now, self.left(seen, member.node));
        }
    }

    // Puts the news of the members: several nodes may join or leave in one turn.
    fn put_members(&self, now: u64, seen: &Observation, rate_limits: &mut RateLimits)
        ensures { PutsNews now self.now seen.now (member_topics self.now seen.now) rate_limits.old.all
            rate_limits.new.all }
    {
        self.put_joined(now, seen, seen.members.as_slice(), rate_limits);
        self.put_left(now, seen, self.members.as_slice(), rate_limits);
    }

    // Puts the news of snapshots, of failed sends, of datagrams of another genesis, cluster or key, of what is full, of
    // the hosts, and of other states.
    fn put_work(&self, now: u64, seen: &Observation, rate_limits: &mut RateLimits)
        ensures { PutsNews now self.now seen.now work_topics rate_limits.old.all rate_limits.new.all }
    {
        rate_limits.put_some(now, self.wrote(seen));
        rate_limits.put_some(now, self.installed(seen));
        rate_limits.put_some(now, self.unsent(seen));
        rate_limits.put_some(now, self.stranger(seen));
        rate_limits.put_some(now, self.foreign(seen));
        rate_limits.put_some(now, self.queue_full(seen));
        rate_limits.put_some(now, self.names(seen));
        rate_limits.put_some(now, self.barred(seen));
        rate_limits.put_some(now, self.unopened(seen));
        rate_limits.put_some(now, self.hosts(seen));
        rate_limits.put_some(now, self.apart(seen));
    }

    // Puts all news into the rate limits.
    fn put_all(&self, now: u64, seen: &Observation, rate_limits: &mut RateLimits)
        ensures { PutsNews now self.now seen.now (topics self.now seen.now) rate_limits.old.all rate_limits.new.all }
    {
        self.put_leads(now, seen, rate_limits);
        self.put_members(now, seen, rate_limits);
        self.put_work(now, seen, rate_limits);
    }

    /// Forgets which leader was reported if `leaderless` is an event: then any leader is news, even the same one.
    pub fn forget(&mut self, leaderless: &Option<Event>)
        ensures { self.new ≡ forgetting leaderless.now self.old }
    {
        if leaderless.is_some() {
            self.follows = None;
        }
    }

    // Remembers the node whose state was found to differ from its own, if one was.
    fn note_apart(&mut self, seen: &Observation)
        ensures { self.new ≡ record self.old { apart = apart_after (apart_in seen.now) self.old.apart } }
    {
        let Some((node, _)) = seen.apart() else {
            return;
        };
        if is_reported(node, &self.apart) {
            return;
        }
        self.apart.rotate_right(1);
        self.apart[0] = Some(node);
    }

    // Replaces the story by an observation. If that names no leader, the one followed last is kept.
    fn become_observed(&mut self, seen: Observation)
        ensures { self.new ≡ story_with seen self.old }
    {
        self.note_apart(&seen);
        let Observation {
            leads,
            follows,
            members,
            snapshot,
            deaf,
            names,
            ..
        } = seen;
        self.leads = leads;
        self.follows = follows.or(self.follows);
        self.members = members;
        self.snapshot = snapshot;
        self.deaf = deaf;
        self.names = names;
    }

    /// Puts what is news after a turn into the rate limits, and remembers it as reported.
    pub fn observe(&mut self, now: u64, seen: Observation, rate_limits: &mut RateLimits)
        ensures news { PutsNews now self.old seen (topics self.old seen) rate_limits.old.all rate_limits.new.all }
        ensures observed { self.new ≡ story_with seen self.old }
    {
        self.put_all(now, &seen, rate_limits);
        self.become_observed(seen);
    }
}
