//! The events of a node that an operator wants to know.

ghost use Rattle.std.specs.Prelude.{◌≡◌, ◌≢◌, ◌<◌};
ghost use Rattle.lk_node_events.specs.Kinds.{kind_of, kinds, is_warning};

use lk_types::limits::MAX_NAMES;
use lk_types::{Executed, Members, NodeNo, RealBallot};
use std::fmt;
use std::net::SocketAddr;

/// The number of kinds of events.
pub const KINDS: usize = 24;

/// Why a node no longer leads.
#[derive(Clone, Copy, Debug)]
pub enum Why {
    /// It has promised a greater ballot, which this node began.
    Promised(NodeNo),
    /// It is no member of the next position.
    NoMember,
    /// It has heard of a greater ballot.
    HeardGreater,
}

/// What has happened to a node.
#[derive(Debug, Drop)]
pub enum Event {
    /// It started with an empty store: no promise, and no position executed.
    StartedEmpty,
    /// It started with its store, by which it has executed this many positions.
    Found(Executed),
    /// A majority has promised its ballot.
    Leads(RealBallot),
    /// It no longer leads in this ballot.
    Ended(RealBallot, Why),
    /// It follows this node.
    Follows(NodeNo),
    /// It is a member, and has neither led nor heard of a leader for this many seconds.
    Leaderless(u64),
    /// This node has joined: these are the members of the next position.
    Joined(NodeNo, Members),
    /// This node has left: these are the members of the next position.
    Left(NodeNo, Members),
    /// It wrote a snapshot of this many positions.
    Wrote(Executed),
    /// It installed a snapshot of this many positions, whose last part this node sent.
    Installed(Executed, NodeNo),
    /// A datagram to this node could not be sent.
    Unsent(NodeNo),
    /// It has been asking for a second for the commands that it missed, this node last.
    Behind(NodeNo),
    /// It was behind, and has asked nobody for a second. It has executed this many positions.
    CaughtUp(Executed),
    /// This node was started with another genesis.
    OtherGenesis(NodeNo),
    /// This many datagrams of another cluster have come.
    OtherCluster(u64),
    /// It hears so many of these members, itself included, and no longer a majority: until it does it gets no ticks and
    /// drops clients' requests.
    Deaf(u8, Members),
    /// It hears so many of these members, itself included, and a majority again.
    Hears(u8, Members),
    /// It is not a member of the next position, and has neither led nor heard of a leader for this many seconds.
    Outside(u64),
    /// It had no room for a watch.
    QueueFull,
    /// Its lock table has this many names, at least nine tenths of the most that it can have.
    Names(usize),
    /// It dropped an administrative request of this client, which is no admin.
    Barred(u16),
    /// It cannot open frames of a node at this address, which name this cluster, if that is another one.
    Unopened(SocketAddr, Option<u64>),
    /// It has read the file of its hosts again: nodes have moved, or the file cannot be used.
    Hosts(bool),
    /// This node has executed other commands than it: their states differ at this position.
    Apart(NodeNo, Executed),
}

impl Event {
    /// Returns the index of its kind, below `KINDS`: each kind has a rate limit of its own.
    pub fn kind(&self) -> usize
        ensures kind { result ≡ kind_of self.now }
        ensures few { result < kinds }
    {
        match self {
            Event::StartedEmpty => 0,
            Event::Found(_) => 1,
            Event::Leads(_) => 2,
            Event::Ended(_, _) => 3,
            Event::Follows(_) => 4,
            Event::Leaderless(_) => 5,
            Event::Joined(_, _) => 6,
            Event::Left(_, _) => 7,
            Event::Wrote(_) => 8,
            Event::Installed(_, _) => 9,
            Event::Unsent(_) => 10,
            Event::Behind(_) => 11,
            Event::CaughtUp(_) => 12,
            Event::OtherGenesis(_) => 13,
            Event::OtherCluster(_) => 14,
            Event::Deaf(_, _) => 15,
            Event::Hears(_, _) => 16,
            Event::Outside(_) => 17,
            Event::QueueFull => 18,
            Event::Names(_) => 19,
            Event::Barred(_) => 20,
            Event::Unopened(_, _) => 21,
            Event::Hosts(_) => 22,
            Event::Apart(_, _) => 23,
        }
    }

    /// Whether an operator should look at it.
    pub fn is_warning(&self) -> bool
        ensures { result ≡ is_warning self.now }
    {
        matches!(
            self,
            Event::Leaderless(_)
                | Event::Unsent(_)
                | Event::OtherGenesis(_)
                | Event::OtherCluster(_)
                | Event::Deaf(_, _)
                | Event::QueueFull
                | Event::Names(_)
                | Event::Barred(_)
                | Event::Unopened(_, _)
                | Event::Hosts(false)
                | Event::Apart(_, _)
        )
    }
}

impl fmt::Display for Why {
    fn fmt<W: fmt::Write>(&self, f: &mut fmt::Formatter<W>) -> fmt::Result {
        match self {
            Why::Promised(node) => write!(f, "node {} began a greater ballot", node.get()),
            Why::NoMember => f.write_str("it is not a member"),
            Why::HeardGreater => f.write_str("there is a greater ballot"),
        }
    }
}

// Writes the members.
fn write_members<W: fmt::Write>(members: &Members, f: &mut fmt::Formatter<W>) -> fmt::Result {
    f.write_str(", members")?;
    for member in members.as_slice() {
        write!(f, " {}:{}", member.node.get(), member.port.get())?;
    }
    Ok(())
}

// Writes who joined or left, and the members.
fn write_change<W: fmt::Write>(
    node: NodeNo,
    change: &str,
    members: &Members,
    f: &mut fmt::Formatter<W>,
) -> fmt::Result {
    write!(f, "node {} {change}", node.get())?;
    write_members(members, f)
}

// Writes that the node leads in a ballot, or, if there is a `why`, that it no longer does.
fn write_lead<W: fmt::Write>(
    ballot: RealBallot,
    why: Option<Why>,
    f: &mut fmt::Formatter<W>,
) -> fmt::Result {
    let ballot = ballot.get();
    let (round, node) = (ballot.round(), ballot.node());
    match why {
        None => write!(f, "leads in ballot {round}.{node}"),
        Some(why) => write!(f, "no longer leads in ballot {round}.{node}: {why}"),
    }
}

// The word for a count: `one` for 1, else `many`.
fn one_or_many<'a>(count: u64, one: &'a str, many: &'a str) -> &'a str
    ensures single { count ≡ 1 → result.now ≡ one.now }
    ensures several { count ≢ 1 → result.now ≡ many.now }
{
    if count == 1 { one } else { many }
}

// Writes after a comma how many positions: `, 1 position`, `, 2 positions`.
fn write_positions<W: fmt::Write>(number: Executed, f: &mut fmt::Formatter<W>) -> fmt::Result {
    let number = number.get();
    let word = one_or_many(number, "position", "positions");
    write!(f, ", {number} {word}")
}

// Writes what was done, and up to which number of positions.
fn write_done<W: fmt::Write>(
    done: &str,
    number: Executed,
    f: &mut fmt::Formatter<W>,
) -> fmt::Result {
    f.write_str(done)?;
    write_positions(number, f)
}

// Writes that a store was found, and how many positions the node has executed from it.
fn write_found<W: fmt::Write>(executed: Executed, f: &mut fmt::Formatter<W>) -> fmt::Result {
    write_done("found its store", executed, f)?;
    f.write_str(" executed")
}

// Writes which snapshot was installed.
fn write_installed<W: fmt::Write>(
    position: Executed,
    node: NodeNo,
    f: &mut fmt::Formatter<W>,
) -> fmt::Result {
    write!(f, "installed a snapshot of node {}", node.get())?;
    write_positions(position, f)
}

// Writes how many datagrams of another cluster have come.
fn write_foreign<W: fmt::Write>(count: u64, f: &mut fmt::Formatter<W>) -> fmt::Result {
    let word = one_or_many(count, "datagram", "datagrams");
    write!(f, "heard {count} {word} of another cluster")
}

// Writes that frames of a node at an address do not open, and why: they name another cluster, or their key or genesis
// is another.
fn write_unopened<W: fmt::Write>(
    from: SocketAddr,
    cluster: Option<u64>,
    f: &mut fmt::Formatter<W>,
) -> fmt::Result {
    write!(f, "cannot open frames of a node at {from}: ")?;
    match cluster {
        None => f.write_str("another --key, or another genesis under the same key"),
        Some(cluster) => write!(f, "it is of cluster {cluster}"),
    }
}

// The text for a file of hosts that was read again: it names other hosts, or cannot be used.
fn text_of_hosts(are_usable: bool) -> &'static str {
    if are_usable {
        "has read other hosts in the hosts file"
    } else {
        "cannot read the hosts file, or it is invalid: the hosts stay as they were"
    }
}

// Writes how many of the members are heard, and what that is.
fn write_heard<W: fmt::Write>(
    heard: u8,
    members: &Members,
    what: &str,
    f: &mut fmt::Formatter<W>,
) -> fmt::Result {
    let count = members.as_slice().len();
    write!(f, "hears {heard} of {count} members{what}")
}

// Writes that another node has executed other commands, and how to find out which of them to stop.
fn write_apart<W: fmt::Write>(
    node: NodeNo,
    position: Executed,
    f: &mut fmt::Formatter<W>,
) -> fmt::Result {
    let (node, position) = (node.get(), position.get());
    write!(
        f,
        "has executed other commands than node {node} up to position {position}: "
    )?;
    f.write_str("`locks status` says which to stop")
}

impl fmt::Display for Event {
    fn fmt<W: fmt::Write>(&self, f: &mut fmt::Formatter<W>) -> fmt::Result {
        match self {
            Event::StartedEmpty => f.write_str("began with an empty store"),
            Event::Found(executed) => write_found(*executed, f),
            Event::Leads(ballot) => write_lead(*ballot, None, f),
            Event::Ended(ballot, why) => write_lead(*ballot, Some(*why), f),
            Event::Follows(node) => write!(f, "follows node {}", node.get()),
            Event::Leaderless(seconds) => write!(f, "has heard of no leader for {seconds} s"),
            Event::Joined(node, members) => write_change(*node, "joined", members, f),
            Event::Left(node, members) => write_change(*node, "left", members, f),
            Event::Wrote(position) => write_done("wrote a snapshot", *position, f),
            Event::Installed(position, node) => write_installed(*position, *node, f),
            Event::Unsent(node) => write!(f, "could not send to node {}", node.get()),
            Event::Behind(node) => write!(f, "is behind, asks node {}", node.get()),
            Event::CaughtUp(executed) => write_done("has caught up", *executed, f),
            Event::OtherGenesis(node) => write!(f, "hears node {} of another genesis", node.get()),
            Event::OtherCluster(count) => write_foreign(*count, f),
            Event::Deaf(heard, members) => write_heard(*heard, members, ", no majority", f),
            Event::Hears(heard, members) => write_heard(*heard, members, ", a majority", f),
            Event::Outside(seconds) => {
                write!(f, "is not a member, and has had no leader for {seconds} s")
            }
            Event::QueueFull => f.write_str("has no room for a watch"),
            Event::Names(count) => write!(f, "fills up: names {count} of {MAX_NAMES}"),
            Event::Barred(client) => {
                write!(f, "dropped an administrative request of client {client}")
            }
            Event::Unopened(from, cluster) => write_unopened(*from, *cluster, f),
            Event::Hosts(are_usable) => f.write_str(text_of_hosts(*are_usable)),
            Event::Apart(node, position) => write_apart(*node, *position, f),
        }
    }
}
