// A notice as a value.
ghost use Rattle.lk_watch.specs.Grammar.{IsNotice, SpellsNotice};

use crate::datagram::WatchDatagram;
use crate::ticket::Ticket;
use crate::writing::write_notice;
use lk_types::NodeNo;

/// What a node says of a name to a client that waits for it.
#[derive(Clone, Copy, PartialEq, Eq)]
pub enum News {
    /// The name is free for the client, by the table of the node: it asks for it now.
    Free,
    /// It is not.
    Held,
    /// The node says nothing of the name: it does not lead, or its table is older than the watch.
    NotHere,
}

/// What a node tells a client that waits.
#[derive(Drop)]
pub struct Notice {
    pub cluster: u64,
    /// The node that tells.
    pub node: NodeNo,
    /// The ticket of the watch.
    pub ticket: Ticket,
    pub news: News,
    /// The client's place in the node's queue for the name, from 1. 0 if the watch is not kept there.
    pub place: u16,
}

impl Notice {
    /// Shows the prover that each part is in its range. Does nothing at run time.
    pub fn facts(&self)
        ensures { IsNotice self.now }
    {
        let _cluster = self.cluster;
        let _ = self.node.get();
        self.ticket.facts();
        let _place = self.place;
    }

    /// Returns its datagram, as long as that of a watch. Allocates nothing.
    pub fn datagram(&self) -> WatchDatagram
        ensures { SpellsNotice self.now result }
    {
        self.facts();
        write_notice(self)
    }
}
