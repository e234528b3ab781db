// A watch as a value.
ghost use Rattle.lk_watch.specs.Grammar.{IsWatch, SpellsWatch};

use crate::datagram::WatchDatagram;
use crate::ticket::Ticket;
use crate::writing::write_watch;

/// A client's wish to be told when a name is free for it.
#[derive(Drop)]
pub struct Watch {
    pub cluster: u64,
    pub ticket: Ticket,
    /// For how many periods of the node's clock it waits. 0 withdraws.
    pub periods: u8,
}

impl Watch {
    /// Shows the prover that each part is in its range. Does nothing at run time.
    pub fn facts(&self)
        ensures { IsWatch self.now }
    {
        let _cluster = self.cluster;
        self.ticket.facts();
        let _periods = self.periods;
    }

    /// Returns its datagram, as long as that of a notice. Allocates nothing.
    pub fn datagram(&self) -> WatchDatagram
        ensures { SpellsWatch self.now result }
    {
        self.facts();
        write_watch(self)
    }
}
