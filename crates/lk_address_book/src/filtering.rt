//! Which datagrams a node drops, wherever they came from.

ghost use Rattle.std.specs.Prelude.{◌≡◌};
ghost use Rattle.lk_address_book.specs.Addresses.{filter_of};
ghost use Rattle.lk_address_book.specs.Admins.{bars};
ghost use Rattle.lk_address_book.specs.Filters.{is_dropped};

use crate::addresses::Addresses;
use crate::kinds::is_request;

impl Addresses {
    /// Whether this node was found to hear too few members.
    pub fn is_deaf(&self) -> bool
        ensures { result ≡ self.now.deaf }
    {
        self.is_deaf
    }

    /// Sets whether clients' requests are dropped.
    pub fn set_deaf(&mut self, is_deaf: bool)
        ensures { self.new ≡ record self.old { deaf = is_deaf } }
    {
        self.is_deaf = is_deaf;
    }

    /// Whether a datagram is an administrative request of a client that is no admin.
    pub fn bars(&self, datagram: &[u8]) -> bool
        ensures { result ≡ bars self.now.admins datagram.now }
    {
        self.admins.bars(datagram)
    }

    /// Whether a datagram is dropped, wherever it came from: it is a client's request, and this node hears too few
    /// members, or it is administrative and the client is no admin; or it is a Want of a number that never joined, and
    /// the nodes have no key.
    pub fn drops(&self, datagram: &[u8]) -> bool
        ensures { result ≡ is_dropped (filter_of self.now) datagram.now }
    {
        (self.is_deaf() && is_request(datagram)) || self.bars(datagram) || self.is_unowed(datagram)
    }
}
