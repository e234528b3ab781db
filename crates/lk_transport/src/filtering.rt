//! Which of the datagrams that arrive a post drops, as its address book says.

ghost use Rattle.std.specs.Prelude.{◌≡◌};
ghost use Rattle.lk_address_book.specs.Addresses.{filter_of};
ghost use Rattle.lk_address_book.specs.Admins.{bars};
ghost use Rattle.lk_address_book.specs.Filters.{is_dropped, is_unowed};

use crate::post::SocketPost;
use crate::socket::DatagramSocket;
use lk_types::NodeNo;

impl<S: DatagramSocket + Drop> SocketPost<S> {
    /// Whether this node was found to hear too few members, so that clients' requests are dropped.
    pub fn is_deaf(&self) -> bool
        ensures { result ≡ self.now.addresses.deaf }
    {
        self.addresses.is_deaf()
    }

    /// Sets whether clients' requests are dropped.
    pub fn set_deaf(&mut self, is_deaf: bool)
        ensures { self.new
            ≡ record self.old { addresses = record self.old.addresses { deaf = is_deaf } } }
    {
        self.addresses.set_deaf(is_deaf);
    }

    /// Whether a datagram is an administrative request of a client that is no admin.
    pub fn bars(&self, datagram: &[u8]) -> bool
        ensures { result ≡ bars self.now.addresses.admins datagram.now }
    {
        self.addresses.bars(datagram)
    }

    /// Whether a datagram is dropped, wherever it came from: it is a client's request, and this node hears too few
    /// members, or it is administrative and the client is no admin; or it is a Want of a number that never joined, and
    /// the nodes have no key.
    pub fn drops(&self, datagram: &[u8]) -> bool
        ensures { result ≡ is_dropped (filter_of self.now.addresses) datagram.now }
    {
        self.addresses.drops(datagram)
    }

    /// Whether a datagram is a Want of a number that never joined, where the nodes have no key: its reply, which may be
    /// a snapshot, is owed to nobody.
    pub fn is_unowed(&self, datagram: &[u8]) -> bool
        ensures { result ≡ is_unowed (filter_of self.now.addresses) datagram.now }
    {
        self.addresses.is_unowed(datagram)
    }

    /// Sets the greatest number of a node that has joined. Without a key Wants of greater numbers are dropped from now
    /// on.
    pub fn set_joined(&mut self, joined: NodeNo)
        ensures { self.new ≡ record self.old { addresses = record self.old.addresses { joined = joined } } }
    {
        self.addresses.set_joined(joined);
    }
}
