//! Outsiders: nodes whose numbers never joined. Where no key tells who sent a datagram, a node drops their Wants, so
//! that nobody has it send a snapshot to an address of his choice.

ghost use Rattle.std.specs.Prelude.{◌≡◌};
ghost use Rattle.lk_address_book.specs.Addresses.{filter_of};
ghost use Rattle.lk_address_book.specs.Outsiders.{has_none, is_outsiders_want, is_want, sender_in};
ghost use Rattle.lk_address_book.specs.Filters.{is_unowed};
ghost use Rattle.lk_auth.specs.Seals.{key_list};

use crate::addresses::Addresses;
use crate::kinds::byte_at;
use lk_auth::{Keys, Seals};
use lk_types::NodeNo;

// The offset of the sender of a message, four bytes.
const SENDER: usize = 12;

// Returns the node that a message names as its sender, unchecked. A byte that is not there counts as 0.
fn sender_in(datagram: &[u8]) -> u32
    ensures { result ≡ sender_in datagram.now }
{
    u32::from_be_bytes([
        byte_at(datagram, SENDER),
        byte_at(datagram, SENDER + 1),
        byte_at(datagram, SENDER + 2),
        byte_at(datagram, SENDER + 3),
    ])
}

// Returns whether a datagram begins as a Want does: with the letters LK, and of its kind.
fn is_want(datagram: &[u8]) -> bool
    ensures { result ≡ is_want datagram.now }
{
    matches!(datagram, [b'L', b'K', _, 7, ..])
}

// Returns whether a datagram is a Want of a number above the greatest that has joined.
fn is_outsiders_want(joined: u32, datagram: &[u8]) -> bool
    ensures { result ≡ is_outsiders_want joined datagram.now }
{
    is_want(datagram) && joined < sender_in(datagram)
}

// Returns whether the nodes have no key.
fn has_no_key(seals: &Seals) -> bool
    ensures { result ≡ has_none (key_list seals.now.nodes) }
{
    matches!(seals.nodes, Keys::NoKey)
}

impl Addresses {
    /// Whether a datagram is a Want of a number that never joined, where the nodes have no key: its reply, which may be
    /// a snapshot, is owed to nobody.
    pub fn is_unowed(&self, datagram: &[u8]) -> bool
        ensures { result ≡ is_unowed (filter_of self.now) datagram.now }
    {
        has_no_key(self.seals()) && is_outsiders_want(self.joined, datagram)
    }

    /// Sets the greatest number of a node that has joined.
    pub fn set_joined(&mut self, joined: NodeNo)
        ensures { self.new ≡ record self.old { joined = joined } }
    {
        self.joined = joined.get();
    }
}
