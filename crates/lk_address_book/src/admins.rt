//! The admins: the clients whose administrative requests a node takes.

ghost use Rattle.std.specs.Prelude.{◌≡◌};
ghost use Rattle.lk_auth.specs.Clients.{client_in};
ghost use Rattle.lk_address_book.specs.Admins.{is_administrative_op, is_administrative, is_admin, bars};
ghost use Rattle.lk_address_book.specs.Admins.{nobody, admitting};

use crate::kinds::{byte_at, is_request};
use lk_types::ClientNo;

// How many flags a list has: one for each number from 0 to 256. No client has the number 0.
const FLAGS: usize = 257;

/// Whose administrative requests a node takes: those to join, to leave, to raise the table and to break a lock.
#[derive(Clone, Copy)]
pub enum Admins {
    /// Each client's.
    Everyone,
    /// Only those of the listed clients: whether each number is listed.
    Listed([bool; FLAGS]),
}

// The offsets of the client of a request, two bytes, of its op, and of the body of an op of the table.
const CLIENT: usize = 16;

const OP: usize = 26;

const BODY: usize = 28;

/// Returns the client that a request names, unchecked. A byte that is not there counts as 0.
pub fn client_in(datagram: &[u8]) -> u16
    ensures { result ≡ client_in datagram.now }
{
    u16::from_be_bytes([byte_at(datagram, CLIENT), byte_at(datagram, CLIENT + 1)])
}

// Returns whether an op is administrative; `body` is the first byte of its body if it is one of the table.
fn is_administrative_op(op: u8, body: u8) -> bool
    ensures { result ≡ is_administrative_op op body }
{
    match op {
        0 => body == 6,
        1 | 2 | 3 => true,
        _ => false,
    }
}

// Returns whether a datagram is an administrative request.
fn is_administrative(datagram: &[u8]) -> bool
    ensures { result ≡ is_administrative datagram.now }
{
    is_request(datagram) && is_administrative_op(byte_at(datagram, OP), byte_at(datagram, BODY))
}

impl Admins {
    /// Creates a list of no client.
    pub fn nobody() -> Admins
        ensures { result ≡ nobody }
    {
        Admins::Listed([false; FLAGS])
    }

    /// Adds a client to the list.
    pub fn admit(&mut self, client: ClientNo)
        ensures { self.new ≡ admitting client self.old }
    {
        match self {
            Admins::Everyone => {}
            Admins::Listed(flags) => flags[usize::from(client.get())] = true,
        }
    }

    // Returns whether a client is an admin.
    fn is_admin(&self, client: u16) -> bool
        ensures { result ≡ is_admin self.now client }
    {
        match self {
            Admins::Everyone => true,
            Admins::Listed(flags) => flags.get(usize::from(client)).copied().unwrap_or(false),
        }
    }

    /// Returns whether a datagram is an administrative request of a client that is no admin.
    pub fn bars(&self, datagram: &[u8]) -> bool
        ensures { result ≡ bars self.now datagram.now }
    {
        is_administrative(datagram) && !self.is_admin(client_in(datagram))
    }
}
