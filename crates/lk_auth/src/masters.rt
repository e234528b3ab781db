//! The master keys, from which the keys of the clients are derived, with a table of these keys, each derived once.

ghost use Rattle.std.specs.Prelude.{◌≡◌, ◌≢◌, ◌↔◌, [], Some, None, IsTrue, IfSome, IsNone, IfOk, IsErr};
ghost use Rattle.lk_auth.specs.Clients.{client_keys};
ghost use Rattle.lk_auth.specs.Masters.{IsTable};
ghost use Rattle.lk_auth.specs.Seals.{key_list, opened_by, framed_by};

use crate::frame::Scope;
use crate::keys::Keys;
use std::alloc::{AllocError, Global};
use std::marker::Model;

// The length of the table of the clients' keys: clients are 1 to 256, and their number is the index.
const ENTRIES: u16 = 257;

/// The master keys, from which the keys of the clients are derived, and a table of these keys.
#[derive(Drop)]
pub struct Masters {
    keys: Keys,
    // the keys of each client, by its number; none without masters
    table: Option<Vec<Keys>>,
}

impl Model for Masters {
    ghost use Rattle.std.specs.Prelude.{IfSome};
    ghost use Rattle.lk_auth.specs.Masters.{IsTable};
    ghost use Rattle.lk_auth.specs.declared.keys.Keys.{Keys as KeysValue};

    ghost Value = { KeysValue };

    ghost view = { λ m. m.keys };

    ghost invariant = { λ m. IfSome m.table (λ t. IsTable m.keys t.items) };
}

// Derives the keys of each client.
fn table_of(alloc: Global, masters: &Keys) -> Result<Vec<Keys>, AllocError>
    ensures { IfOk result (λ table. IsTable masters.now table.items) }
{
    let mut table = Vec::with_capacity(alloc, ENTRIES as usize)?;
    'clients: for client in 0..ENTRIES {
        table.push(masters.of_client(client))?;
    }
    Ok(table)
}

impl Masters {
    /// Returns no masters, so that clients have no keys. Takes no memory.
    pub fn none() -> Masters
        ensures { key_list result ≡ [] }
    {
        Masters {
            keys: Keys::NoKey,
            table: None,
        }
    }

    /// Makes these keys masters, and derives the keys of all clients.
    pub fn of(alloc: Global, keys: Keys) -> Result<Masters, AllocError>
        ensures { IfOk result (λ m. m ≡ keys) }
    {
        if keys.is_none() {
            return Ok(Masters { keys, table: None });
        }
        let table = table_of(alloc, &keys)?;
        Ok(Masters {
            keys,
            table: Some(table),
        })
    }

    /// Whether there is none.
    pub fn is_none(&self) -> bool
        ensures { IsTrue result ↔ (key_list self.now ≡ []) }
    {
        self.keys.is_none()
    }

    // Looks up the keys of a client in the table. `None` without masters, or for a number above 256.
    fn kept(&self, client: u16) -> Option<&Keys>
        ensures { IfSome result (λ keys. key_list keys.now ≡ client_keys client (key_list self.now)) }
    {
        match &self.table {
            Some(table) => table.get(client as usize),
            None => None,
        }
    }

    /// Opens a frame with the first key of that client that fits, and returns its datagram. `None` if no key fits.
    pub fn open<'a>(&self, client: u16, scope: &Scope, frame: &'a [u8]) -> Option<&'a [u8]>
        ensures some { IfSome result
            (λ d. opened_by (client_keys client (key_list self.now)) scope.now frame.now ≡ Some d.now) }
        ensures none { IsNone result → opened_by (client_keys client (key_list self.now)) scope.now frame.now ≡ None }
    {
        match self.kept(client) {
            Some(keys) => keys.open(scope, frame),
            None => self.keys.of_client(client).open(scope, frame),
        }
    }

    /// Seals a datagram under the first key of that client: writes its frame into the buffer and returns that. Without
    /// masters it returns the datagram itself, and cannot fail.
    pub fn frame_of<'a>(
        &self,
        client: u16,
        scope: &Scope,
        datagram: &'a [u8],
        frame: &'a mut Vec<u8>,
    ) -> Result<&'a [u8], AllocError>
        ensures ok { IfOk result
            (λ f. f.now ≡ framed_by (client_keys client (key_list self.now)) scope.now datagram.now) }
        ensures refused { IsErr result → client_keys client (key_list self.now) ≢ [] }
    {
        match self.kept(client) {
            Some(keys) => keys.frame_of(scope, datagram, frame),
            None => self.keys.of_client(client).frame_of(scope, datagram, frame),
        }
    }
}
