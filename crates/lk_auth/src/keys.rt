ghost use Rattle.std.specs.Prelude.{◌≡◌, ◌≢◌, ◌↔◌, [], ℕ, List, Some, None, IsTrue, IfSome, IsNone, IfOk, IsErr};
ghost use Rattle.lk_auth.specs.Clients.{client_keys};
ghost use Rattle.lk_auth.specs.Seals.{key_list, opened_by, framed_by, IsAmong, Share};

use crate::frame::{Scope, open, seal};
use crate::key::Key;
use std::alloc::AllocError;

/// No key, one, or two while keys are rotated: the first one seals, and each of them opens.
#[derive(Drop)]
pub enum Keys {
    NoKey,
    One(Key),
    Two(Key, Key),
}

impl Keys {
    /// Whether there is none.
    pub fn is_none(&self) -> bool
        ensures { IsTrue result ↔ (key_list self.now ≡ []) }
    {
        matches!(self, Keys::NoKey)
    }

    // Whether this key is one of them.
    fn has(&self, key: &Key) -> bool
        ensures { IsTrue result ↔ IsAmong key.now (key_list self.now) }
    {
        match self {
            Keys::NoKey => false,
            Keys::One(own) => own.is_same(key),
            Keys::Two(first, second) => first.is_same(key) || second.is_same(key),
        }
    }

    /// Whether some key is in both sets.
    pub fn meets(&self, others: &Keys) -> bool
        ensures { IsTrue result ↔ Share (key_list self.now) (key_list others.now) }
    {
        match others {
            Keys::NoKey => false,
            Keys::One(key) => self.has(key),
            Keys::Two(first, second) => self.has(first) || self.has(second),
        }
    }

    /// Derives the keys of a client from these, which are masters.
    pub fn of_client(&self, client: u16) -> Keys
        ensures { key_list result ≡ client_keys client (key_list self.now) }
    {
        match self {
            Keys::NoKey => Keys::NoKey,
            Keys::One(master) => Keys::One(master.of_client(client)),
            Keys::Two(first, second) => {
                Keys::Two(first.of_client(client), second.of_client(client))
            }
        }
    }

    /// Opens a frame with the first key that fits, and returns its datagram. `None` if no key fits.
    pub fn open<'a>(&self, scope: &Scope, frame: &'a [u8]) -> Option<&'a [u8]>
        ensures some { IfSome result (λ d. opened_by (key_list self.now) scope.now frame.now ≡ Some d.now) }
        ensures none { IsNone result → opened_by (key_list self.now) scope.now frame.now ≡ None }
    {
        match self {
            Keys::NoKey => None,
            Keys::One(key) => open(key, scope, frame),
            Keys::Two(first, second) => match open(first, scope, frame) {
                Some(datagram) => Some(datagram),
                None => open(second, scope, frame),
            },
        }
    }

    /// Seals a datagram under the first key: writes its frame into the buffer and returns that. Without a key it
    /// returns the datagram itself, and cannot fail.
    pub fn frame_of<'a>(
        &self,
        scope: &Scope,
        datagram: &'a [u8],
        frame: &'a mut Vec<u8>,
    ) -> Result<&'a [u8], AllocError>
        ensures ok { IfOk result (λ f. f.now ≡ framed_by (key_list self.now) scope.now datagram.now) }
        ensures refused { IsErr result → key_list self.now ≢ [] }
    {
        match self {
            Keys::NoKey => Ok(datagram),
            Keys::One(key) | Keys::Two(key, _) => {
                seal(key, scope, datagram, frame)?;
                Ok(frame.as_slice())
            }
        }
    }
}
