ghost use Rattle.std.specs.Prelude.{◌≡◌, ◌↔◌, ◌++◌, IsTrue, length};
ghost use Rattle.lk_auth.specs.Clients.{client_key};
ghost use Rattle.lk_auth.specs.Hmac.{hmac};

use crate::mac::{Mac, TAG};
use std::marker::Model;

/// The length of a key.
pub const KEY: usize = 32;

/// A key, with the state of HMAC under it, which is computed once.
#[derive(Drop)]
pub struct Key {
    bytes: [u8; KEY],
    mac: Mac,
}

impl Model for Key {
    ghost use Rattle.std.specs.Prelude.{ℕ, List};
    ghost use Rattle.lk_auth.specs.Macs.{IsKeyed};

    ghost Value = { List ℕ };

    ghost view = { λ k. k.bytes };

    ghost invariant = { λ k. IsKeyed k.bytes k.mac };
}

impl Key {
    /// The key with these bytes.
    pub fn of(bytes: [u8; KEY]) -> Key
        ensures { result ≡ bytes }
    {
        let mac = Mac::new(&bytes);
        Key { bytes, mac }
    }

    /// Whether it is that key.
    pub fn is_same(&self, other: &Key) -> bool
        ensures { IsTrue result ↔ (self.now ≡ other.now) }
    {
        self.bytes == other.bytes
    }

    /// Derives the key of a client from this key, which is a master. From one client's key no other client's can be
    /// derived.
    #[tactic(auto, unfolding(crate::specs::Clients::client_key))]
    pub fn of_client(&self, client: u16) -> Key
        ensures { result ≡ client_key client self.now }
    {
        Key::of(self.tag(b"locks v1 client", &client.to_be_bytes()))
    }

    /// The tag of two pieces, taken as one message, under the key.
    pub fn tag(&self, first: &[u8], second: &[u8]) -> [u8; TAG]
        ensures { result ≡ hmac self.now (first.now ++ second.now) }
    {
        self.mac.tag(first, second)
    }

    /// Its bytes.
    pub fn bytes(&self) -> &[u8; KEY]
        ensures bytes { result.now ≡ self.now }
        ensures long { length result.now ≡ 32 }
    {
        &self.bytes
    }
}
