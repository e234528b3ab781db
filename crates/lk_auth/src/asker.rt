//! How a client opens what arrives at its socket, and seals the requests that it sends.

ghost use Rattle.std.specs.Prelude.{◌≡◌, ◌≢◌, [], IfOk, IsErr};
ghost use Rattle.lk_auth.specs.Seals.{key_list, no_genesis, asking, framed_by, replied};

use crate::frame::{DIGEST, Purpose, Scope};
use crate::keys::Keys;
use std::alloc::AllocError;

/// The keys by which a client of a cluster knows who replied. The nodes derive them from their masters.
#[derive(Drop)]
pub struct AskerSeals {
    pub cluster: u64,
    pub keys: Keys,
}

impl AskerSeals {
    // Returns the scope of that client's requests or of the replies to them.
    fn scope(&self, purpose: Purpose, client: u16) -> Scope
        ensures { result ≡ record {
          purpose = purpose;
          cluster = self.now.cluster;
          genesis = no_genesis;
          bound = client;
        } }
    {
        Scope {
            purpose,
            cluster: self.cluster,
            genesis: [0; DIGEST],
            bound: u32::from(client),
        }
    }

    /// Seals a request of that client: writes its frame into the buffer and returns that. Without a key it returns the
    /// request itself.
    pub fn frame_of<'a>(
        &self,
        client: u16,
        request: &'a [u8],
        frame: &'a mut Vec<u8>,
    ) -> Result<&'a [u8], AllocError>
        ensures ok { IfOk result
            (λ f. f.now ≡ framed_by (key_list self.now.keys) (asking self.now.cluster client) request.now) }
        // Without a key it cannot fail: only a frame needs memory.
        ensures refused { IsErr result → key_list self.now.keys ≢ [] }
    {
        self.keys
            .frame_of(&self.scope(Purpose::Asking, client), request, frame)
    }

    /// Opens what arrives at the client: returns a node's reply to it, and no bytes for anything else. Without a key it
    /// returns what arrives, unchecked.
    pub fn unseal<'a>(&self, client: u16, frame: &'a [u8]) -> &'a [u8]
        ensures { result.now ≡ replied (key_list self.now.keys) self.now.cluster client frame.now }
    {
        if self.keys.is_none() {
            return frame;
        }
        match self
            .keys
            .open(&self.scope(Purpose::Replying, client), frame)
        {
            Some(datagram) => datagram,
            None => &[],
        }
    }
}
