//! HMAC with SHA-256 (RFC 2104).

ghost use Rattle.std.specs.Prelude.{◌≡◌, ◌++◌, ℕ, List};
ghost use Rattle.lk_auth.specs.Hmac.{hmac, key_block, with_pad};
ghost use Rattle.lk_auth.specs.Macs.{IsKeyed};

use sha2::{Digest, Sha256};

// The block length of the hash.
const BLOCK: usize = 64;

/// The length of a digest, and of a tag.
pub const TAG: usize = 32;

// The pads of a key's block, before the message and before the digest.
const INNER: u8 = 0x36;

const OUTER: u8 = 0x5c;

// Fills a block with the key and then zeros; a key longer than a block is replaced by its digest.
#[tactic(auto, unfolding(crate::specs::Hmac::key_block))]
fn block_of(key: &[u8]) -> [u8; BLOCK]
    ensures { result ≡ key_block key.now }
{
    let mut block = [0; BLOCK];
    if key.len() <= BLOCK {
        block[..key.len()].copy_from_slice(key);
    } else {
        let digest = Sha256::digest(key);
        block[..TAG].copy_from_slice(&digest);
    }
    block
}

// Returns the block with each byte XORed with the pad.
fn padded(block: &[u8; BLOCK], pad: u8) -> [u8; BLOCK]
    ensures { result ≡ with_pad pad block.now }
{
    let mut mixed = [0; BLOCK];
    'bytes: for i in 0..BLOCK {
        mixed[i] = block[i] ^ pad;
    }
    mixed
}

/// The state of HMAC under a key: the hashers of the inner and the outer digest, each after the key's padded block.
/// Each tag begins with copies of them, so that these blocks are hashed only once.
#[derive(Drop)]
pub struct Mac {
    inner: Sha256,
    outer: Sha256,
}

impl Mac {
    /// Prepares HMAC under that key, of any length.
    pub fn new(key: &[u8]) -> Mac
        ensures { IsKeyed key.now result }
    {
        let block = block_of(key);
        Mac {
            inner: Sha256::new_with_prefix(padded(&block, INNER)),
            outer: Sha256::new_with_prefix(padded(&block, OUTER)),
        }
    }

    /// The tag of two pieces, taken as one message.
    #[tactic(auto, unfolding(crate::specs::Hmac::hmac_by))]
    pub fn tag(&self, first: &[u8], second: &[u8]) -> [u8; TAG]
        ensures { (key : List ℕ) → IsKeyed key self.now → result ≡ hmac key (first.now ++ second.now) }
    {
        let mut inner = self.inner.clone().unwrap();
        inner.update(first);
        inner.update(second);
        let mut outer = self.outer.clone().unwrap();
        outer.update(inner.finalize());
        outer.finalize()
    }
}

/// The tag of a message under a key.
pub fn tag(key: &[u8], message: &[u8]) -> [u8; TAG]
    ensures { result ≡ hmac key.now message.now }
{
    Mac::new(key).tag(&[], message)
}
