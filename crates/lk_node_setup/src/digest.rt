//! The digest of a genesis.

ghost use Rattle.std.specs.Prelude.{◌≡◌, ◌++◌, OnOk, IfOk};
ghost use Rattle.lk_node_setup.specs.Digests.{genesis_spelling, genesis_digest};

use bytes::BytesMut;
use lk_auth::DIGEST;
use lk_codec::{put_u8, put_u64};
use lk_store_format::{Header, put_members};
use sha2::{Digest, Sha256};
use std::alloc::{AllocError, Global};

// Appends the canonical bytes of a header's genesis.
fn put_genesis(out: &mut BytesMut, header: &Header) -> Result<(), AllocError>
    ensures { OnOk result (out.new.items ≡ out.old.items ++ genesis_spelling header.now) }
{
    put_u64(out, header.genesis().cluster)?;
    put_u8(out, header.genesis().alpha)?;
    put_members(out, header.genesis().members.as_slice())?;
    Ok(())
}

/// The digest of a header's genesis. It keeps nodes of two geneses from hearing each other.
#[tactic(auto, unfolding(crate::specs::Digests::genesis_digest))]
pub fn genesis_digest(alloc: Global, header: &Header) -> Result<[u8; DIGEST], AllocError>
    ensures { IfOk result (λ digest. digest ≡ genesis_digest header.now) }
{
    let mut bytes = BytesMut::new(alloc);
    put_genesis(&mut bytes, header)?;
    Ok(Sha256::digest(bytes))
}
