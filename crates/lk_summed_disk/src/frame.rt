// Frames: the length of a piece, its bytes, and a sum that covers these and all before them.
ghost use Rattle.std.specs.Prelude.{◌≡◌, ◌≤◌, ◌%◌, ◌∷◌, ℕ, List, length, take, IfSome, IsNone, IsTrue, IsFalse};
ghost use Rattle.lk_summed_disk.specs.Frames.{magic, seed, digest, max_piece, length_field, stated, factor};
ghost use Rattle.lk_summed_disk.specs.Findings.{Finds};

use lk_disk::Side;
use sha2::{Digest, Sha256};

/// How many bytes the magic at the start of a file has.
pub const MAGIC_LENGTH: usize = 8;

/// How many bytes a frame has besides its piece.
pub const OVERHEAD: usize = 8;

// Each length is written times this.
const FACTOR: u32 = 16_381;

// The longest piece: its length, times the factor, fits in 32 bits.
const MAX_PIECE: usize = 262_192;

/// What the frames after a chain begin with.
pub enum Next<'a> {
    /// A frame of this piece. After it the chain is the second part, and the third one follows.
    Frame(&'a [u8], [u8; 32], &'a [u8]),
    /// What a stop may leave of a frame, or nothing.
    Torn,
    /// Neither.
    Damaged,
}

/// Whether these bytes begin with a zero, as a file without sums does.
pub fn begins_plain(bytes: &[u8]) -> bool
    ensures plain { IsTrue result → (rest : List ℕ) × (bytes.now ≡ 0 ∷ rest) }
    ensures other { IsFalse result → (rest : List ℕ) → bytes.now ≡ 0 ∷ rest → ⊥ }
{
    match bytes {
        [0, ..] => true,
        _ => false,
    }
}

/// Returns the bytes that a file with sums begins with.
pub fn magic(side: Side) -> [u8; MAGIC_LENGTH]
    ensures { result ≡ magic side }
{
    match side {
        Side::A => *b"locks 3a",
        Side::B => *b"locks 3b",
    }
}

/// Returns the chain before the first frame of a file.
#[tactic(auto, unfolding(crate::specs::Frames::seed))]
pub fn seed(side: Side) -> [u8; 32]
    ensures { result ≡ seed side }
{
    Sha256::digest(magic(side))
}

// Returns the field of four bytes for a length, or `None` if it is too long.
#[tactic(auto, unfolding(crate::specs::Frames::length_field))]
pub fn length_field(count: usize) -> Option<[u8; 4]>
    ensures some { IfSome result (λ field. (field ≡ length_field count) × (count ≤ max_piece)) }
{
    if count > MAX_PIECE {
        return None;
    }
    Some((count as u32 * FACTOR).to_be_bytes())
}

/// Returns the chain after a frame of this piece, whose length has this field. Its first four bytes are the sum.
#[tactic(auto, unfolding(crate::specs::Frames::digest))]
pub fn digest(chain: &[u8; 32], field: &[u8], piece: &[u8]) -> [u8; 32]
    requires { field.now ≡ length_field (length piece.now) }
    ensures { result ≡ digest chain.now piece.now }
{
    let mut hasher = Sha256::new();
    hasher.update(chain.as_slice());
    hasher.update(field);
    hasher.update(piece);
    hasher.finalize()
}

// Returns the length that the first four bytes state, or `None` if they are no length.
#[tactic(auto, unfolding(crate::specs::Frames::stated))]
fn stated_length(bytes: &[u8]) -> Option<usize>
    requires { 4 ≤ length bytes.now }
    ensures some { IfSome result (λ n. (take 4 bytes.now ≡ length_field n) × (n ≤ max_piece)) }
    ensures none { IsNone result → stated bytes.now % factor ≡ 0 → ⊥ }
{
    let mut field = [0; 4];
    field.copy_from_slice(&bytes[..4]);
    let number = u32::from_be_bytes(field);
    if number % FACTOR != 0 {
        return None;
    }
    Some((number / FACTOR) as usize)
}

/// Finds what these bytes begin with, after frames up to this chain.
pub fn next_frame<'a>(chain: &[u8; 32], bytes: &'a [u8]) -> Next<'a>
    ensures { Finds chain.now bytes.now result }
{
    if bytes.len() < 4 {
        return Next::Torn;
    }
    let Some(count) = stated_length(bytes) else {
        return Next::Damaged;
    };
    if bytes.len() < count + OVERHEAD {
        return Next::Torn;
    }
    let piece = &bytes[4..count + 4];
    let after = digest(chain, &bytes[..4], piece);
    let rest = &bytes[count + 4..];
    if &rest[..4] != &after[..4] {
        return Next::Damaged;
    }
    Next::Frame(piece, after, &rest[4..])
}
