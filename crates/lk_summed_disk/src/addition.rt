// What an append of a piece becomes on the device below.
ghost use Rattle.std.specs.Prelude.{◌≡◌, ◌≤◌, ◌++◌, ◌∷◌, ℕ, List, [], IfSome, IsTrue, length};
ghost use Rattle.lk_summed_disk.specs.Frames.{frame, digest, max_piece, HasSums};
ghost use Rattle.lk_summed_disk.specs.Readers.{fresh, plain, framed};
ghost use Rattle.lk_summed_disk.specs.Places.{Adds, reader};
ghost use Rattle.lk_summed_disk.specs.declared.place.Form.TheVariants.{Empty};
ghost use Rattle.lk_disk.specs.declared.device.Side.{Side};

use crate::frame::{begins_plain, digest, length_field, magic, seed};
use crate::place::Form;
use lk_disk::Side;
use std::alloc::Global;

/// The bytes that add a piece to a file, and how the file goes on after them.
#[derive(Drop)]
pub struct Addition {
    pub bytes: Vec<u8>,
    pub form: Form,
}

// Appends the frame of a piece to the bytes, and returns the chain after it; `None` if the piece is too long, or memory
// runs out.
#[tactic(auto, unfolding(crate::specs::Frames::frame))]
fn add_frame(bytes: &mut Vec<u8>, chain: &[u8; 32], piece: &[u8]) -> Option<[u8; 32]>
    ensures fits { IfSome result (λ _. length piece.now ≤ max_piece) }
    ensures chain { IfSome result (λ after. after ≡ digest chain.now piece.now) }
    ensures bytes { IfSome result (λ _. bytes.new.items ≡ bytes.old.items ++ frame chain.now piece.now) }
{
    let field = length_field(piece.len())?;
    let after = digest(chain, &field, piece);
    bytes.extend_from_slice(&field).ok()?;
    bytes.extend_from_slice(piece).ok()?;
    bytes.extend_from_slice(&after[..4]).ok()?;
    Some(after)
}

// Returns what adds a piece after frames.
fn next_addition(alloc: Global, chain: &[u8; 32], piece: &[u8]) -> Option<Addition>
    ensures { (side : Side) → IfSome result
        (λ a. Adds (framed chain.now []) piece.now a.bytes.items (reader side a.form)) }
{
    let mut bytes = Vec::new(alloc);
    let after = add_frame(&mut bytes, chain, piece)?;
    Some(Addition {
        bytes,
        form: Form::Summed(after),
    })
}

// Returns what begins a file with sums.
fn first_addition(alloc: Global, side: Side, piece: &[u8]) -> Option<Addition>
    ensures begins { IfSome result (λ a. HasSums side a.bytes.items) }
    ensures adds { IfSome result (λ a. Adds (fresh side) piece.now a.bytes.items (reader side a.form)) }
{
    let mut bytes = magic(side).to_vec(alloc).ok()?;
    let after = add_frame(&mut bytes, &seed(side), piece)?;
    Some(Addition {
        bytes,
        form: Form::Summed(after),
    })
}

// Returns what adds a piece to a file without sums, or begins one.
fn plain_addition(alloc: Global, piece: &[u8]) -> Option<Addition>
    ensures plain { (side : Side) → IfSome result (λ a. Adds plain piece.now a.bytes.items (reader side a.form)) }
    ensures begun { (side : Side) (rest : List ℕ) → piece.now ≡ 0 ∷ rest
        → IfSome result (λ a. Adds (fresh side) piece.now a.bytes.items (reader side a.form)) }
{
    let bytes = piece.to_vec(alloc).ok()?;
    Some(Addition {
        bytes,
        form: Form::Plain,
    })
}

// Returns what begins a file, with sums if `sums` says so.
fn begin_file(alloc: Global, side: Side, sums: bool, piece: &[u8]) -> Option<Addition>
    ensures begins { IsTrue sums → IfSome result (λ a. HasSums side a.bytes.items) }
    ensures adds { IfSome result (λ a. Adds (fresh side) piece.now a.bytes.items (reader side a.form)) }
{
    if sums {
        return first_addition(alloc, side, piece);
    }
    if !begins_plain(piece) {
        return None;
    }
    plain_addition(alloc, piece)
}

/// Returns what adds a piece to a file of this form. An empty file begins with sums if `sums` says so. `None` if memory
/// runs out, if the piece is too long, or if a file without sums would not begin with a zero.
pub fn make_addition(
    alloc: Global,
    side: Side,
    form: Form,
    sums: bool,
    piece: &[u8],
) -> Option<Addition>
    ensures begins { IsTrue sums → form ≡ Empty → IfSome result (λ a. HasSums side a.bytes.items) }
    ensures adds { IfSome result (λ a. Adds (reader side form) piece.now a.bytes.items (reader side a.form)) }
{
    match form {
        Form::Summed(chain) => next_addition(alloc, &chain, piece),
        Form::Plain => plain_addition(alloc, piece),
        Form::Empty => begin_file(alloc, side, sums, piece),
    }
}
