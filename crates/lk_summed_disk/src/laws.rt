//! Laws about what a stop leaves of a file with sums, and what a disk that changes bytes may do unnoticed. A law is a
//! theorem, stated as the contract of a function that does nothing.
ghost use Rattle.std.specs.Prelude.{◌≡◌, ◌<◌, ◌+◌, ◌*◌, ◌^◌, ◌++◌, ℕ, List, length};
ghost use Rattle.lk_disk.specs.Disk.{Disk, MayLeave, contents};
ghost use Rattle.lk_disk.specs.declared.device.Side.{Side};
ghost use Rattle.lk_summed_disk.specs.Frames.{factor, magic, seed};
ghost use Rattle.lk_summed_disk.specs.Readers.{decoded, fresh, read, text, IsSound};
ghost use Rattle.lk_summed_disk.specs.Changes.{AllFit, written, joined, Explains};

/// Whatever a stop leaves of the device below is no damage, and its text is what a stop may leave of this device.
pub fn after_a_stop()
    ensures sound { (s : Side) (d : Disk) (left : List ℕ) → IsSound (read (fresh s) (contents d)) → MayLeave d left
        → IsSound (read (fresh s) left) }
    ensures leaves { (s : Side) (d : Disk) (left : List ℕ) → MayLeave d left
        → MayLeave (decoded s d) (text (fresh s) left) }
{}

/// What was written reads as the pieces, without damage. Its length is theirs, eight bytes for each, and eight more.
pub fn what_is_written()
    ensures text { (s : Side) (pieces : List (List ℕ)) → AllFit pieces
        → text (fresh s) (written s pieces) ≡ joined pieces }
    ensures sound { (s : Side) (pieces : List (List ℕ)) → AllFit pieces
        → IsSound (read (fresh s) (written s pieces)) }
    ensures long { (s : Side) (pieces : List (List ℕ))
        → length (written s pieces) ≡ length (joined pieces) + 8 * length pieces + 8 }
{}

/// If a file with sums is read without damage, its whole frames are a front of those that were written, or it holds the
/// right sum of a piece that was never appended there: if the disk has not changed that sum, two different texts have
/// one sum.
pub fn what_opens()
    ensures { (s : Side) (pieces : List (List ℕ)) (bytes : List ℕ) → AllFit pieces
        → IsSound (read (fresh s) (magic s ++ bytes)) → Explains (seed s) pieces bytes }
{}

/// Two numbers that are written as lengths never differ in one byte only.
pub fn lengths_apart()
    ensures first { (n m d : ℕ) → 0 < d → d < 256 → m * factor ≡ n * factor + d * 256 ^ 3 → ⊥ }
    ensures second { (n m d : ℕ) → 0 < d → d < 256 → m * factor ≡ n * factor + d * 256 ^ 2 → ⊥ }
    ensures third { (n m d : ℕ) → 0 < d → d < 256 → m * factor ≡ n * factor + d * 256 → ⊥ }
    ensures fourth { (n m d : ℕ) → 0 < d → d < 256 → m * factor ≡ n * factor + d → ⊥ }
{}
