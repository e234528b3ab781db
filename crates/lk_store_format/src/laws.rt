//! Laws of the files' grammar: each is the contract of a function that does nothing.
ghost use Rattle.std.specs.Prelude.{◌≡◌, ◌<◌, ◌++◌, List, ℕ, length};
ghost use Rattle.lk_store_format.specs.Entries.{IsStored, spelling, SpellsEntry};
ghost use Rattle.lk_store_format.specs.Files.{AreWholeEntries};
ghost use Rattle.lk_store_format.specs.declared.stored.Stored.{Stored};

/// Any bytes have exactly one list of whole entries.
pub fn whole_entries(bytes: &[u8])
    ensures some { (es : List Stored) × AreWholeEntries bytes.now es }
    ensures one { (es fs : List Stored) → AreWholeEntries bytes.now es → AreWholeEntries bytes.now fs → es ≡ fs }
{
    let _ = bytes;
}

/// Bytes spell at most one entry, no spelling is a prefix of another, and none is empty.
pub fn one_spelling()
    ensures one { (e f : Stored) (bytes : List ℕ) → SpellsEntry e bytes → SpellsEntry f bytes → e ≡ f }
    ensures no_front { (e f : Stored) (x y : List ℕ) → IsStored e → IsStored f
        → spelling e ++ x ≡ spelling f ++ y → (e ≡ f) × (x ≡ y) }
    ensures long { (e : Stored) → 0 < length (spelling e) }
{}
