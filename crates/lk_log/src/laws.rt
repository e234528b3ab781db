//! Laws about the verdict on two files and about what a stop may leave of a store. A law is a theorem, stated as the
//! contract of a function that does nothing.
ghost use Rattle.std.specs.Prelude.{◌≡◌, ◌≤◌, ◌++◌, ◌∷◌, [], List, length, ℕ, Bool, true};
ghost use Rattle.lk_types.specs.declared.entry.Entry.{Entry};
ghost use Rattle.lk_disk.specs.Disk.{Disk};
ghost use Rattle.lk_disk.specs.declared.device.Side.{Side};
ghost use Rattle.lk_store_format.specs.Entries.{plain, spelling, IsStored};
ghost use Rattle.lk_store_format.specs.Standings.{StandsFor, with_plain};
ghost use Rattle.lk_store_format.specs.Values.{BaseValue, HeaderValue, StandingValue};
ghost use Rattle.lk_store_format.specs.declared.stored.Stored.{Stored};
ghost use Rattle.lk_store_format.specs.declared.stored.Stored.TheVariants.{Base, Plain};
ghost use Rattle.lk_log.specs.EveryImage.{EveryFound, AllMean, NarrowsOrIsNewForSome};
ghost use Rattle.lk_log.specs.Images.{Image, MayLeaveBoth, Means, IsLive, IsEmpty, seen};
ghost use Rattle.lk_log.specs.StoreValue.{StoreValue, disks};
ghost use Rattle.lk_log.specs.Stores.{HoldsEntries, KeepsAtLeast, NarrowsOrIsNew, base_room};
ghost use Rattle.lk_log.specs.declared.verdict.Verdict.{Verdict};

/// Two files have only one verdict (damaged, empty, or one of them is live), and only one list of whole entries each.
pub fn one_meaning()
    ensures verdict { (image : Image) (v w : Verdict) (es fs : Side → List Stored) → Means image v es
        → Means image w fs → v ≡ w }
    ensures entries { (image : Image) (v w : Verdict) (es fs : Side → List Stored) → Means image v es
        → Means image w fs → (s : Side) → es s ≡ fs s }
{}

/// The entries of a live file have exactly one standing, and one more entry changes it as `with_plain` says.
pub fn one_standing()
    ensures some { (image : Image) (es : List Stored) → IsLive image es → (s : StandingValue) × StandsFor es s }
    ensures one { (es : List Stored) (s t : StandingValue) → StandsFor es s → StandsFor es t → s ≡ t }
    ensures more { (es : List Stored) (s : StandingValue) (e : Entry) → StandsFor es s
        → StandsFor (es ++ Plain e ∷ []) (with_plain e s) }
{}

/// Each image of an open store has everything that it holds synced and a prefix of the rest, which are plain entries,
/// and some image has only what is synced. If everything is synced, each image has exactly that.
pub fn what_a_stop_leaves()
    ensures keeps { (s : StoreValue) (ks ls : List Stored) → HoldsEntries s ks ls → KeepsAtLeast s ks ls }
    ensures plain { (s : StoreValue) (ks ls : List Stored) → HoldsEntries s ks ls → (more : List Entry)
        × (ls ≡ plain more) }
    ensures least { (s : StoreValue) (ks ls : List Stored) → HoldsEntries s ks ls
        → (image : Image) × MayLeaveBoth (disks s) image × IsLive image ks }
    ensures synced { (s : StoreValue) (ks : List Stored) → HoldsEntries s ks [] → (image : Image)
        → MayLeaveBoth (disks s) image → IsLive image ks }
{}

/// A Base has at most 98 bytes beside its snapshot, 97 for each vote and 85 for each pair.
pub fn bases_are_short()
    ensures { (b : BaseValue) → IsStored (Base b) → length (spelling (Base b)) ≤ base_room b.standing }
{}

/// Reading the files returns an image that a stop may leave, and files without a byte are an empty store.
pub fn what_is_read()
    ensures left { (both : Side → Disk) → MayLeaveBoth both (seen both) }
    ensures empty { (image : Image) → ((s : Side) → image s ≡ []) → IsEmpty image }
{}

/// Several openings in a row, successful or not, leave only images that one opening may leave, and preserve any
/// decidable property that every image has.
pub fn openings()
    ensures one { (old new : Side → Disk) (whose : HeaderValue) (text : List ℕ) → NarrowsOrIsNew old new whose text
        → NarrowsOrIsNewForSome old new whose text }
    ensures more { (old mid new : Side → Disk) (whose : HeaderValue) (text : List ℕ) → AllMean old
        → NarrowsOrIsNewForSome old mid whose text → NarrowsOrIsNewForSome mid new whose text
        → NarrowsOrIsNewForSome old new whose text }
    ensures keep { (old new : Side → Disk) (whose : HeaderValue) (text : List ℕ) (test : List Stored → Bool)
        → NarrowsOrIsNewForSome old new whose text
        → EveryFound old whose text (λ es. test es ≡ true) → EveryFound new whose text (λ es. test es ≡ true) }
{}
