//! The fences that the new cluster is to have.

ghost use Rattle.std.specs.Prelude.{◌≡◌, ◌<◌, ◌++◌, true, IfOk, IfSome};
ghost use Rattle.lk_types.specs.Limits.{max_count};
ghost use Rattle.lk_seed.specs.Fences.{all_wanted_past, wanted_past};
ghost use Rattle.lk_seed.specs.Words.{SpellsWanted};

use lk_locks::{LockEntry, Name};
use lk_types::limits::MAX_COUNT;
use lk_types::{Fence, NoMemory};
use lk_word_parsers::number::read_number;
use lk_word_parsers::word::split_once;

/// A name, and the least last fence that it is to have: below 2^48, so that the name can be granted once more.
#[derive(Drop)]
pub struct Wanted {
    pub name: Name,
    pub fence: Fence,
}

// Returns this fence, or `None` if it is out of range or no grant could follow it.
fn fence_of(value: u64) -> Option<Fence>
    ensures { IfSome result (λ fence. (fence ≡ value) × (value < max_count)) }
{
    if value >= MAX_COUNT {
        return None;
    }
    Fence::of(value)
}

/// Reads `NAME:FENCE`. `None` if it is anything else, or the fence is not 1 to 2^48 - 1.
pub fn read_wanted(word: &[u8]) -> Option<Wanted>
    ensures { IfSome result (SpellsWanted word.now) }
{
    let Some((name, fence)) = split_once(word, b':') else {
        return None;
    };
    let Some(name) = Name::of(name) else {
        return None;
    };
    let Some(number) = read_number(fence, MAX_COUNT) else {
        return None;
    };
    let Some(fence) = fence_of(number) else {
        return None;
    };
    Some(Wanted { name, fence })
}

// Returns what is wanted of a name with this lock entry: its last fence and `past` more. `None` if no grant could
// follow it.
fn wanted_of(name: &Name, lock_entry: &LockEntry, past: u64) -> Option<Wanted>
    ensures { IfSome result (λ w. (w ≡ wanted_past past (name.now, lock_entry.now)) × (w.fence < max_count)) }
{
    let Some(value) = lock_entry.fence.get().checked_add(past) else {
        return None;
    };
    let Some(fence) = fence_of(value) else {
        return None;
    };
    Some(Wanted {
        name: name.copy(),
        fence,
    })
}

/// Appends what is wanted of each of these names: its last fence and `past` more. Returns whether a grant could follow
/// each of these fences; if not, it has appended some.
#[tactic(auto, using(crate::proofs::FenceLaws::wanted_more))]
pub fn add_wanted(
    wanted: &mut Vec<Wanted>,
    names: &[(Name, LockEntry)],
    past: u64,
) -> Result<bool, NoMemory>
    ensures { IfOk result (λ all. all ≡ true
        → wanted.new.items ≡ wanted.old.items ++ all_wanted_past past names.now) }
{
    for (name, lock_entry) in names {
        let Some(one) = wanted_of(name, lock_entry, past) else {
            return Ok(false);
        };
        wanted.push(one)?;
    }
    Ok(true)
}
