// The steps of opening a store that a stop may have left: find the live file, and cut off its torn end.
ghost use Rattle.std.specs.Prelude.{◌≡◌, ◌+◌, List, [], ◌∷◌, false, length, IfOk, IfSome, OnOk, IsErrOf, Ok};
ghost use Rattle.lk_disk.specs.Disk.{contents, other, fully_synced, HasCause};
ghost use Rattle.lk_store_format.specs.Entries.{spelling_of_all};
ghost use Rattle.lk_store_format.specs.Files.{IsFile};
ghost use Rattle.lk_store_format.specs.Bases.{is_misplaced, generation};
ghost use Rattle.lk_store_format.specs.declared.stored.Stored.{Stored};
ghost use Rattle.lk_log.specs.Causes.{ComesBy};
ghost use Rattle.lk_log.specs.OpenCauses.{FailuresRise, IsMetered};
ghost use Rattle.lk_log.specs.Rooms.{StaysWithin};
ghost use Rattle.lk_log.specs.Images.{unless_damaged, verdict, IsEmpty, IsDamaged, Narrows, seen};
ghost use Rattle.lk_log.specs.Stores.{cut_calls, FileNarrows, HoldsOn, IsOlder, FoundLive, HasStanding};

use crate::fault::OpenFault;
use crate::file::{File, generation_of, is_misplaced, read_file};
use crate::verdict::Verdict;
use lk_disk::{DeviceFault, LogDisk, Side};
use std::alloc::Global;

// Returns the verdict, or `Damaged` if the file that it rests on is damaged.
fn unless_damaged(is_damaged: bool, verdict: Verdict) -> Verdict
    ensures { result ≡ unless_damaged is_damaged verdict }
{
    if is_damaged {
        Verdict::Damaged
    } else {
        verdict
    }
}

// Decides which of two files is live: the one whose Base has the greater generation. Two Bases of one generation, or a
// misplaced one, are damage; damage in the older file is ignored.
fn verdict(a: &File, b: &File) -> Verdict
    ensures { result ≡ verdict a.now.entries.items b.now.entries.items a.now.is_damaged b.now.is_damaged }
{
    if is_misplaced(&a.entries) || is_misplaced(&b.entries) {
        return Verdict::Damaged;
    }
    let (a_generation, b_generation) = (generation_of(&a.entries), generation_of(&b.entries));
    if b_generation < a_generation {
        return unless_damaged(a.is_damaged, Verdict::Live(Side::A));
    }
    if a_generation < b_generation {
        return unless_damaged(b.is_damaged, Verdict::Live(Side::B));
    }
    if a_generation > 0 {
        return Verdict::Damaged;
    }
    unless_damaged(a.is_damaged || b.is_damaged, Verdict::Empty)
}

/// Reads both files and returns the live one, or `None` if neither has a Base. Changes nothing. It fails with `Device`,
/// `NoMemory` and `Damaged`.
pub fn find<D: LogDisk>(alloc: Global, device: &mut D) -> Result<Option<(Side, File)>, OpenFault>
    ensures unchanged { D.is_honest → (s : Side) → D.disk device.new s ≡ D.disk device.old s }
    ensures damaged { D.is_honest → IsErrOf result OpenFault.Damaged → IsDamaged (seen (D.disk device.old)) }
    ensures empty { D.is_honest → result ≡ Ok None → IsEmpty (seen (D.disk device.old)) }
    ensures live { D.is_honest
        → IfOk result (λ found. IfSome found
        (λ f. FoundLive (D.disk device.old) f.0 f.1.entries.items f.1.end f.1.size)) }
    ensures stands { IfOk result (λ found. IfSome found (λ f. HasStanding f.1.entries.items)) }
    ensures wrong { IsErrOf result OpenFault.WrongStore → ⊥ }
    ensures cause { FailuresRise (D.failures device.old) (D.failures device.new) result }
    ensures metered { D.is_metered → D.is_honest → IsMetered (D.meter device.old) (D.meter device.new) 0 result }
{
    let a = read_file(alloc, device, Side::A)?;
    let b = read_file(alloc, device, Side::B)?;
    match verdict(&a, &b) {
        Verdict::Damaged => Err(OpenFault::Damaged),
        Verdict::Empty => Ok(None),
        Verdict::Live(Side::A) => Ok(Some((Side::A, a))),
        Verdict::Live(Side::B) => Ok(Some((Side::B, b))),
    }
}

// Cuts the live file to its whole entries, without a call if nothing follows them. They end at `end`, the file at
// `size`.
fn cut_torn_end<D: LogDisk>(
    device: &mut D,
    live: Side,
    end: usize,
    size: usize,
) -> Result<(), DeviceFault>
    ensures contents { D.is_honest → (es : List Stored) → FoundLive (D.disk device.old) live es end size
        → OnOk result (contents (D.disk device.new live) ≡ spelling_of_all es) }
    ensures narrows { D.is_honest → (es : List Stored) → FoundLive (D.disk device.old) live es end size
        → FileNarrows (D.disk device.old live) (D.disk device.new live) }
    ensures room { D.is_honest → StaysWithin 0 (D.disk device.old) (D.disk device.new) }
    ensures beside { D.is_honest → D.disk device.new (other live) ≡ D.disk device.old (other live) }
    ensures cause { HasCause (D.failures device.old) (D.failures device.new) result }
    ensures metered { D.is_metered → D.is_honest → (es : List Stored) → FoundLive (D.disk device.old) live es end size
        → ComesBy (D.meter device.old) (D.meter device.new) (cut_calls end size) result }
{
    if size <= end {
        return Ok(());
    }
    device.cut(live, end)?;
    Ok(())
}

/// Cuts the torn end off the live file, and syncs the file, so that a later stop keeps everything that was read. The
/// whole entries end at `end`, the file at `size`.
pub fn cut_and_sync<D: LogDisk>(
    device: &mut D,
    live: Side,
    end: usize,
    size: usize,
) -> Result<(), DeviceFault>
    ensures holds { D.is_honest → (es : List Stored) → FoundLive (D.disk device.old) live es end size
        → OnOk result (HoldsOn (D.disk device.new live) (D.disk device.new (other live)) es []) }
    ensures narrows { D.is_honest → (es : List Stored) → FoundLive (D.disk device.old) live es end size
        → Narrows (D.disk device.old) (D.disk device.new) }
    ensures room { D.is_honest → StaysWithin 0 (D.disk device.old) (D.disk device.new) }
    ensures cause { HasCause (D.failures device.old) (D.failures device.new) result }
    ensures metered { D.is_metered → D.is_honest → (es : List Stored) → FoundLive (D.disk device.old) live es end size
        → ComesBy (D.meter device.old) (D.meter device.new) (cut_calls end size + 1) result }
{
    cut_torn_end(device, live, end, size)?;
    device.sync(live)?;
    Ok(())
}
