//! Laws about the file that is not live, stated as contracts of functions that do nothing.

ghost use Rattle.std.specs.Prelude.{◌≡◌, List, []};
ghost use Rattle.lk_disk.specs.Disk.{Disk, contents, other};
ghost use Rattle.lk_disk.specs.declared.device.Side.{Side};
ghost use Rattle.lk_log.specs.Images.{Image, IsDamaged, IsLive, MayLeaveBoth, seen};
ghost use Rattle.lk_store_format.specs.declared.stored.Stored.{Stored};
ghost use Rattle.lk_summed_disk.specs.Hiding.{without};
ghost use Rattle.lk_node_files.specs.Older.{IsOlder, IsSummed, legible};
ghost use Rattle.lk_node_files.specs.Outdated.{IsCut, IsOutdated, decoded_image};

/// A file that is older than the other one is not live: whatever the live file holds, it holds the same if the older
/// file is empty.
pub fn the_older_file_is_not_live()
    ensures { (disks : Side → Disk) (s : Side) (entries : List Stored) → IsOlder disks s
        → IsLive (legible disks) entries → IsLive (legible (without s disks)) entries }
{}

/// A cut of the outdated file changes nothing that the live file holds, however far it comes and whatever a stop leaves
/// then.
pub fn a_cut_keeps_the_live_file()
    ensures { (old new : Side → Disk) (s : Side) (image : Image) (entries : List Stored) → IsOutdated old s
        → IsCut old new s → MayLeaveBoth new image → IsLive (legible old) entries
        → IsLive (decoded_image image) entries }
{}

/// A program that knows no sums, and so reads files as they are, takes a file with sums beside an empty one for damage.
pub fn without_sums_it_is_damage()
    ensures { (disks : Side → Disk) (s : Side) → IsSummed disks (other s) → contents (disks s) ≡ []
        → IsDamaged (seen disks) }
{}
