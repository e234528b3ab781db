// The store: appends entries to the live file, and replaces them by a Base in the other file.
ghost use Rattle.std.specs.Prelude.{◌≡◌, ◌++◌, ◌∷◌, ◌<◌, ◌≤◌, ◌^◌, ◌+◌, ◌-◌, ◌*◌, List, [], length, true, false, IfOk};
ghost use Rattle.std.specs.Prelude.{OnOk, IsErrOf};
ghost use Rattle.lk_disk.specs.Disk.{contents, other};
ghost use Rattle.lk_disk.specs.Meters.{trapped};
ghost use Rattle.lk_disk.specs.declared.device.Side.{Side};
ghost use Rattle.lk_store_format.specs.Entries.{plain};
ghost use Rattle.lk_store_format.specs.declared.stored.Stored.{Stored};
ghost use Rattle.lk_store_format.specs.declared.stored.Stored.TheVariants.{Base};
ghost use Rattle.lk_log.specs.Causes.{FailuresRise, IsOfDevice, IsOfDeviceOrMemory, RefusesFor, RefusesOrIsLast};
ghost use Rattle.lk_log.specs.Causes.{FailsByRefusing, FailsUnlessLast, IsMetered, put_calls, rebase_calls};
ghost use Rattle.lk_log.specs.Rooms.{StaysWithin};
ghost use Rattle.lk_log.specs.StoreValue.{disks};
ghost use Rattle.lk_log.specs.Stores.{HoldsEntries, KeepsAtLeast, KeepsItsFile, KeepsBothDisks, KeepsOtherDisk};
ghost use Rattle.lk_log.specs.Stores.{FitsBase, base_room};
ghost use Rattle.lk_log.specs.Stores.{next_base, SwitchesFiles, LeavesEmpty, KeepsOrIs};

use crate::adding::add;
use crate::fault::StoreFault;
use crate::rebasing::{other, switch_files};
use lk_disk::{LogDisk, Side, Trap, Trapped};
use lk_store_format::{Header, Standing, encode_parts};
use lk_types::Entry;
use lk_types::limits::MAX_COUNT;
use std::alloc::Global;
use std::marker::Model;

/// A store: a live file, to which it appends entries, and the other file of its device.
#[derive(Drop)]
pub struct Store<D: LogDisk + Drop> {
    pub(crate) alloc: Global,
    pub(crate) device: D,
    pub(crate) live: Side,
    pub(crate) generation: u64,
    pub(crate) format: u8,
    pub(crate) header: Header,
    // Set before each call of the device and cleared after it, so that an early return with an error leaves it set.
    pub(crate) failed: bool,
}

impl<D: LogDisk + Drop> Model for Store<D> {
    ghost use Rattle.lk_disk.specs.Disk.{other};
    ghost use Rattle.lk_log.specs.StoreValue.{StoreValue};

    ghost Value = { StoreValue };

    ghost view = { λ s. record {
      live_disk = D.disk s.device s.live;
      other_disk = D.disk s.device (other s.live);
      failures = D.failures s.device;
      meter = D.meter s.device;
      live = s.live;
      generation = s.generation;
      format = s.format;
      header = s.header;
      failed = s.failed;
    } };
}

impl<D: LogDisk + Drop> Store<D> {
    /// Adds entries after those of the live file, which has format 2, and syncs them if asked to.
    ///
    /// It fails with `Device` (7) and `NoMemory` (8); after that every call fails with `Failed` (11).
    pub fn put(&mut self, entries: &[Entry], sync: bool) -> Result<(), StoreFault>
        requires { self.old.format ≡ 2 }
        // At Ok the entries are there, synced if asked to.
        ensures added { D.is_honest → sync ≡ false → (ks ls : List Stored) → HoldsEntries self.old ks ls
            → OnOk result (HoldsEntries self.new ks (ls ++ plain entries.now)) }
        ensures synced { D.is_honest → sync ≡ true → (ks ls : List Stored) → HoldsEntries self.old ks ls
            → OnOk result (HoldsEntries self.new (ks ++ (ls ++ plain entries.now)) []) }
        // However it ends, each image that a stop may leave has all synced entries, and a prefix of the rest.
        ensures every_image { D.is_honest → (ks ls : List Stored) → HoldsEntries self.old ks ls
            → KeepsAtLeast self.new ks (ls ++ plain entries.now) }
        // The other file is unchanged, and out of memory the live one is too.
        ensures beside { D.is_honest → KeepsOtherDisk self.old self.new result }
        // However it ends, the live file has grown by no more bytes than this many entries have, each at most 102.
        ensures grows { D.is_honest
            → length (contents self.new.live_disk) ≤ length (contents self.old.live_disk) + 102 * length entries.now }
        ensures file { KeepsItsFile self.old self.new }
        ensures failing { FailsByRefusing self.new result }
        ensures refuses { RefusesFor IsOfDeviceOrMemory self.old self.new result }
        ensures cause { FailuresRise self.old.failures self.new.failures result }
        // For a metered device: an append if there are entries, and a sync if asked to.
        ensures metered { D.is_metered → IsMetered self.old.meter self.new.meter (put_calls entries.now sync) result }
    {
        if self.failed {
            return Err(StoreFault::Failed);
        }
        self.failed = true;
        add(self.alloc, &mut self.device, self.live, entries, sync)?;
        self.failed = false;
        Ok(())
    }

    /// Gives what was written to the live file to the operating system, unsynced: if the process is killed afterwards,
    /// none of it is lost.
    ///
    /// It takes no memory, and fails with `Device` (7) only; after that every call fails with `Failed` (11).
    pub fn flush(&mut self) -> Result<(), StoreFault>
        // It changes nothing of a store that goes on, and no file, however it ends.
        ensures ok { D.is_honest → OnOk result (self.new ≡ self.old) }
        ensures disks { D.is_honest → KeepsBothDisks self.old self.new }
        ensures file { KeepsItsFile self.old self.new }
        ensures failing { FailsByRefusing self.new result }
        ensures refuses { RefusesFor IsOfDevice self.old self.new result }
        ensures cause { FailuresRise self.old.failures self.new.failures result }
        // For a metered device: no call.
        ensures metered { D.is_metered → IsMetered self.old.meter self.new.meter 0 result }
    {
        if self.failed {
            return Err(StoreFault::Failed);
        }
        self.failed = true;
        self.device.flush(self.live)?;
        self.failed = false;
        Ok(())
    }

    /// Syncs the live file, with everything that was written to it.
    ///
    /// It takes no memory, and fails with `Device` (7) only; after that every call fails with `Failed` (11).
    pub fn sync(&mut self) -> Result<(), StoreFault>
        // At Ok all entries are synced.
        ensures synced { D.is_honest → (ks ls : List Stored) → HoldsEntries self.old ks ls
            → OnOk result (HoldsEntries self.new (ks ++ ls) []) }
        // However it ends, each image that a stop may leave has all synced entries, and a prefix of the rest.
        ensures every_image { D.is_honest → (ks ls : List Stored) → HoldsEntries self.old ks ls
            → KeepsAtLeast self.new ks ls }
        // Neither file is longer, however it ends.
        ensures room { D.is_honest → StaysWithin 0 (disks self.old) (disks self.new) }
        ensures file { KeepsItsFile self.old self.new }
        ensures failing { FailsByRefusing self.new result }
        ensures refuses { RefusesFor IsOfDevice self.old self.new result }
        ensures cause { FailuresRise self.old.failures self.new.failures result }
        // For a metered device: one call.
        ensures metered { D.is_metered → IsMetered self.old.meter self.new.meter 1 result }
    {
        if self.failed {
            return Err(StoreFault::Failed);
        }
        self.failed = true;
        self.device.sync(self.live)?;
        self.failed = false;
        Ok(())
    }

    /// Writes a standing as the Base of the file that is not live, with the next generation, and switches to it: the
    /// formerly live file is truncated to nothing. The new one has format 2, whatever the other had, and stands for
    /// exactly this standing, and for nothing that was written before.
    ///
    /// It fails with `Device` (7) and `NoMemory` (8); after that every call fails with `Failed` (11). At generation
    /// 2^48 it fails with `Failed` and changes nothing. It takes memory only before it calls the device.
    pub fn rebase(&mut self, standing: &Standing) -> Result<(), StoreFault>
        requires { FitsBase standing.now }
        // At Ok the Base alone is there, synced, and the old file is empty.
        ensures base { D.is_honest → (ks ls : List Stored) → HoldsEntries self.old ks ls
            → OnOk result (HoldsEntries self.new (Base (next_base self.old standing.now) ∷ []) []) }
        ensures left { D.is_honest → OnOk result (LeavesEmpty (base_room standing.now) self.new) }
        // However it ends, each image that a stop may leave has what it had before, or that Base alone.
        ensures every_image { D.is_honest → (ks ls : List Stored) → HoldsEntries self.old ks ls
            → KeepsOrIs (disks self.new) ks ls (next_base self.old standing.now) }
        ensures no_memory { D.is_honest → IsErrOf result StoreFault.NoMemory → (s : Side)
            → disks self.new s ≡ disks self.old s }
        // However it ends, neither file has grown, except up to the size of a Base of this standing.
        ensures room { D.is_honest → StaysWithin (base_room standing.now) (disks self.old) (disks self.new) }
        ensures file { SwitchesFiles self.old self.new result }
        ensures failing { FailsUnlessLast self.old self.new result }
        ensures refuses { RefusesOrIsLast IsOfDeviceOrMemory self.old self.new result }
        ensures cause { FailuresRise self.old.failures self.new.failures result }
        // For a metered device: four calls.
        ensures metered { D.is_metered → D.is_honest → IsMetered self.old.meter self.new.meter rebase_calls result }
    {
        if self.failed || self.generation >= MAX_COUNT {
            return Err(StoreFault::Failed);
        }
        self.header.facts();
        standing.facts();
        self.failed = true;
        let bytes = encode_parts(self.alloc, self.generation + 1, 2, &self.header, standing)?;
        switch_files(&mut self.device, self.live, &bytes)?;
        self.live = other(self.live);
        self.generation += 1;
        self.format = 2;
        self.failed = false;
        Ok(())
    }

    /// Returns the number of bytes of the live file, synced or not.
    ///
    /// It takes no memory, and fails with `Device` (7) only; after that every call fails with `Failed` (11).
    pub fn live_length(&mut self) -> Result<usize, StoreFault>
        ensures value { D.is_honest → IfOk result (λ n. n ≡ length (contents self.old.live_disk)) }
        ensures disks { D.is_honest → KeepsBothDisks self.old self.new }
        ensures file { KeepsItsFile self.old self.new }
        ensures failing { FailsByRefusing self.new result }
        ensures refuses { RefusesFor IsOfDevice self.old self.new result }
        ensures cause { FailuresRise self.old.failures self.new.failures result }
        ensures metered { D.is_metered → IsMetered self.old.meter self.new.meter 0 result }
    {
        if self.failed {
            return Err(StoreFault::Failed);
        }
        self.failed = true;
        let length = self.device.length(self.live)?;
        self.failed = false;
        Ok(length)
    }

    /// Returns the format of the live file, 1 or 2.
    pub fn format(&self) -> u8
        ensures { result ≡ self.now.format }
    {
        self.format
    }

    /// The device.
    pub fn device(&self) -> &D
        ensures live_disk { D.disk result.now self.now.live ≡ self.now.live_disk }
        ensures other_disk { D.disk result.now (other self.now.live) ≡ self.now.other_disk }
        ensures failures { D.failures result.now ≡ self.now.failures }
        ensures meter { D.meter result.now ≡ self.now.meter }
    {
        &self.device
    }

    /// Returns the generation of the live file's Base.
    pub fn generation(&self) -> u64
        ensures { result ≡ self.now.generation }
    {
        self.generation
    }

    /// Closes the store and returns its device, with both files as they are.
    pub fn into_disks(self) -> D
        ensures live_disk { D.disk result self.live ≡ self.live_disk }
        ensures other_disk { D.disk result (other self.live) ≡ self.other_disk }
        ensures failures { D.failures result ≡ self.failures }
        ensures meter { D.meter result ≡ self.meter }
    {
        let Store {
            alloc: _,
            device,
            live: _,
            generation: _,
            format: _,
            header: _,
            failed: _,
        } = self;
        device
    }
}

impl<D: Trapped + Drop> Store<D> {
    /// Sets the trap of the device: the call at which it is to fail or stop. Changes no file.
    pub fn trap(&mut self, trap: Trap)
        ensures set { D.is_metered → self.new.meter ≡ trapped trap self.old.meter }
        ensures live_disk { D.is_honest → self.new.live_disk ≡ self.old.live_disk }
        ensures other_disk { D.is_honest → self.new.other_disk ≡ self.old.other_disk }
        ensures failures { self.new.failures ≡ self.old.failures }
        ensures live { self.new.live ≡ self.old.live }
        ensures generation { self.new.generation ≡ self.old.generation }
        ensures format { self.new.format ≡ self.old.format }
        ensures header { self.new.header ≡ self.old.header }
        ensures failed { self.new.failed ≡ self.old.failed }
    {
        self.device.trap(trap);
    }
}
