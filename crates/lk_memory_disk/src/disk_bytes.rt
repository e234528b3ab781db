// The bytes of one disk in memory.
ghost use Rattle.std.specs.Prelude.{◌≡◌, ◌≤◌, ◌+◌, ◌↔◌, [], length, IsTrue, IsFalse, OnOk, OnErr, slice_range};
ghost use Rattle.lk_disk.specs.Disk.{contents, appended, fully_synced, cut_to, after_stop};

use std::alloc::{AllocError, Global};
use std::marker::Model;

// The bytes of one disk, and how many of them are synced, counted from the first.
#[derive(Drop)]
pub(crate) struct DiskBytes {
    bytes: Vec<u8>,
    synced: usize,
}

impl Model for DiskBytes {
    ghost use Rattle.std.specs.Prelude.{◌≤◌, length, take, drop};
    ghost use Rattle.lk_disk.specs.Disk.{Disk};

    ghost Value = { Disk };

    ghost view = { λ f. record { synced = take f.synced f.bytes.items; unsynced = drop f.synced f.bytes.items } };

    ghost invariant = { λ f. f.synced ≤ length f.bytes.items };
}

impl DiskBytes {
    /// Returns an empty disk. Takes no memory.
    pub fn new(alloc: Global) -> Self
        ensures { result ≡ record { synced = []; unsynced = [] } }
    {
        DiskBytes {
            bytes: Vec::new(alloc),
            synced: 0,
        }
    }

    /// How many bytes it has, synced or not.
    pub fn len(&self) -> usize
        ensures { result ≡ length (contents self.now) }
    {
        self.bytes.len()
    }

    /// Fills the buffer with the bytes from the offset on. Returns false, and leaves the buffer as it was, if there are
    /// fewer.
    pub fn read_into(&self, offset: usize, buffer: &mut [u8]) -> bool
        ensures within { IsTrue result ↔ (offset + length buffer.old ≤ length (contents self.now)) }
        ensures value { IsTrue result
            → buffer.new ≡ slice_range (contents self.now) offset (offset + length buffer.old) }
        ensures unchanged { IsFalse result → buffer.new ≡ buffer.old }
    {
        let end = offset.saturating_add(buffer.len());
        let Some(bytes) = self.bytes.get(offset..end) else {
            return false;
        };
        buffer.copy_from_slice(bytes);
        true
    }

    /// Appends the piece to the unsynced bytes, or nothing if it is out of memory.
    pub fn append(&mut self, piece: &[u8]) -> Result<(), AllocError>
        ensures ok { OnOk result (self.new ≡ appended self.old piece.now) }
        ensures err { OnErr result (self.new ≡ self.old) }
    {
        self.bytes.extend_from_slice(piece)
    }

    /// Marks all bytes as synced.
    pub fn sync(&mut self)
        ensures { self.new ≡ fully_synced self.old }
    {
        self.synced = self.bytes.len();
    }

    /// Cuts the disk to this many bytes, if it has more. What is left is synced.
    pub fn cut(&mut self, len: usize)
        ensures { self.new ≡ cut_to len self.old }
    {
        self.bytes.truncate(len);
        self.synced = self.bytes.len();
    }

    /// Simulates a stop of the machine: keeps the synced bytes and up to this many unsynced ones. What is left is
    /// synced.
    pub fn stop(&mut self, unsynced: usize)
        ensures { self.new ≡ after_stop unsynced self.old }
    {
        let kept = unsynced.min(self.bytes.len() - self.synced);
        self.bytes.truncate(self.synced + kept);
        self.synced = self.bytes.len();
    }
}
