// The trait of a file that grows at its end: what each call of it, and a stop, leave of its bytes.
ghost use Rattle.std.specs.Prelude.{◌≡◌, ◌≤◌, ◌+◌, ℕ, length, slice_range, OnOk, OnErr, IfOk};
ghost use Rattle.lk_disk.specs.Disk.{Disk, contents, appended, fully_synced, cut_to, AppendsSome, CutShort, HasCause};
ghost use Rattle.lk_disk.specs.Files.{File, whole, truncated, left_of, IsWhole};

use thiserror::Error;

/// A call of a file failed.
#[derive(Clone, Copy, Debug, Error)]
#[error("the file failed")]
pub struct FileFault;

/// A file that is appended to. Its synced bytes outlast a stop of the machine, which leaves a prefix of the bytes after
/// them.
///
/// Clauses about its bytes hold if the file is honest and no append, sync or truncate has failed: after such a failure
/// its content is unknown. Between a truncation and the next sync they specify only `flush` and `sync`. Each `Err` adds
/// one to the count of failures, up to 2^64 - 1.
pub trait AppendFile {
    /// What is known of its bytes, and so what a stop may leave of them.
    ghost file: { Self → File };

    /// It keeps the clauses about its bytes. This is a property of its type, so no call can change it.
    ghost is_honest: { Type 0 };

    /// How many calls have failed.
    ghost failures: { Self → ℕ };

    /// The number of its bytes, synced or not.
    fn length(&mut self) -> Result<usize, FileFault>
        ensures value { is_honest → IsWhole (file self.old)
            → IfOk result (λ n. n ≡ length (contents (left_of (file self.old)))) }
        ensures unchanged { is_honest → file self.new ≡ file self.old }
        ensures cause { HasCause (failures self.old) (failures self.new) result };

    /// Fills the buffer with the bytes from the offset on. A read past the end fails. After an `Err` the buffer may
    /// hold anything.
    fn read_into(&mut self, offset: usize, buffer: &mut [u8]) -> Result<(), FileFault>
        ensures value { is_honest → IsWhole (file self.old)
            → OnOk result (buffer.new
            ≡ slice_range (contents (left_of (file self.old))) offset (offset + length buffer.old)) }
        ensures within { is_honest → IsWhole (file self.old)
            → OnOk result (offset + length buffer.old ≤ length (contents (left_of (file self.old)))) }
        ensures unchanged { is_honest → file self.new ≡ file self.old }
        ensures cause { HasCause (failures self.old) (failures self.new) result };

    /// Appends a piece, unsynced. A failed call may have appended a prefix of it.
    fn append(&mut self, piece: &[u8]) -> Result<(), FileFault>
        ensures ok { is_honest → IsWhole (file self.old)
            → OnOk result (file self.new ≡ whole (appended (left_of (file self.old)) piece.now)) }
        ensures err { is_honest → IsWhole (file self.old)
            → OnErr result (AppendsSome piece.now (left_of (file self.old)) (left_of (file self.new))) }
        ensures cause { HasCause (failures self.old) (failures self.new) result };

    /// Hands what was appended to the operating system, so that it outlasts a kill of the process. It syncs nothing:
    /// what a stop of the machine may leave does not change, whatever the result.
    fn flush(&mut self) -> Result<(), FileFault>
        ensures unchanged { is_honest → file self.new ≡ file self.old }
        ensures cause { HasCause (failures self.old) (failures self.new) result };

    /// Makes its content outlast a stop, and completes a truncation. A failed call does not change what a stop may
    /// leave.
    fn sync(&mut self) -> Result<(), FileFault>
        ensures ok { is_honest → IsWhole (file self.old)
            → OnOk result (file self.new ≡ whole (fully_synced (left_of (file self.old)))) }
        ensures short { is_honest → (n : ℕ) (d : Disk) → file self.old ≡ truncated n d
            → OnOk result (file self.new ≡ whole (cut_to n d)) }
        ensures err { is_honest → OnErr result (left_of (file self.new) ≡ left_of (file self.old)) }
        ensures cause { HasCause (failures self.old) (failures self.new) result };

    /// Shortens the file to its first `len` bytes; it must have that many. Until the next sync a stop may leave more. A
    /// failed call leaves a prefix, with at least those of the first `len` bytes that were synced.
    fn truncate(&mut self, len: usize) -> Result<(), FileFault>
        ensures ok { is_honest → IsWhole (file self.old) → len ≤ length (contents (left_of (file self.old)))
            → OnOk result (file self.new ≡ truncated len (left_of (file self.old))) }
        ensures err { is_honest → IsWhole (file self.old) → len ≤ length (contents (left_of (file self.old)))
            → OnErr result (CutShort len (left_of (file self.old)) (left_of (file self.new))) }
        ensures cause { HasCause (failures self.old) (failures self.new) result };
}
