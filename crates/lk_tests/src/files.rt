//! Two files of a folder as a device, and files whose calls fail.
use lk_disk::{AppendFile, DeviceFault, FileDisk, FileFault, LogDisk, Side};
use lk_memory_disk::MemoryFile;
use std::alloc::Global;
use std::fs;
use std::fs::Files;
use std::test::Fail;

// Three synced bytes of A and four more, of which four are read back; one byte of B.
fn written<D: LogDisk>(disk: &mut D) -> Result<[u8; 4], DeviceFault> {
    disk.append(Side::A, b"abc")?;
    disk.sync(Side::A)?;
    disk.append(Side::A, b"defg")?;
    disk.append(Side::B, b"x")?;
    let mut bytes = [0; 4];
    disk.read_into(Side::A, 1, &mut bytes)?;
    Ok(bytes)
}

fn lengths<D: LogDisk>(disk: &mut D) -> Result<(usize, usize), DeviceFault> {
    Ok((disk.length(Side::A)?, disk.length(Side::B)?))
}

// A cut past the end, which is refused, a cut, and a read past the end, which is refused too.
fn cut<D: LogDisk>(disk: &mut D) -> Result<(bool, bool), DeviceFault> {
    let is_past_end = disk.cut(Side::A, 8).is_err();
    disk.cut(Side::A, 4)?;
    let is_read_past_end = disk.read_into(Side::A, 3, &mut [0; 2]).is_err();
    Ok((is_past_end, is_read_past_end))
}

// A file of the system in which one of its calls fails once.
#[derive(Drop)]
struct Failing {
    bytes: MemoryFile,
    calls_left: u8,
}

impl Failing {
    fn count_call(&mut self) -> Result<(), FileFault> {
        if self.calls_left == 0 {
            self.calls_left = u8::MAX;
            return Err(FileFault);
        }
        self.calls_left -= 1;
        Ok(())
    }
}

impl AppendFile for Failing {
    ghost use Rattle.lk_disk.specs.Files.{unknown};

    ghost file = { λ _. unknown };

    ghost is_honest = { ⊥ };

    // Its failures are not counted: the count stands at its greatest.
    ghost failures = { λ _. 18446744073709551615 };

    fn length(&mut self) -> Result<usize, FileFault> {
        self.bytes.length()
    }

    fn read_into(&mut self, offset: usize, buffer: &mut [u8]) -> Result<(), FileFault> {
        self.bytes.read_into(offset, buffer)
    }

    fn append(&mut self, piece: &[u8]) -> Result<(), FileFault> {
        self.count_call()?;
        self.bytes.append(piece)
    }

    fn flush(&mut self) -> Result<(), FileFault> {
        self.bytes.flush()
    }

    fn sync(&mut self) -> Result<(), FileFault> {
        self.count_call()?;
        self.bytes.sync()
    }

    fn truncate(&mut self, len: usize) -> Result<(), FileFault> {
        self.count_call()?;
        self.bytes.truncate(len)
    }
}

fn failing_at(alloc: Global, calls_left: u8) -> FileDisk<Failing> {
    let bytes = MemoryFile::new(alloc);
    let other = Failing {
        bytes: MemoryFile::new(alloc),
        calls_left: u8::MAX,
    };
    FileDisk::of(Failing { bytes, calls_left }, other)
}

// Which of an append, a sync, an append and a cut at A are made, and whether A and B still answer.
fn made(disk: &mut FileDisk<Failing>) -> [bool; 6] {
    [
        disk.append(Side::A, b"abc").is_ok(),
        disk.sync(Side::A).is_ok(),
        disk.append(Side::A, b"de").is_ok(),
        disk.cut(Side::A, 4).is_ok(),
        disk.length(Side::A).is_ok(),
        disk.append(Side::B, b"x").is_ok(),
    ]
}

// How many calls pass before one fails, and what is made.
const FAILED: [(u8, [bool; 6]); 6] = [
    (0, [false, false, false, false, false, true]),
    (1, [true, false, false, false, false, true]),
    (2, [true, true, false, false, false, true]),
    (3, [true, true, true, false, false, true]),
    (4, [true, true, true, false, false, true]),
    (5, [true, true, true, true, true, true]),
];

// The first of the rows in which other calls are made.
fn first_other(alloc: Global, rows: &[(u8, [bool; 6])]) -> Option<usize> {
    for (at, (calls_left, wanted)) in rows.iter().enumerate() {
        if made(&mut failing_at(alloc, *calls_left)) != *wanted {
            return Some(at);
        }
    }
    None
}

#[test]
fn a_file_is_not_used_behind_a_failed_call(rt: HostRuntime) {
    assert_eq!(rt; first_other(rt.alloc(), &FAILED), None);
}

// A new empty folder of that name.
fn fresh<R: Files + Alloc>(rt: &R, folder: &str) -> Result<(), Fail> {
    let _ = fs::remove_dir_all(rt, folder);
    Ok(fs::create_dir(rt, folder)?)
}

// What is read, the lengths, whether a cut and a read past the end are refused, and the lengths after a cut.
fn used<R: Files>(rt: &R, alloc: Global, folder: &str) -> Result<bool, Fail> {
    let mut disk = FileDisk::open(rt, alloc, folder)?;
    let is_read = written(&mut disk)? == *b"bcde";
    let before = lengths(&mut disk)?;
    let refused = cut(&mut disk)?;
    let behind = lengths(&mut disk)?;
    Ok(is_read && (before, refused, behind) == ((7, 1), (true, true), (4, 1)))
}

#[test]
fn files_of_a_folder_are_a_device(rt: HostRuntime) -> Result<(), Fail> {
    let folder = "lk_tests_device";
    fresh(&rt, folder)?;
    let is_used = used(&rt, rt.alloc(), folder)?;
    fs::remove_dir_all(&rt, folder)?;
    assert!(rt; is_used);
    Ok(())
}

// How many bytes the system has of a file after two appends, after a flush, and after one more append and a sync.
fn given<R: Files>(rt: &R, alloc: Global, folder: &str, file: &str) -> Result<[u64; 3], Fail> {
    let mut disk = FileDisk::open(rt, alloc, folder)?;
    disk.append(Side::A, b"abc")?;
    disk.append(Side::A, b"de")?;
    let appended = fs::metadata(rt, file)?.len();
    disk.flush(Side::A)?;
    let fully_synced = fs::metadata(rt, file)?.len();
    disk.append(Side::A, b"f")?;
    disk.sync(Side::A)?;
    Ok([appended, fully_synced, fs::metadata(rt, file)?.len()])
}

#[test]
fn appended_bytes_wait_for_a_flush_or_a_sync(rt: HostRuntime) -> Result<(), Fail> {
    let folder = "lk_tests_buffer";
    fresh(&rt, folder)?;
    let given = given(&rt, rt.alloc(), folder, "lk_tests_buffer/a")?;
    fs::remove_dir_all(&rt, folder)?;
    assert_eq!(rt; given, [0, 5, 6]);
    Ok(())
}
