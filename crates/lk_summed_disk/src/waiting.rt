// Appended bytes of a file that wait in memory, and the calls that hand them over to the device below.
ghost use Rattle.std.specs.Prelude.{◌≡◌, ◌≤◌, ◌<◌, ◌+◌, [], length, false, slice_range, IsOk, IfOk, OnOk};
ghost use Rattle.std.specs.Prelude.{OnErr};
ghost use Rattle.lk_disk.specs.Disk.{contents, appended, fully_synced, cut_to, other, CutShort};
ghost use Rattle.lk_summed_disk.specs.Waits.{gathered, Waits};

use lk_disk::{DeviceFault, LogDisk, Side};
use std::alloc::Global;

// A flush leaves fewer bytes than these waiting.
const FLUSH_THRESHOLD: usize = 4096;

/// The bytes of a file that wait.
#[derive(Drop)]
pub struct Waiting {
    pub bytes: Vec<u8>,
    // at most this many bytes of the file below count: a failed call may have left others after them
    pub size: usize,
    // a call has failed, so the file below must not be used again
    pub failed: bool,
}

impl Waiting {
    /// Nothing waits, of a file of this length.
    pub fn new(alloc: Global, size: usize) -> Waiting
        ensures size { result.size ≡ size }
        ensures empty { result.bytes.items ≡ [] }
        ensures goes_on { result.failed ≡ false }
    {
        Waiting {
            bytes: Vec::new(alloc),
            size,
            failed: false,
        }
    }

    /// How many bytes there are, with those that wait. Fails after a failed call.
    pub fn length(&self) -> Result<usize, DeviceFault>
        ensures value { IfOk result (λ n. n ≡ self.now.size + length self.now.bytes.items) }
        ensures goes_on { OnOk result (self.now.failed ≡ false) }
    {
        if self.failed {
            return Err(DeviceFault);
        }
        self.size.checked_add(self.bytes.len()).ok_or(DeviceFault)
    }
}

/// Adds a piece to what waits. Fails, and changes nothing, after a failed call or if memory runs out.
pub fn keep_at<D: LogDisk>(
    device: &D,
    side: Side,
    waiting: &mut Waiting,
    piece: &[u8],
) -> Result<(), DeviceFault>
    ensures ok { D.is_honest → Waits waiting.old (D.disk device.now side)
        → OnOk result (gathered waiting.new (D.disk device.now side)
        ≡ appended (gathered waiting.old (D.disk device.now side)) piece.now) }
    ensures err { D.is_honest
        → OnErr result
        (gathered waiting.new (D.disk device.now side) ≡ gathered waiting.old (D.disk device.now side)) }
    ensures waits { D.is_honest → Waits waiting.old (D.disk device.now side)
        → Waits waiting.new (D.disk device.now side) }
{
    if waiting.failed {
        return Err(DeviceFault);
    }
    match waiting.bytes.extend_from_slice(piece) {
        Ok(()) => Ok(()),
        Err(_) => Err(DeviceFault),
    }
}

// Appends what waits to the file below, in one call. The file counts as failed until that call succeeds, so that
// nothing is appended twice.
fn hand_over<D: LogDisk>(
    device: &mut D,
    side: Side,
    waiting: &mut Waiting,
) -> Result<(), DeviceFault>
    ensures same { D.is_honest → Waits waiting.old (D.disk device.old side)
        → gathered waiting.new (D.disk device.new side) ≡ gathered waiting.old (D.disk device.old side) }
    ensures waits { D.is_honest → Waits waiting.old (D.disk device.old side)
        → Waits waiting.new (D.disk device.new side) }
    ensures ok { D.is_honest → Waits waiting.old (D.disk device.old side)
        → OnOk result (D.disk device.new side ≡ gathered waiting.old (D.disk device.old side)) }
    ensures empty { OnOk result (waiting.new.bytes.items ≡ []) }
    ensures goes_on { OnOk result (waiting.new.failed ≡ false) }
    ensures beside { D.is_honest → D.disk device.new (other side) ≡ D.disk device.old (other side) }
{
    if waiting.failed {
        return Err(DeviceFault);
    }
    if waiting.bytes.is_empty() {
        return Ok(());
    }
    let Some(size) = waiting.size.checked_add(waiting.bytes.len()) else {
        return Err(DeviceFault);
    };
    waiting.failed = true;
    device.append(side, &waiting.bytes)?;
    waiting.size = size;
    waiting.bytes.clear();
    waiting.failed = false;
    Ok(())
}

/// Hands over what waits, and reads.
pub fn read_at<D: LogDisk>(
    device: &mut D,
    side: Side,
    waiting: &mut Waiting,
    offset: usize,
    buffer: &mut [u8],
) -> Result<(), DeviceFault>
    ensures value { D.is_honest → Waits waiting.old (D.disk device.old side)
        → OnOk result (buffer.new ≡ slice_range (contents (gathered waiting.old (D.disk device.old side))) offset
        (offset + length buffer.old)) }
    ensures within { D.is_honest → Waits waiting.old (D.disk device.old side)
        → OnOk result
        (offset + length buffer.old ≤ length (contents (gathered waiting.old (D.disk device.old side)))) }
    ensures same { D.is_honest → Waits waiting.old (D.disk device.old side)
        → gathered waiting.new (D.disk device.new side) ≡ gathered waiting.old (D.disk device.old side) }
    ensures waits { D.is_honest → Waits waiting.old (D.disk device.old side)
        → Waits waiting.new (D.disk device.new side) }
    ensures beside { D.is_honest → D.disk device.new (other side) ≡ D.disk device.old (other side) }
{
    hand_over(device, side, waiting)?;
    device.read_into(side, offset, buffer)
}

/// If at least 4,096 bytes wait, hands them over and flushes. Fewer go on waiting, and nothing is called. Fails after a
/// failed call.
pub fn flush_at<D: LogDisk>(
    device: &mut D,
    side: Side,
    waiting: &mut Waiting,
) -> Result<(), DeviceFault>
    ensures same { D.is_honest → Waits waiting.old (D.disk device.old side)
        → gathered waiting.new (D.disk device.new side) ≡ gathered waiting.old (D.disk device.old side) }
    // Fewer bytes go on waiting: nothing changes, and nothing fails.
    ensures few { waiting.old.failed ≡ false → length waiting.old.bytes.items < 4096
        → IsOk result × (waiting.new ≡ waiting.old) × (device.new ≡ device.old) }
    // If there are more, the file below has them all afterwards.
    ensures many { D.is_honest → Waits waiting.old (D.disk device.old side)
        → 4096 ≤ length waiting.old.bytes.items
        → OnOk result (D.disk device.new side ≡ gathered waiting.old (D.disk device.old side)) }
    ensures bounded { OnOk result (length waiting.new.bytes.items < 4096) }
    ensures goes_on { OnOk result (waiting.old.failed ≡ false) }
    ensures waits { D.is_honest → Waits waiting.old (D.disk device.old side)
        → Waits waiting.new (D.disk device.new side) }
    ensures beside { D.is_honest → D.disk device.new (other side) ≡ D.disk device.old (other side) }
{
    if waiting.failed {
        return Err(DeviceFault);
    }
    if waiting.bytes.len() < FLUSH_THRESHOLD {
        return Ok(());
    }
    hand_over(device, side, waiting)?;
    device.flush(side)
}

/// Hands over what waits, and syncs.
pub fn sync_at<D: LogDisk>(
    device: &mut D,
    side: Side,
    waiting: &mut Waiting,
) -> Result<(), DeviceFault>
    ensures ok { D.is_honest → Waits waiting.old (D.disk device.old side)
        → OnOk result (gathered waiting.new (D.disk device.new side)
        ≡ fully_synced (gathered waiting.old (D.disk device.old side))) }
    ensures err { D.is_honest → Waits waiting.old (D.disk device.old side)
        → OnErr result
        (gathered waiting.new (D.disk device.new side) ≡ gathered waiting.old (D.disk device.old side)) }
    ensures waits { D.is_honest → Waits waiting.old (D.disk device.old side)
        → Waits waiting.new (D.disk device.new side) }
    ensures beside { D.is_honest → D.disk device.new (other side) ≡ D.disk device.old (other side) }
{
    hand_over(device, side, waiting)?;
    device.sync(side)
}

/// Hands over what waits, and cuts.
pub fn cut_at<D: LogDisk>(
    device: &mut D,
    side: Side,
    waiting: &mut Waiting,
    len: usize,
) -> Result<(), DeviceFault>
    ensures ok { D.is_honest → Waits waiting.old (D.disk device.old side)
        → OnOk result (gathered waiting.new (D.disk device.new side)
        ≡ cut_to len (gathered waiting.old (D.disk device.old side))) }
    ensures within { D.is_honest → Waits waiting.old (D.disk device.old side)
        → OnOk result (len ≤ length (contents (gathered waiting.old (D.disk device.old side)))) }
    ensures err { D.is_honest → Waits waiting.old (D.disk device.old side)
        → OnErr result (CutShort len (gathered waiting.old (D.disk device.old side))
        (gathered waiting.new (D.disk device.new side))) }
    ensures past_end { D.is_honest → Waits waiting.old (D.disk device.old side)
        → length (contents (gathered waiting.old (D.disk device.old side))) < len
        → gathered waiting.new (D.disk device.new side) ≡ gathered waiting.old (D.disk device.old side) }
    ensures waits { D.is_honest → Waits waiting.old (D.disk device.old side)
        → Waits waiting.new (D.disk device.new side) }
    ensures beside { D.is_honest → D.disk device.new (other side) ≡ D.disk device.old (other side) }
{
    hand_over(device, side, waiting)?;
    waiting.failed = true;
    device.cut(side, len)?;
    waiting.size = len;
    waiting.failed = false;
    Ok(())
}
