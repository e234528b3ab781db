// The verdict on the two files of a device.
use lk_disk::Side;

/// Whether the two files of a device hold a store, and which of them is live.
#[derive(Clone, Copy)]
pub enum Verdict {
    // No stop leaves this: a file that decides is damaged, a Base is misplaced, or both have one generation.
    Damaged,
    // Neither has a Base, and none is damaged.
    Empty,
    // One of them is live.
    Live(Side),
}
