// What makes a metered device fail, and what it counts.
use crate::trap::Trap;

/// What makes a metered device fail, and what it counts. Changing calls are appends, syncs and cuts, including failed
/// ones; reading ones are `length` and `read_into`.
#[derive(Clone, Copy)]
pub struct Meter {
    /// What happens to a future changing call.
    pub trap: Trap,
    /// How many changing calls still pass, if that is limited.
    pub fuse: Option<u64>,
    /// Which reading call from now fails, counted from 1; 0 if none does.
    pub unread: u64,
    /// The changing calls so far. It stays at 2^64 - 1.
    pub calls: u64,
    /// The trap went off since it was last set.
    pub sprung: bool,
    /// It ran out of memory since the trap was last set.
    pub starved: bool,
}
