//! The plan of a random schedule.

/// A random schedule to run: its seed, how many events it draws, and whether it also draws groups and nudges.
#[derive(Clone, Copy)]
pub struct Plan {
    pub start: u64,
    pub count: u32,
    pub groups: bool,
    pub nudges: bool,
}
