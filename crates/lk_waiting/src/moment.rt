// What a server knows of itself at a turn of its queue.

/// What a server knows of itself at a turn of its queue.
#[derive(Clone, Copy)]
pub struct Moment {
    /// How many periods have ended since its start.
    pub periods: u64,
    /// Whether it speaks for the cluster: it leads, and hears a majority of the members.
    pub speaks: bool,
    /// The position of its snapshot.
    pub snapshot: u64,
    /// How many positions it has executed.
    pub executed: u64,
}
