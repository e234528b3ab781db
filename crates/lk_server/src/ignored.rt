//! Counts the datagrams that a server ignores: those that do not parse, those of another cluster, administrative
//! requests of clients that are no admins, and Wants of numbers that never joined.

ghost use Rattle.std.specs.Prelude.{◌≡◌, ◌≢◌, Some, None, if◌then◌else◌};
ghost use Rattle.lk_server.specs.Counts.{is_power_of_two};
ghost use Rattle.lk_disk.specs.Disk.{one_more};

use lk_address_book::arrival::Arrival;
use log::{Log, debug};

/// How many datagrams did not parse, how many were of another cluster, how many were administrative requests of clients
/// that are no admins, and how many were Wants of numbers that never joined.
#[derive(Clone, Copy)]
pub struct IgnoredCounts {
    bad: u64,
    foreign: u64,
    barred: u64,
    unowed: u64,
}

// Logs a count if it is a power of two, so that the log stays short. Returns whether it is one.
fn log_count<L: Log>(log: &L, what: &str, count: u64) -> bool
    ensures { result ≡ is_power_of_two count }
{
    if count.is_power_of_two() {
        debug!(log; "datagrams {what}: {count}");
        return true;
    }
    false
}

impl IgnoredCounts {
    /// No such datagram has arrived.
    pub fn new() -> IgnoredCounts
        ensures { result ≡ record { bad = 0; foreign = 0; barred = 0; unowed = 0 } }
    {
        IgnoredCounts {
            bad: 0,
            foreign: 0,
            barred: 0,
            unowed: 0,
        }
    }

    /// Returns how many datagrams did not parse.
    pub fn unread(&self) -> u64
        ensures { result ≡ self.now.bad }
    {
        self.bad
    }

    /// Counts an administrative request of a client that is no admin, and logs each count that is a power of two at
    /// level debug.
    pub fn count_barred<L: Log>(&mut self, log: &L)
        ensures { self.new ≡ record self.old { barred = one_more self.old.barred } }
    {
        self.barred = self.barred.saturating_add(1);
        let _ = log_count(log, "that only an admin may send", self.barred);
    }

    /// Counts a Want of a number that never joined, and logs each count that is a power of two at level debug.
    pub fn count_unowed<L: Log>(&mut self, log: &L)
        ensures { self.new ≡ record self.old { unowed = one_more self.old.unowed } }
    {
        self.unowed = self.unowed.saturating_add(1);
        let _ = log_count(log, "by which a node asks that never joined", self.unowed);
    }

    /// Counts a datagram if it does not parse or is of another cluster, and logs each count that is a power of two at
    /// level debug. Returns the count of datagrams of another cluster if this one brought it to a power of two.
    pub fn count<L: Log>(&mut self, arrival: &Arrival, log: &L) -> Option<u64>
        ensures bad { arrival.now ≡ Arrival.Bad → self.new ≡ record self.old { bad = one_more self.old.bad } }
        ensures foreign { arrival.now ≡ Arrival.Foreign
            → self.new ≡ record self.old { foreign = one_more self.old.foreign } }
        ensures others { arrival.now ≢ Arrival.Bad → arrival.now ≢ Arrival.Foreign → self.new ≡ self.old }
        // A count of datagrams of another cluster is returned exactly if it is a power of two.
        ensures told { arrival.now ≡ Arrival.Foreign
            → result ≡ (if is_power_of_two self.new.foreign then Some self.new.foreign else None) }
        ensures untold { arrival.now ≢ Arrival.Foreign → result ≡ None }
    {
        match arrival {
            Arrival::Bad => {
                self.bad = self.bad.saturating_add(1);
                let _ = log_count(log, "that do not read", self.bad);
                None
            }
            Arrival::Foreign => {
                self.foreign = self.foreign.saturating_add(1);
                let is_told = log_count(log, "of another cluster", self.foreign);
                if is_told { Some(self.foreign) } else { None }
            }
            _ => None,
        }
    }
}
