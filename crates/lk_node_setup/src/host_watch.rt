//! Reads the file of the hosts again while a node runs, each five seconds.

ghost use Rattle.std.specs.Prelude.{◌≡◌, ◌<◌, ◌≤◌, ◌+◌, IsSome, false, if◌then◌else◌, min, option_map, true};
ghost use Rattle.lk_address_book.specs.declared.hosts.HostNews.TheVariants.{Nothing, Read, Unusable};
ghost use Rattle.lk_node_setup.specs.HostWatches.{FindsHosts, TellsUse};

use crate::network::load_hosts;
use crate::text_files::TextFiles;
use lk_address_book::hosts::{HostNews, Hosts};
use std::alloc::Global;

// How many periods of 100 ms pass from one look at the file to the next.
const APART: u64 = 50;

/// When the file of the hosts is read next, and what is known of it.
#[derive(Clone, Copy)]
pub struct HostWatch {
    /// The count of periods from which it is read again.
    pub due: u64,
    /// Whether it could not be used when it was read last.
    pub is_unusable: bool,
}

impl HostWatch {
    /// The file was read at the start.
    pub const STARTED: HostWatch = HostWatch {
        due: APART,
        is_unusable: false,
    };

    // Notes that the file can be used, and returns the hosts that were found in it.
    fn take(&mut self, found: Hosts) -> HostNews
        ensures news { result ≡ Read found }
        ensures usable { self.new ≡ record self.old { is_unusable = false } }
    {
        self.is_unusable = false;
        HostNews::Read(found)
    }

    // Notes that the file cannot be used, and returns that if it is not known.
    fn refuse(&mut self) -> HostNews
        ensures news { result ≡ (if self.old.is_unusable then Nothing else Unusable) }
        ensures unusable { self.new ≡ record self.old { is_unusable = true } }
    {
        if self.is_unusable {
            return HostNews::Nothing;
        }
        self.is_unusable = true;
        HostNews::Unusable
    }

    /// Reads the file of this path again, if there is one and that is due in period `now`. Returns the hosts that it
    /// names, or that it cannot be used, which is told once.
    pub fn look<T: TextFiles>(
        &mut self,
        files: &T,
        alloc: Global,
        path: Option<&str>,
        now: u64,
    ) -> HostNews
        // What it finds is in the file.
        ensures finds { FindsHosts (T.is_text files.now) (option_map (λ p. p.now) path.entry) result }
        // Before that is due nothing is read; then the file is read, and is known to be usable or not.
        ensures early { now < self.old.due → (result ≡ Nothing) × (self.new ≡ self.old) }
        ensures told { self.old.due ≤ now → IsSome path.entry → TellsUse self.old self.new result }
        ensures next { self.old.due ≤ now → IsSome path.entry → self.new.due ≡ min (now + 50) 18446744073709551615 }
    {
        let Some(path) = path else {
            return HostNews::Nothing;
        };
        if now < self.due {
            return HostNews::Nothing;
        }
        self.due = now.saturating_add(APART);
        let mut why = Vec::new(alloc);
        match load_hosts(files, alloc, Some(path), &mut why) {
            Ok(found) => self.take(found),
            Err(_) => self.refuse(),
        }
    }
}
