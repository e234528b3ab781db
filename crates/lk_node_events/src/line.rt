//! The observer of a node, and the one that writes events to a log, as lines with time and node.

ghost use Rattle.std.specs.Prelude.{◌≡◌, None, true, IsSomeAnd};
ghost use Rattle.lk_node_events.specs.News.{story_of};
ghost use Rattle.lk_node_events.specs.Watches.{WatchesOn};

use crate::event::{Event, KINDS};
use crate::observation::Observation;
use crate::rate_limit::Line;
use crate::watch::Watch;
use jiff::Timestamp;
use lk_types::NodeNo;
use log::{Log, error, info, warn};
use std::fmt;
use std::time::{Clock, SystemTime};

/// Receives what a node does, turn by turn.
pub trait Observer {
    /// Whether it uses observations. If not, none is made, and no other method is called.
    fn is_on(&self) -> bool;

    /// Records that the node has started. `is_empty`: its store holds no promise and no executed position.
    fn start(&mut self, is_empty: bool, seen: Observation);

    /// Observes the node after a turn.
    fn observe(&mut self, seen: Observation);

    /// Records that the node ends with this fault.
    fn end(&mut self, fault: &str);
}

/// Observes nothing.
#[derive(Clone, Copy)]
pub struct Unobserved;

impl Observer for Unobserved {
    fn is_on(&self) -> bool {
        false
    }

    fn start(&mut self, _is_empty: bool, _seen: Observation) {}

    fn observe(&mut self, _seen: Observation) {}

    fn end(&mut self, _fault: &str) {}
}

/// Writes the events of a node to a log.
#[derive(Drop)]
pub struct Events<C: Clock + Drop, L: Log + Drop> {
    clock: C,
    log: L,
    node: NodeNo,
    watch: Option<Watch>,
}

impl fmt::Display for Line {
    fn fmt<W: fmt::Write>(&self, f: &mut fmt::Formatter<W>) -> fmt::Result {
        write!(f, "{}", self.event)?;
        if self.others > 0 {
            write!(f, " .. and {} more", self.others)?;
        }
        Ok(())
    }
}

// Converts milliseconds since 1970 to a time, `None` if it is out of range.
fn timestamp(milliseconds: u64) -> Option<Timestamp> {
    let milliseconds = i64::try_from(milliseconds).unwrap_or(0);
    Timestamp::from_millisecond(milliseconds).ok()
}

impl<C: Clock + Drop, L: Log + Drop> Events<C, L> {
    /// Returns an observer of that node, which writes its events to the log with the time of the clock.
    pub fn new(clock: C, log: L, node: NodeNo) -> Events<C, L>
        ensures node { result.node ≡ node }
        ensures watch { result.watch ≡ None }
    {
        Events {
            clock,
            log,
            node,
            watch: None,
        }
    }

    // The milliseconds since 1970, 0 where the clock fails.
    fn now(&self) -> u64 {
        let Ok(now) = SystemTime::now(&self.clock) else {
            return 0;
        };
        match now.duration_since(SystemTime::UNIX_EPOCH) {
            Ok(since) => u64::try_from(since.as_millis()).unwrap_or(0),
            Err(_) => 0,
        }
    }

    // Logs a line with its time and node, at level warn if its event is a warning, else info. Drops it if the time is
    // out of range.
    fn log_line(&self, line: &Line) {
        let node = self.node.get();
        let Some(time) = timestamp(line.time) else {
            return;
        };
        if line.event.is_warning() {
            warn!(self.log; target: "locks", "{time:.3} node {node} {line}");
        } else {
            info!(self.log; target: "locks", "{time:.3} node {node} {line}");
        }
    }

    // Logs the waiting line of each kind, if one is due: at most one a second.
    fn log_due(&self, watch: &mut Watch, now: u64)
        ensures { watch.new ≡ record watch.old { rate_limits = watch.new.rate_limits } }
    {
        'kinds: for kind in 0..KINDS {
            if let Some(line) = watch.pop_due(kind, now) {
                self.log_line(&line);
            }
        }
    }
}

impl<C: Clock + Drop, L: Log + Drop> Observer for Events<C, L> {
    fn is_on(&self) -> bool
        ensures { result ≡ true }
    {
        true
    }

    fn start(&mut self, is_empty: bool, seen: Observation)
        ensures { IsSomeAnd self.new.watch (λ watch. watch.story ≡ story_of seen) }
    {
        let now = self.now();
        let executed = seen.executed;
        let mut watch = Watch::new(seen);
        watch.put(
            now,
            if is_empty {
                Event::StartedEmpty
            } else {
                Event::Found(executed)
            },
        );
        self.log_due(&mut watch, now);
        self.watch = Some(watch);
    }

    fn observe(&mut self, seen: Observation)
        ensures { WatchesOn seen self.old.watch self.new.watch }
    {
        let now = self.now();
        let Some(mut watch) = self.watch.take() else {
            return;
        };
        watch.observe(now, seen);
        self.log_due(&mut watch, now);
        self.watch = Some(watch);
    }

    fn end(&mut self, fault: &str)
        ensures { self.new ≡ self.old }
    {
        let node = self.node.get();
        if let Some(time) = timestamp(self.now()) {
            error!(self.log; target: "locks", "{time:.3} node {node} ends: {fault}");
        }
    }
}
