// Who waits, and what the queue looked at in its last turn.

ghost use Rattle.std.specs.Prelude.{◌≡◌, ◌⊎◌, ◌≤◌, ◌↔◌, [], length, true, IfSome, IsNone, IsTrue};
ghost use Rattle.lk_watch.specs.Queues.{begun, HearsOrNot, NoneDueBefore, TellsFirst, listed_envelope, max_envelopes};
ghost use Rattle.lk_watch.specs.Seen.{holds_by, standing_by};
ghost use Rattle.lk_watch.specs.Tables.{standing_in};
ghost use Rattle.lk_waiting.specs.Waits.{AreAllChanged, HasNothingNew, NotesChanges, OnlyCommands};
ghost use Rattle.lk_waiting.specs.Waits.{begun_at, nobody_waits};

use crate::changed_names::ChangedNames;
use crate::moment::Moment;
use lk_locks::LockTable;
use lk_node_interface::Note;
use lk_watch::queue::WatchQueue;
use lk_watch::{Envelope, NameTable, SeenNames, Watch};
use std::alloc::Global;
use std::marker::Model;
use std::net::SocketAddr;

/// Who waits for a name, and what has to be looked at in the next turn.
#[derive(Drop)]
pub struct Waiting {
    alloc: Global,
    queue: WatchQueue,
    // the count of periods up to which their watches have lived
    aged: u64,
    // the names whose holders may have changed since the queue's last turn
    changed: ChangedNames,
    // whether the server spoke for the cluster then, and how many positions it had executed
    spoke: bool,
    served: u64,
}

impl Model for Waiting {
    ghost use Rattle.lk_waiting.specs.Waits.{WaitingValue};

    ghost Value = { WaitingValue };

    ghost view = { λ w. record {
      queue = w.queue;
      aged = w.aged;
      changed = w.changed;
      spoke = w.spoke;
      served = w.served;
    } };
}

impl Waiting {
    /// Nobody waits. It takes memory with the first that does.
    pub fn new(alloc: Global) -> Waiting
        ensures { result ≡ nobody_waits }
    {
        Waiting {
            alloc,
            queue: WatchQueue::new(alloc),
            aged: 0,
            changed: ChangedNames::new(alloc),
            spoke: false,
            served: 0,
        }
    }

    /// Returns how many entries the queue has.
    pub fn len(&self) -> usize
        ensures { result ≡ length self.now.queue.waiters }
    {
        self.queue.len()
    }

    /// Shows the prover that the queue is within its bounds. Does nothing at run time.
    pub fn facts(&self)
        ensures few { length self.now.queue.waiters ≤ 1024 }
        ensures left { self.now.queue.left ≤ max_envelopes }
    {
        self.queue.facts();
    }

    /// Notes the names of the commands that were executed by these notes, if anybody waits.
    pub fn note(&mut self, notes: &[Note])
        ensures notes { NotesChanges notes.now self.old self.new }
        ensures others { self.new ≡ record self.old { changed = self.new.changed } }
    {
        if self.queue.len() > 0 {
            self.changed.note(notes);
        }
    }

    // Whether only executed commands can have changed a name since the queue's last turn: no period has ended, no
    // snapshot was installed, and the server speaks for the cluster or not as it did.
    fn only_commands(&self, moment: &Moment) -> bool
        ensures { IsTrue result ↔ OnlyCommands self.now moment.now }
    {
        moment.periods == self.aged && moment.snapshot <= self.served && moment.speaks == self.spoke
    }

    /// Whether no name can have changed since the queue's last turn, and nobody is to be told whom it did not tell.
    pub fn has_nothing_new(&self, moment: &Moment) -> bool
        ensures { result ≡ true → HasNothingNew self.now moment.now }
    {
        self.changed.are_none() && self.only_commands(moment)
    }

    /// Returns what the table says of the names that may have changed since the queue's last turn. `None` if all may
    /// have, or out of memory.
    pub fn look(&self, table: &LockTable, moment: &Moment) -> Option<SeenNames>
        ensures { IfSome result (AreAllChanged table.now self.now moment.now) }
    {
        if !self.only_commands(moment) {
            return None;
        }
        let Some(names) = self.changed.names() else {
            return None;
        };
        SeenNames::of(self.alloc, table, names).ok()
    }

    // Begins the queue's turn, before which that many periods have passed.
    fn begin_queue(&mut self, table: &LockTable, seen: &Option<SeenNames>, count: u64)
        ensures { self.new
            ≡ record self.old { queue = begun (holds_by table.now seen.now) count self.old.queue } }
    {
        match seen {
            Some(seen) => self.queue.begin_turn(seen, count),
            None => self.queue.begin_turn(table, count),
        }
    }

    /// Begins the queue's turn: the periods since its last one pass, and whoever holds a name by the table, or by what
    /// it is shown of it, waits for it no more.
    pub fn begin(&mut self, table: &LockTable, seen: &Option<SeenNames>, moment: &Moment)
        ensures { self.new ≡ begun_at table.now seen.now moment.now self.old }
    {
        self.begin_queue(table, seen, moment.periods.saturating_sub(self.aged));
        self.aged = moment.periods;
        self.changed.clear();
        self.spoke = moment.speaks;
        self.served = moment.executed;
    }

    /// Hears a watch that came from an address, by what the table says of its name. Returns the envelope that answers
    /// it: none if it is ignored, or out of memory, when nothing changes.
    pub fn hear(
        &mut self,
        table: &LockTable,
        watch: &Watch,
        from: SocketAddr,
        speaks: bool,
    ) -> Option<Envelope>
        ensures hears { HearsOrNot (standing_in table.now) speaks watch.now from
            self.old.queue (listed_envelope result) self.new.queue }
        ensures others { self.new ≡ record self.old { queue = self.new.queue } }
    {
        let standing = table.standing(&watch.ticket.name);
        let outcome = self.queue.hear(watch, from, standing, speaks);
        let Ok(answer) = outcome else {
            return None;
        };
        answer
    }

    /// Returns the envelope to the next who is to be told, by the table or by what the queue is shown of it, if there
    /// is one.
    pub fn next_envelope(&mut self, table: &LockTable, seen: &Option<SeenNames>) -> Option<Envelope>
        ensures some { IfSome result (λ envelope. TellsFirst (standing_by table.now seen.now)
            self.old.queue envelope self.new.queue) }
        ensures none { IsNone result → (self.old.queue.left ≡ 0)
            ⊎ NoneDueBefore (standing_by table.now seen.now) self.old.queue.waiters
            (length self.old.queue.waiters) }
        ensures unchanged { IsNone result → self.new ≡ self.old }
        ensures others { self.new ≡ record self.old { queue = self.new.queue } }
    {
        match seen {
            Some(seen) => self.queue.next_envelope(seen),
            None => self.queue.next_envelope(table),
        }
    }
}
