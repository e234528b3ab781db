ghost use Rattle.std.specs.Prelude.{◌≡◌, OnOk};
ghost use Rattle.lk_node_interface.specs.Outboxes.{nothing, is_synced, with_rebase, with_entry, with_note};
ghost use Rattle.lk_node_interface.specs.Outboxes.{with_envelopes};

use crate::envelope::Envelope;
use crate::note::Note;
use lk_types::{Entry, NoMemory};
use std::alloc::Global;
use std::marker::Model;

/// The result of a step, for the replica to carry out: write `entries`, sync them if `sync`, and only then send
/// `envelopes`, in order. `notes` are for the trace. If `rebase`, the store is instead rebased to what the node then
/// holds, before anything is sent, and `entries` are not written.
#[derive(Drop)]
pub struct Outbox {
    pub rebase: bool,
    pub entries: Vec<Entry>,
    pub sync: bool,
    pub notes: Vec<Note>,
    pub envelopes: Vec<Envelope>,
}

impl Model for Outbox {
    ghost use Rattle.lk_node_interface.specs.Outboxes.{OutboxValue};

    ghost Value = { OutboxValue };

    ghost view = { λ o. record {
      rebase = o.rebase;
      entries = o.entries.items;
      sync = o.sync;
      notes = o.notes.items;
      envelopes = o.envelopes.items;
    } };
}

impl Outbox {
    /// Creates an outbox with nothing to write, note or send. Takes no memory.
    pub fn new(alloc: Global) -> Outbox
        ensures { result ≡ nothing }
    {
        Outbox {
            rebase: false,
            entries: Vec::new(alloc),
            sync: false,
            notes: Vec::new(alloc),
            envelopes: Vec::new(alloc),
        }
    }

    /// Appends an entry to write. A promise or a vote sets `sync`: all entries are then synced before anything is sent.
    /// A failed call may leave `sync` set.
    pub fn write(&mut self, entry: Entry) -> Result<(), NoMemory>
        ensures { OnOk result (self.new ≡ with_entry entry self.old) }
    {
        if is_synced(&entry) {
            self.sync = true;
        }
        self.entries.push(entry)?;
        Ok(())
    }

    /// Asks for a rebase of the store in place of writing the entries.
    pub fn rebase_store(&mut self)
        ensures { self.new ≡ with_rebase self.old }
    {
        self.rebase = true;
    }

    /// Appends a note.
    pub fn note(&mut self, note: Note) -> Result<(), NoMemory>
        ensures { OnOk result (self.new ≡ with_note note self.old) }
    {
        self.notes.push(note)?;
        Ok(())
    }
}

impl Outbox {
    /// Appends these envelopes, in order.
    pub fn add_envelopes(&mut self, envelopes: Vec<Envelope>) -> Result<(), NoMemory>
        ensures { OnOk result (self.new ≡ with_envelopes envelopes.items self.old) }
    {
        let mut envelopes = envelopes;
        self.envelopes.append(&mut envelopes)?;
        Ok(())
    }
}

// Whether an entry has to be synced before anything is sent: a promise or a vote, but no decided command, which other
// nodes can supply again.
fn is_synced(entry: &Entry) -> bool
    ensures { result ≡ is_synced entry.now }
{
    !matches!(entry, Entry::Decided(..))
}
