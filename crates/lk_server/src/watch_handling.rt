//! Handles watches after a turn: who waits for a name, and who is told that it is free.

ghost use Rattle.std.specs.Prelude.{◌≡◌, ◌⊎◌, ◌≤◌, ◌++◌, [], length, None, true, false, IfSome, IsNone};
ghost use Rattle.lk_waiting.specs.Waits.{HasNothingNew, NotesChanges, begun_at};
ghost use Rattle.lk_watch.specs.Queues.{HearsOrNot, NoneDueBefore, TellsFirst, listed_envelope, max_envelopes};
ghost use Rattle.lk_watch.specs.Seen.{seen_in, standing_by};
ghost use Rattle.lk_watch.specs.Tables.{standing_in};
ghost use Rattle.lk_transport.specs.Watches.{SendsNotice};
ghost use Rattle.lk_server.specs.Servers.{send_state_at};
ghost use Rattle.lk_server.specs.WatchHandling.{AnswersWatch, ChangesByNotices, ChangesQueue, HandlesWatches, IsAllNew};
ghost use Rattle.lk_server.specs.WatchHandling.{IsMoment, TellsNext, TellsWaiters, name_watched};

use crate::server::Server;
use lk_node_interface::Note;
use lk_server_replica::ServerReplica;
use lk_transport::receive_buffer::ReceiveBuffer;
use lk_transport::received_watch::ReceivedWatch;
use lk_transport::socket::DatagramSocket;
use lk_waiting::Moment;
use lk_watch::queue::MAX_LETTERS;
use lk_watch::{Envelope, SeenNames};

impl<R: ServerReplica, S: DatagramSocket + Drop> Server<R, S> {
    // Whether there is nothing to do: no watch is kept, and nobody waits.
    fn is_quiet(&self, watched: &Option<ReceivedWatch>) -> bool
        ensures { result ≡ true → (watched.now ≡ None) × (self.now.waiting.queue.waiters ≡ []) }
    {
        watched.is_none() && self.watches.len() == 0
    }

    // Returns what it knows of itself.
    fn moment(&self) -> Moment
        ensures { IsMoment R.Shows self.now result }
    {
        let shown = self.replica.show();
        Moment {
            periods: self.now(),
            speaks: !self.is_deaf() && shown.leadership.leads,
            snapshot: shown.progress.snapshot.get(),
            executed: shown.progress.executed.get(),
        }
    }

    // Whether the queue has nothing to do: no watch is kept, and no name can have changed since its last turn.
    fn has_nothing_new(&self, watched: &Option<ReceivedWatch>, moment: &Moment) -> bool
        ensures { result ≡ true → (watched.now ≡ None) × HasNothingNew self.now.waiting moment.now }
    {
        watched.is_none() && self.watches.has_nothing_new(moment)
    }

    // Looks at the name of the watch too, if one is kept. `None` out of memory.
    fn look_at_watched(&self, seen: SeenNames, watched: &Option<ReceivedWatch>) -> Option<SeenNames>
        ensures { IfSome result
            (λ both. both ≡ seen ++ seen_in (R.table self.now.replica) (name_watched watched.now)) }
    {
        let Some(received) = watched else {
            return Some(seen);
        };
        let mut seen = seen;
        let table = self.replica.table();
        seen.look(table, &received.watch.ticket.name).ok()?;
        Some(seen)
    }

    // Returns what the table says of the names that may have changed since the queue's last turn, and of the one of the
    // watch. `None` if the queue has to ask for each name, or out of memory.
    fn look(&self, watched: &Option<ReceivedWatch>, moment: &Moment) -> Option<SeenNames>
        ensures { IfSome result
            (IsAllNew (R.table self.now.replica) watched.now self.now.waiting moment.now) }
    {
        let Some(seen) = self.watches.look(self.replica.table(), moment) else {
            return None;
        };
        self.look_at_watched(seen, watched)
    }

    // Begins the queue's turn: the periods since its last one pass.
    fn begin_watches(&mut self, seen: &Option<SeenNames>, moment: &Moment)
        ensures { self.new
            ≡ record self.old {
              waiting = begun_at (R.table self.old.replica) seen.now moment.now self.old.waiting;
            } }
    {
        self.watches.begin(self.replica.table(), seen, moment);
    }

    // Notes the names of the commands that were executed by these notes, if anybody waits.
    pub(crate) fn note_changes(&mut self, notes: &[Note])
        ensures notes { NotesChanges notes.now self.old.waiting self.new.waiting }
        ensures others { self.new
            ≡ record self.old {
              waiting = record self.old.waiting { changed = self.new.waiting.changed };
            } }
    {
        self.watches.note(notes);
    }

    // Sends a notice. A failed send is counted.
    fn send_notice(&mut self, envelope: Envelope)
        ensures sends { SendsNotice S.is_observable self.old.addresses.seals self.old.node envelope
            (send_state_at self.old.loopback self.old) (send_state_at self.new.loopback self.new) }
        ensures still { S.is_observable → self.new.incoming ≡ self.old.incoming }
        ensures others { self.new
            ≡ record self.old {
              sent = self.new.sent;
              socket_failures = self.new.socket_failures;
              incoming = self.new.incoming;
            } }
    {
        if self.post.send_notice(&envelope).is_err() {
            self.unsent = self.unsent.saturating_add(1);
        }
    }

    // Hears a watch, by what the table says of its name. Returns the envelope that answers it: none if it is ignored,
    // or out of memory, when nothing changes.
    fn hear_watch(&mut self, received: &ReceivedWatch, speaks: bool) -> Option<Envelope>
        ensures hears { HearsOrNot (standing_in (R.table self.old.replica)) speaks received.now.watch received.now.from
            self.old.waiting.queue (listed_envelope result) self.new.waiting.queue }
        ensures others { ChangesQueue self.old self.new }
    {
        let table = self.replica.table();
        self.watches
            .hear(table, &received.watch, received.from, speaks)
    }

    // Hears the kept watch, if there is one, and answers it.
    fn answer_watch(&mut self, watched: &Option<ReceivedWatch>, speaks: bool)
        ensures answers { AnswersWatch (R.table self.old.replica) S.is_observable speaks watched.now
            self.old self.new }
        ensures still { S.is_observable → self.new.incoming ≡ self.old.incoming }
        ensures others { ChangesByNotices self.old self.new }
    {
        let Some(received) = watched else {
            return;
        };
        if let Some(envelope) = self.hear_watch(received, speaks) {
            self.events.note_answer(&received.watch, &envelope);
            self.send_notice(envelope);
        }
    }

    // Returns the envelope to the next who is to be told, if there is one.
    fn next_notice(&mut self, seen: &Option<SeenNames>) -> Option<Envelope>
        ensures some { IfSome result (λ envelope. TellsFirst (standing_by (R.table self.old.replica) seen.now)
            self.old.waiting.queue envelope self.new.waiting.queue) }
        ensures none { IsNone result → (self.old.waiting.queue.left ≡ 0)
            ⊎ NoneDueBefore (standing_by (R.table self.old.replica) seen.now) self.old.waiting.queue.waiters
            (length self.old.waiting.queue.waiters) }
        ensures unchanged { IsNone result → self.new ≡ self.old }
        ensures others { ChangesQueue self.old self.new }
    {
        self.watches.next_envelope(self.replica.table(), seen)
    }

    // Tells the next who is to be told. Returns whether one was.
    fn tell_next(&mut self, seen: &Option<SeenNames>) -> bool
        ensures told { result ≡ true
            → TellsNext (standing_by (R.table self.old.replica) seen.now) S.is_observable self.old self.new }
        ensures none { result ≡ false → ((self.old.waiting.queue.left ≡ 0)
            ⊎ NoneDueBefore (standing_by (R.table self.old.replica) seen.now) self.old.waiting.queue.waiters
            (length self.old.waiting.queue.waiters)) × (self.new ≡ self.old) }
        ensures still { S.is_observable → self.new.incoming ≡ self.old.incoming }
        ensures others { ChangesByNotices self.old self.new }
    {
        let Some(envelope) = self.next_notice(seen) else {
            return false;
        };
        self.send_notice(envelope);
        true
    }

    // Shows the prover that the queue has 64 envelopes at most. Does nothing at run time.
    fn queue_facts(&self)
        ensures { self.now.waiting.queue.left ≤ max_envelopes }
    {
        self.watches.facts();
    }

    // Tells those who are to be told that their name is free, in order: at most 64.
    fn tell_waiters(&mut self, seen: &Option<SeenNames>)
        ensures tells { TellsWaiters (standing_by (R.table self.old.replica) seen.now) S.is_observable true
            self.old self.new }
        ensures still { S.is_observable → self.new.incoming ≡ self.old.incoming }
        ensures others { ChangesByNotices self.old self.new }
    {
        self.queue_facts();
        'envelopes: for _ in 0..MAX_LETTERS {
            if !self.tell_next(seen) {
                return;
            }
        }
    }

    /// Handles watches after the envelopes of a turn. It hears and answers the watch that the buffer keeps, and tells
    /// those who wait for a name that is free, in order of arrival, if it speaks for the cluster: it leads, and hears a
    /// majority of the members. Without a watch, and if nobody waits or nothing is new, it does nothing. Where no
    /// period has passed it looks only at the names of executed commands and of the watch. A failed send is counted.
    pub fn handle_watches(&mut self, buffer: &mut ReceiveBuffer)
        ensures acts { HandlesWatches R.table R.Shows S.is_observable buffer.old.watched self.old self.new }
        ensures kept { buffer.new ≡ record buffer.old { watched = None } }
        ensures others { self.new
            ≡ record self.old {
              waiting = self.new.waiting;
              sent = self.new.sent;
              socket_failures = self.new.socket_failures;
              incoming = self.new.incoming;
            } }
    {
        let watched = buffer.pop_watch();
        if self.is_quiet(&watched) {
            return;
        }
        let moment = self.moment();
        if self.has_nothing_new(&watched, &moment) {
            return;
        }
        let seen = self.look(&watched, &moment);
        self.begin_watches(&seen, &moment);
        self.answer_watch(&watched, moment.speaks);
        if moment.speaks {
            self.tell_waiters(&seen);
        }
    }
}
