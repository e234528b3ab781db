//! How a server collects one group. It sends nothing until the group ends.
//!
//! `fill_group` takes what a turn brings: by `add_pending` the envelopes of the node to itself (`add_loopback`) or else
//! what comes to the socket (`add_from_socket`), and by `add_tick` a tick where one is due, or a nudge in its place.
//! `add_datagram` counts a datagram, and `add_input` gives it to the replica.

ghost use Rattle.std.specs.Prelude.{◌≡◌, ℕ, List, ◌∷◌, [], Some, None, true, false, OnOk, OnErr, IfOk, IfSome, IsNone};
ghost use Rattle.std.specs.Prelude.{◌↔◌, IsTrue};
ghost use Rattle.std.specs.declared.net.socket_addr.SocketAddr.{SocketAddr as Address};
ghost use Rattle.lk_node_interface.specs.Envelopes.{EnvelopeValue};
ghost use Rattle.lk_node.specs.Calls.{heard_by};
ghost use Rattle.lk_server_replica.specs.Groups.{GathersMore, SaysNoMore};
ghost use Rattle.lk_server.specs.Gatherings.{Finds, AddsAll, EndsWithin, AddsLoopback, EndsLoopback, AddsWaiting};
ghost use Rattle.lk_address_book.specs.Arrivals.{sender};
ghost use Rattle.lk_address_book.specs.Senders.{IsSentBy};
ghost use Rattle.lk_server.specs.Gatherings.{AddsGroup, ChangesAtInput, ChangesInTurn, GathersNudge};
ghost use Rattle.lk_server.specs.Gatherings.{WithholdsQuiet};
ghost use Rattle.lk_server.specs.StepNotes.{NotesAll, NotesInput, NotesNone, NudgesIfFed, noted, one_period_more};
ghost use Rattle.lk_server.specs.Gatherings.{EndsGroup, ChangesAtDatagram, ChangesAtEnvelope, ChangesInGroup};
ghost use Rattle.lk_transport.specs.Kept.{KeepsOf};
ghost use Rattle.lk_server.specs.Servers.{EndsPeriod, HasReceived, IsIdle, MayWithhold, TakesPeriodEnd};
ghost use Rattle.lk_server.specs.Servers.{WithholdsTicks, one_more_tick};

use crate::group_fault::GroupFault;
use crate::server::Server;
use lk_address_book::arrival::Arrival;
use lk_node_interface::{Envelope, Input, NudgeReason};
use lk_pacing::tick_timer::TickTimer;
use lk_pacing::turn_input::TurnInput;
use lk_replica::Group;
use lk_server_log::{log_catch_up, log_changes};
use lk_server_replica::ServerReplica;
use lk_server_replica::feeding::Feeding;
use lk_transport::receive_buffer::ReceiveBuffer;
use lk_transport::socket::DatagramSocket;
use lk_wire::Datagram;
use log::Log;
use std::time::Clock;

// A group has at most this many datagrams after its first.
pub(crate) const FURTHER: u64 = 63;

// Of so many periods the last ends with a nudge. The number is prime, so that no duel of candidates keeps in step with
// it.
const TICKS_A_NUDGE: u64 = 31;

impl<R: ServerReplica, S: DatagramSocket + Drop> Server<R, S> {
    // Removes the first envelope of the node to itself.
    fn next_envelope(&mut self) -> Option<Envelope>
        ensures some { IfSome result (λ l. self.old.loopback ≡ l ∷ self.new.loopback) }
        ensures none { IsNone result → (self.old.loopback ≡ []) × (self.new ≡ self.old) }
        ensures others { self.new ≡ record self.old { loopback = self.new.loopback } }
    {
        self.post.next_loopback()
    }

    // Limits how long a receive waits for the next datagram to the rest of the period; it may take up to 10 ms longer.
    // Mixes a reading of the clock into the tokens of its probes.
    fn set_timeout<C: Clock>(&mut self, tick_timer: &mut TickTimer<C>)
        ensures { self.new ≡ self.old }
    {
        self.post.set_timeout(tick_timer.left());
        self.tokens.stir(tick_timer.reading());
    }

    // Gives a tick, a nudge or a datagram to the replica as a part of the group. Takes the digest of its state, if one
    // is due, and notes whether it was fed. Logs what changed, and records an installed snapshot for the events.
    fn add_input<L: Log>(
        &mut self,
        input: Input,
        arrival: &Arrival,
        group: &mut Group,
        log: &L,
    ) -> Result<(), GroupFault>
        ensures gathers { OnOk result
            (GathersMore R.Gathers (heard_by input.entry ∷ []) group.old group.new self.old.replica self.new.replica) }
        ensures takes { OnOk result
            (R.Takes self.old.replica group.old input.entry self.new.replica group.new) }
        ensures silent { OnErr result
            (SaysNoMore R.Says R.Gathers (heard_by input.entry ∷ []) group.old self.old.replica self.new.replica) }
        // However it ends, the digest of the state is taken then, if one is due, it is noted whether the input has fed
        // the replica, and the count of silence goes on or begins anew.
        ensures notes { NotesInput R.KeepsDigest R.HasStatus (sender arrival.now) self.old.replica self.new.replica
            (noted self.old) (noted self.new) }
        ensures others { ChangesAtInput self.old self.new }
        ensures broken { OnErr result (self.new.failed ≡ true) }
    {
        let before = self.replica.status();
        let said = group.envelopes().len();
        let gathered = self.replica.add_step(input, group);
        self.note_digest();
        let after = self.replica.status();
        self.events.note_installed(arrival, &before, &after);
        self.table = self.table.after_step(&before, &after);
        self.silence.note_input(arrival.node(), &before, &after);
        self.fed.note_step(&before, &after);
        log_changes(log, arrival, &before, &after);
        log_catch_up(log, arrival, group.envelopes().len().saturating_sub(said));
        match gathered {
            Ok(()) => Ok(()),
            Err(fault) => Err(GroupFault::of(&fault)),
        }
    }

    // Whether ticks are withheld: they go by the clock, and the server is deaf.
    fn are_ticks_withheld(&self) -> bool
        ensures { IsTrue result ↔ WithholdsTicks self.now }
    {
        self.pace.is_clock() && self.post.is_deaf()
    }

    // Returns what ends the period that was just counted: each 31st time a nudge, which says whether ticks are
    // withheld, else a tick.
    fn period_end(&self) -> Input<'static>
        ensures ends { EndsPeriod self.now result }
        ensures timed { heard_by result ≡ None }
    {
        if self.now() % TICKS_A_NUDGE != 0 {
            return Input::Tick;
        }
        if self.are_ticks_withheld() {
            return Input::Nudge(NudgeReason::TicksWithheld);
        }
        Input::Nudge(NudgeReason::Period)
    }

    // Adds a tick to the group, each 31st time a nudge in its place, and counts it.
    pub(crate) fn add_tick<L: Log>(&mut self, group: &mut Group, log: &L) -> Result<(), GroupFault>
        ensures takes { OnOk result (TakesPeriodEnd R.Takes group.old group.new self.old self.new) }
        ensures gathers { OnOk result
            (GathersMore R.Gathers (None ∷ []) group.old group.new self.old.replica self.new.replica) }
        ensures silent { OnErr result
            (SaysNoMore R.Says R.Gathers (None ∷ []) group.old self.old.replica self.new.replica) }
        // However it ends, that is counted, and the input is noted.
        ensures ticks { self.new.ticks ≡ one_more_tick self.old.ticks }
        ensures notes { NotesInput R.KeepsDigest R.HasStatus None self.old.replica self.new.replica
            (one_period_more (noted self.old)) (noted self.new) }
        ensures others { self.new
            ≡ record self.old {
              replica = self.new.replica;
              failed = self.new.failed;
              digest = self.new.digest;
              quiet = self.new.quiet;
              fed = self.new.fed;
              ticks = self.new.ticks;
            } }
        ensures broken { OnErr result (self.new.failed ≡ true) }
    {
        self.ticks = self.ticks.saturating_add(1);
        let input = self.period_end();
        self.add_input(input, &Arrival::Tick, group, log)
    }

    // Ends a group that has fed the replica with a nudge that says so: the replica may still be behind. Any other group
    // stays as it is.
    pub(crate) fn nudge_if_fed<L: Log>(
        &mut self,
        group: &mut Group,
        log: &L,
    ) -> Result<(), GroupFault>
        ensures nudges { OnOk result
            (NudgesIfFed R.Takes R.KeepsDigest R.HasStatus group.old group.new self.old self.new) }
        ensures gathers { OnOk result
            (GathersNudge R.Gathers group.old group.new self.old.replica self.new.replica) }
        ensures silent { OnErr result
            (SaysNoMore R.Says R.Gathers (None ∷ []) group.old self.old.replica self.new.replica) }
        ensures rests { self.new.fed ≡ false }
        ensures others { ChangesAtInput self.old self.new }
        ensures broken { OnErr result (self.new.failed ≡ true) }
    {
        if !self.fed.is_fed() {
            return Ok(());
        }
        let nudged = self.add_input(Input::Nudge(NudgeReason::Fed), &Arrival::Tick, group, log);
        self.fed = Feeding::none();
        nudged
    }

    // Counts a datagram and adds it to the group, with a tick after it if one is due by that count. `arrival` names its
    // sender.
    pub(crate) fn add_datagram<L: Log>(
        &mut self,
        datagram: Datagram<'_>,
        arrival: &Arrival,
        group: &mut Group,
        log: &L,
    ) -> Result<(), GroupFault>
        requires { IsSentBy self.old.cluster datagram (sender arrival.now) }
        ensures adds { OnOk result (AddsAll R.Gathers (datagram.entry ∷ []) group.old group.new self.old self.new) }
        ensures ends { OnErr result (EndsWithin R.Says R.Gathers (datagram.entry ∷ []) group.old self.old self.new) }
        ensures notes { OnOk result (NotesAll R.Takes R.KeepsDigest R.HasStatus group.old group.new self.old self.new) }
        ensures others { ChangesAtDatagram self.old self.new }
        ensures broken { OnErr result (self.new.failed ≡ true) }
    {
        self.received = self.received.wrapping_add(1);
        self.add_input(Input::Datagram(datagram), arrival, group, log)?;
        if self.pace.ticks_after(self.received) {
            self.add_tick(group, log)?;
        }
        Ok(())
    }

    // Adds the first envelope of the node to itself to the group. Returns whether one was waiting.
    fn add_loopback<L: Log>(&mut self, group: &mut Group, log: &L) -> Result<bool, GroupFault>
        ensures adds { IfOk result
            (λ some. some ≡ true → (l : EnvelopeValue) × (self.old.loopback ≡ l ∷ self.new.loopback)
            × AddsAll R.Gathers (l.bytes ∷ []) group.old group.new self.old self.new) }
        ensures none { IfOk result
            (λ some. some ≡ false → (self.old.loopback ≡ []) × (self.new ≡ self.old) × (group.new ≡ group.old)) }
        ensures notes { OnOk result (NotesAll R.Takes R.KeepsDigest R.HasStatus group.old group.new self.old self.new) }
        ensures ends { OnErr result
            ((l : EnvelopeValue) × (self.old.loopback ≡ l ∷ self.new.loopback)
            × EndsWithin R.Says R.Gathers (l.bytes ∷ []) group.old self.old self.new) }
        ensures others { ChangesAtEnvelope self.old self.new }
        ensures broken { OnErr result (self.new.failed ≡ true) }
    {
        let Some(envelope) = self.next_envelope() else {
            return Ok(false);
        };
        let datagram = Datagram::of(&envelope.bytes);
        let arrival = Arrival::of_envelope(self.cluster, &datagram);
        self.add_datagram(datagram, &arrival, group, log)?;
        Ok(true)
    }

    // Adds further envelopes of the node to itself to the group, in order, at most 63.
    fn add_loopbacks<L: Log>(&mut self, group: &mut Group, log: &L) -> Result<(), GroupFault>
        ensures adds { OnOk result (AddsLoopback R.Gathers 63 group.old group.new self.old self.new) }
        ensures notes { OnOk result (NotesAll R.Takes R.KeepsDigest R.HasStatus group.old group.new self.old self.new) }
        ensures ends { OnErr result (EndsLoopback R.Says R.Gathers 63 group.old self.old self.new) }
        ensures others { ChangesAtEnvelope self.old self.new }
        ensures broken { OnErr result (self.new.failed ≡ true) }
    {
        'envelopes: for _ in 0..FURTHER {
            if !self.add_loopback(group, log)? {
                return Ok(());
            }
        }
        Ok(())
    }

    // Adds what waits to the group: the first 64 envelopes of the node to itself, or if there is none what comes to the
    // socket. Returns what was found. An envelope that this group produces is sent only at its end, so it waits for a
    // later one.
    pub(crate) fn add_pending<C: Clock, L: Log>(
        &mut self,
        buffer: &mut ReceiveBuffer,
        tick_timer: &TickTimer<C>,
        group: &mut Group,
        log: &L,
    ) -> Result<TurnInput, GroupFault>
        ensures adds { IfOk result
            (λ found. found ≡ TurnInput.Something
            → (frames : List (Address × List ℕ))
            × AddsWaiting R.Gathers S.is_observable frames group.old group.new self.old self.new
            × KeepsOf self.old.addresses.seals frames buffer.old buffer.new) }
        ensures none { IfOk result
            (λ found. (found ≡ TurnInput.Something → ⊥)
            → (self.old.loopback ≡ []) × (frames : List (Address × List ℕ))
            × Finds S.is_observable found frames self.old self.new × (group.new ≡ group.old)
            × KeepsOf self.old.addresses.seals frames buffer.old buffer.new) }
        ensures ends { OnErr result
            ((frames : List (Address × List ℕ))
            × EndsGroup R.Says R.Gathers S.is_observable frames group.old self.old self.new) }
        ensures notes { OnOk result (NotesAll R.Takes R.KeepsDigest R.HasStatus group.old group.new self.old self.new) }
        ensures others { ChangesInGroup self.old self.new }
        ensures broken { OnErr result (self.new.failed ≡ true) }
    {
        if !self.add_loopback(group, log)? {
            return self.add_from_socket(buffer, tick_timer, group, log);
        }
        self.add_loopbacks(group, log)?;
        Ok(TurnInput::Something)
    }

    // Whether the next tick is withheld: ticks are, and no nudge is due.
    fn withholds(&self) -> bool
        ensures { IsTrue result ↔ MayWithhold self.now }
    {
        let next = self.now().saturating_add(1);
        self.are_ticks_withheld() && next % TICKS_A_NUDGE != 0
    }

    // Counts a tick that its replica is not given.
    fn withhold_tick(&mut self)
        ensures counts { self.new
            ≡ record self.old { withheld = one_more_tick self.old.withheld; quiet = self.new.quiet } }
        ensures quiet { WithholdsQuiet R.HasStatus self.old self.new }
    {
        self.withheld = self.withheld.saturating_add(1);
        self.silence.count_withheld(&self.replica.status());
    }

    // Adds what waits to the group, or what comes before the next tick, and after it a tick if one is due. A deaf
    // server withholds it. Returns whether anything was added.
    pub(crate) fn fill_group<C: Clock, L: Log>(
        &mut self,
        buffer: &mut ReceiveBuffer,
        tick_timer: &mut TickTimer<C>,
        group: &mut Group,
        log: &L,
    ) -> Result<bool, GroupFault>
        ensures adds { IfOk result
            (λ some. some ≡ true → (frames : List (Address × List ℕ))
            × AddsGroup R.Gathers S.is_observable frames group.old group.new self.old self.new
            × KeepsOf self.old.addresses.seals frames buffer.old buffer.new) }
        ensures idle { IfOk result
            (λ some. some ≡ false → (frames : List (Address × List ℕ))
            × HasReceived S.is_observable frames self.old self.new × IsIdle S.is_observable frames self.old self.new
            × KeepsOf self.old.addresses.seals frames buffer.old buffer.new) }
        ensures ends { OnErr result
            ((frames : List (Address × List ℕ))
            × EndsGroup R.Says R.Gathers S.is_observable frames group.old self.old self.new) }
        ensures notes { OnOk result (NotesAll R.Takes R.KeepsDigest R.HasStatus group.old group.new self.old self.new) }
        // If nothing was added, the most that is noted is a tick withheld.
        ensures rests { IfOk result (λ some. some ≡ false → NotesNone R.HasStatus self.old self.new) }
        ensures others { ChangesInTurn self.old self.new }
        ensures broken { OnErr result (self.new.failed ≡ true) }
    {
        self.set_timeout(tick_timer);
        let found = self.add_pending(buffer, tick_timer, group, log)?;
        if !self.pace.is_due(found, tick_timer) {
            return Ok(found.is_something());
        }
        if self.withholds() {
            self.withhold_tick();
            return Ok(found.is_something());
        }
        self.add_tick(group, log)?;
        Ok(true)
    }
}
