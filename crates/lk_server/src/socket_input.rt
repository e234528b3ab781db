//! Takes what arrives at a server's socket into a group.
//!
//! `add_from_socket` takes the first datagram (`add_first_datagram`) and then up to 63 that wait behind it
//! (`add_next_datagram`). `add_received` filters each.

ghost use Rattle.std.specs.Prelude.{◌≡◌, ◌≤◌, ◌+◌, ◌*◌, ℕ, List, ◌∷◌, [], length, Some, None, true, false, OnOk, OnErr};
ghost use Rattle.std.specs.Prelude.{IfOk};
ghost use Rattle.std.specs.declared.net.socket_addr.SocketAddr.{SocketAddr as Address};
ghost use Rattle.lk_address_book.specs.Addresses.{filter_of, IsSameFilter};
ghost use Rattle.lk_server.specs.Gatherings.{Finds, AddsHeard, EndsHeard, AddsFromSocket, EndsSocket, AddsWaiting};
ghost use Rattle.lk_server.specs.Gatherings.{EndsGroup, ChangesAtFrame, ChangesAtSocket};
ghost use Rattle.lk_server.specs.StepNotes.{NotesAll};
ghost use Rattle.lk_transport.specs.Streams.{Receives, ComeWithin, first_of, listed};
ghost use Rattle.lk_address_book.specs.Arrivals.{sender};
ghost use Rattle.lk_address_book.specs.Senders.{IsSentBy, RecordsSender};
ghost use Rattle.lk_address_book.specs.Filters.{is_filtered_out};
ghost use Rattle.lk_transport.specs.Kept.{KeepsLast, KeepsOf};

use crate::gathering::FURTHER;
use crate::group_fault::GroupFault;
use crate::pausing::receive_or_pause;
use crate::server::Server;
use lk_address_book::arrival::Arrival;
use lk_address_book::kinds::is_beside_protocol;
use lk_pacing::tick_timer::TickTimer;
use lk_pacing::turn_input::TurnInput;
use lk_replica::Group;
use lk_server_log::log_unopened;
use lk_server_replica::ServerReplica;
use lk_transport::receive_buffer::ReceiveBuffer;
use lk_transport::socket::DatagramSocket;
use lk_wire::Datagram;
use log::Log;
use std::net::SocketAddr;
use std::time::Clock;

impl<R: ServerReplica, S: DatagramSocket + Drop> Server<R, S> {
    // Receives the next datagram of the socket into the buffer, if one arrives before the timeout.
    pub(crate) fn receive(&mut self, buffer: &mut ReceiveBuffer)
        ensures comes { S.is_observable → Receives buffer.new.last self.old.incoming self.new.incoming }
        ensures asked { buffer.new.asked ≡ buffer.old.asked }
        ensures reported { buffer.new.reported ≡ buffer.old.reported }
        ensures watched { buffer.new.watched ≡ buffer.old.watched }
        ensures others { self.new ≡ record self.old { incoming = self.new.incoming } }
    {
        self.post.receive(buffer);
    }

    // Receives a datagram that is already waiting. If none is, it pauses if that is due before the group's sync, and
    // receives one that arrived meanwhile.
    fn receive_or_pause<C: Clock>(
        &mut self,
        buffer: &mut ReceiveBuffer,
        tick_timer: &TickTimer<C>,
        group: &Group,
    )
        ensures comes { S.is_observable
            → ComeWithin 2 (listed buffer.new.last) self.old.incoming self.new.incoming }
        ensures none { S.is_observable → buffer.new.last ≡ None → first_of self.old.incoming ≡ None }
        ensures asked { buffer.new.asked ≡ buffer.old.asked }
        ensures reported { buffer.new.reported ≡ buffer.old.reported }
        ensures watched { buffer.new.watched ≡ buffer.old.watched }
        ensures others { self.new ≡ record self.old { incoming = self.new.incoming } }
    {
        receive_or_pause(
            &mut self.post,
            &mut self.sync_pause,
            buffer,
            tick_timer,
            group,
        );
    }

    // Records the source of a datagram of this cluster, and counts one that does not parse or is of another. Warns of
    // its frame, if that is a node's and did not open. Returns what arrived, for the log.
    fn record_sender<L: Log>(
        &mut self,
        datagram: &Datagram<'_>,
        from: SocketAddr,
        frame: &[u8],
        log: &L,
    ) -> Arrival
        ensures heard { RecordsSender self.old.cluster datagram.now from self.old.addresses self.new.addresses }
        ensures sent { IsSentBy self.old.cluster datagram.now (sender result) }
        // Where nodes live and the keys do not change.
        ensures network { IsSameFilter self.old.addresses self.new.addresses }
        ensures others { self.new ≡ record self.old { addresses = self.new.addresses } }
    {
        let arrival = self.post.record_sender(self.cluster, datagram, from);
        if let Some(count) = self.ignored.count(&arrival, log) {
            self.events.foreign = Some(count);
        }
        if let Some(unopened) = self.unopened_news(&arrival, from, frame) {
            self.unopened_warned = Some(self.now());
            self.events.unopened = Some(unopened);
            log_unopened(log, &unopened);
        }
        arrival
    }

    // Opens the frame in the buffer, if there is one, and adds its datagram to the group. The buffer keeps the first
    // probe, the first report and the first watch instead. What comes from the address of a node of another genesis is
    // dropped, and a client's request while the server is deaf, or if it is administrative and the client is no
    // admin. Returns what was found.
    fn add_received<L: Log>(
        &mut self,
        buffer: &mut ReceiveBuffer,
        group: &mut Group,
        log: &L,
    ) -> Result<TurnInput, GroupFault>
        ensures adds { IfOk result
            (λ found. found ≡ TurnInput.Something
            → (frame : Address × List ℕ) × (buffer.old.last ≡ Some frame)
            × (is_filtered_out (filter_of self.old.addresses) frame ≡ false)
            × AddsHeard R.Gathers (frame ∷ []) group.old group.new self.old self.new) }
        ensures beside { IfOk result
            (λ found. found ≡ TurnInput.Filtered
            → (frame : Address × List ℕ) × (buffer.old.last ≡ Some frame)
            × (is_filtered_out (filter_of self.old.addresses) frame ≡ true) × (self.new ≡ self.old)
            × (group.new ≡ group.old)) }
        ensures none { IfOk result
            (λ found. found ≡ TurnInput.Nothing
            → (buffer.old.last ≡ None) × (self.new ≡ self.old) × (group.new ≡ group.old)) }
        ensures ends { OnErr result
            ((frame : Address × List ℕ) × (buffer.old.last ≡ Some frame)
            × (is_filtered_out (filter_of self.old.addresses) frame ≡ false)
            × EndsHeard R.Says R.Gathers (frame ∷ []) group.old self.old self.new) }
        ensures kept { IfOk result
            (λ found. found ≡ TurnInput.Filtered → KeepsLast self.old.addresses.seals buffer.old
            buffer.new) }
        ensures rest { IfOk result (λ found. (found ≡ TurnInput.Filtered → ⊥) → buffer.new ≡ buffer.old) }
        ensures spares { OnErr result (buffer.new ≡ buffer.old) }
        ensures notes { OnOk result (NotesAll R.Takes R.KeepsDigest R.HasStatus group.old group.new self.old self.new) }
        ensures others { ChangesAtFrame self.old self.new }
        ensures broken { OnErr result (self.new.failed ≡ true) }
    {
        let Some((frame, from)) = buffer.latest() else {
            return Ok(TurnInput::Nothing);
        };
        let datagram = self.post.open(frame);
        if is_beside_protocol(datagram) {
            let asked = self.post.read_probe(from, frame, datagram);
            let reported = self.post.read_report(from, frame, datagram);
            let watched = self.post.read_watch(from, frame, datagram);
            buffer.keep_probe(asked);
            buffer.keep_report(reported);
            buffer.keep_watch(watched);
            return Ok(TurnInput::Filtered);
        }
        if let Some(node) = self.post.stranger(from) {
            self.warn_of_stranger(node, log);
            return Ok(TurnInput::Filtered);
        }
        if self.post.drops(datagram) {
            self.note_dropped(datagram, log);
            return Ok(TurnInput::Filtered);
        }
        let viewed = Datagram::of(datagram);
        let arrival = self.record_sender(&viewed, from, frame, log);
        self.add_datagram(viewed, &arrival, group, log)?;
        Ok(TurnInput::Something)
    }

    // Receives the next datagram of the socket, and adds it to the group. Returns what was found.
    fn add_first_datagram<L: Log>(
        &mut self,
        buffer: &mut ReceiveBuffer,
        group: &mut Group,
        log: &L,
    ) -> Result<TurnInput, GroupFault>
        ensures adds { IfOk result
            (λ found. found ≡ TurnInput.Something
            → (frame : Address × List ℕ) × (is_filtered_out (filter_of self.old.addresses) frame ≡ false)
            × AddsFromSocket R.Gathers S.is_observable 1 (frame ∷ []) group.old group.new self.old self.new
            × KeepsOf self.old.addresses.seals (frame ∷ []) buffer.old buffer.new
            × (buffer.new.asked ≡ buffer.old.asked) × (buffer.new.reported ≡ buffer.old.reported)
            × (buffer.new.watched ≡ buffer.old.watched)) }
        ensures none { IfOk result
            (λ found. (found ≡ TurnInput.Something → ⊥)
            → (frames : List (Address × List ℕ)) × Finds S.is_observable found frames self.old self.new
            × (group.new ≡ group.old) × KeepsOf self.old.addresses.seals frames buffer.old buffer.new) }
        ensures ends { OnErr result
            ((frame : Address × List ℕ) × (is_filtered_out (filter_of self.old.addresses) frame ≡ false)
            × EndsSocket R.Says R.Gathers S.is_observable 1 (frame ∷ []) group.old self.old self.new) }
        ensures notes { OnOk result (NotesAll R.Takes R.KeepsDigest R.HasStatus group.old group.new self.old self.new) }
        ensures others { ChangesAtSocket self.old self.new }
        ensures broken { OnErr result (self.new.failed ≡ true) }
    {
        self.receive(buffer);
        self.add_received(buffer, group, log)
    }

    // Adds the next datagram of the socket to the group, if the group has something to send, and a datagram waits
    // already or comes in a pause before the sync. Returns whether one came.
    fn add_next_datagram<C: Clock, L: Log>(
        &mut self,
        buffer: &mut ReceiveBuffer,
        tick_timer: &TickTimer<C>,
        group: &mut Group,
        log: &L,
    ) -> Result<bool, GroupFault>
        ensures adds { IfOk result
            (λ came. came ≡ true → (frame : Address × List ℕ)
            × AddsFromSocket R.Gathers S.is_observable 2 (frame ∷ []) group.old group.new self.old self.new
            × KeepsOf self.old.addresses.seals (frame ∷ []) buffer.old buffer.new) }
        // What it has received then is nothing, at once and after a pause.
        ensures none { IfOk result
            (λ came. came ≡ false → (S.is_observable → ComeWithin 2 [] self.old.incoming self.new.incoming)
            × (record self.new { incoming = self.old.incoming } ≡ self.old) × (group.new ≡ group.old)
            × (buffer.new.asked ≡ buffer.old.asked) × (buffer.new.reported ≡ buffer.old.reported)
            × (buffer.new.watched ≡ buffer.old.watched)) }
        ensures ends { OnErr result
            ((frame : Address × List ℕ)
            × EndsSocket R.Says R.Gathers S.is_observable 2 (frame ∷ []) group.old self.old self.new) }
        ensures notes { OnOk result (NotesAll R.Takes R.KeepsDigest R.HasStatus group.old group.new self.old self.new) }
        ensures others { ChangesAtSocket self.old self.new }
        ensures broken { OnErr result (self.new.failed ≡ true) }
    {
        if group.envelopes().is_empty() {
            return Ok(false);
        }
        self.receive_or_pause(buffer, tick_timer, group);
        match self.add_received(buffer, group, log)? {
            TurnInput::Nothing => Ok(false),
            TurnInput::Filtered => Ok(true),
            TurnInput::Something => Ok(true),
        }
    }

    // Adds up to 63 further datagrams to the group, in order: those that already wait or come in a pause, as long
    // as the group has something to send, and up to the first probe, report or watch that is kept.
    fn add_further_datagrams<C: Clock, L: Log>(
        &mut self,
        buffer: &mut ReceiveBuffer,
        tick_timer: &TickTimer<C>,
        group: &mut Group,
        log: &L,
    ) -> Result<(), GroupFault>
        ensures adds { OnOk result
            ((frames : List (Address × List ℕ)) × (length frames ≤ 63)
            × AddsFromSocket R.Gathers S.is_observable (2 * length frames + 2) frames group.old group.new
            self.old self.new
            × KeepsOf self.old.addresses.seals frames buffer.old buffer.new) }
        ensures ends { OnErr result
            ((frames : List (Address × List ℕ)) × (length frames ≤ 63)
            × EndsSocket R.Says R.Gathers S.is_observable (2 * length frames + 2) frames group.old
            self.old self.new) }
        ensures notes { OnOk result (NotesAll R.Takes R.KeepsDigest R.HasStatus group.old group.new self.old self.new) }
        ensures others { ChangesAtSocket self.old self.new }
        ensures broken { OnErr result (self.new.failed ≡ true) }
    {
        'datagrams: for _ in 0..FURTHER {
            if buffer.has_kept() {
                return Ok(());
            }
            if !self.add_next_datagram(buffer, tick_timer, group, log)? {
                return Ok(());
            }
        }
        Ok(())
    }

    // Adds what comes to the socket: the next datagram, and those that wait behind it. Returns what was found.
    pub(crate) fn add_from_socket<C: Clock, L: Log>(
        &mut self,
        buffer: &mut ReceiveBuffer,
        tick_timer: &TickTimer<C>,
        group: &mut Group,
        log: &L,
    ) -> Result<TurnInput, GroupFault>
        requires { self.old.loopback ≡ [] }
        ensures adds { IfOk result
            (λ found. found ≡ TurnInput.Something
            → (frames : List (Address × List ℕ))
            × AddsWaiting R.Gathers S.is_observable frames group.old group.new self.old self.new
            × KeepsOf self.old.addresses.seals frames buffer.old buffer.new) }
        ensures none { IfOk result
            (λ found. (found ≡ TurnInput.Something → ⊥)
            → (self.old.loopback ≡ []) × (frames : List (Address × List ℕ))
            × Finds S.is_observable found frames self.old self.new × (group.new ≡ group.old)
            × KeepsOf self.old.addresses.seals frames buffer.old buffer.new) }
        ensures ends { OnErr result
            ((frames : List (Address × List ℕ))
            × EndsGroup R.Says R.Gathers S.is_observable frames group.old self.old self.new) }
        ensures notes { OnOk result (NotesAll R.Takes R.KeepsDigest R.HasStatus group.old group.new self.old self.new) }
        ensures others { ChangesAtSocket self.old self.new }
        ensures broken { OnErr result (self.new.failed ≡ true) }
    {
        let found = self.add_first_datagram(buffer, group, log)?;
        if !found.is_something() {
            return Ok(found);
        }
        self.add_further_datagrams(buffer, tick_timer, group, log)?;
        Ok(TurnInput::Something)
    }
}
