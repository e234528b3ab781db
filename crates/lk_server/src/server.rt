//! A node that runs on a socket.

ghost use Rattle.std.specs.Prelude.{◌≡◌, ℕ, List, ◌∷◌, [], None, true, false, OnOk, OnErr, IfOk, IfErr};
ghost use Rattle.std.specs.declared.net.socket_addr.SocketAddr.{SocketAddr as Address};
ghost use Rattle.lk_address_book.specs.Addresses.{filter_of, IsSameNetwork};
ghost use Rattle.lk_server.specs.Gatherings.{Finds, DeliversAllEnvelopes, SaysNothing};
ghost use Rattle.lk_address_book.specs.Filters.{all_filtered};
ghost use Rattle.lk_waiting.specs.Waits.{NotesChanges};
ghost use Rattle.lk_transport.specs.Kept.{KeepsOf};
ghost use Rattle.lk_server_replica.specs.Refusals.{IsOfGroups};
ghost use Rattle.lk_server.specs.Servers.{DeliversEnvelopes, DeliversNothing, HasHeardNobody, HasReceived};
ghost use Rattle.lk_server.specs.Servers.{IsSameServer};
ghost use Rattle.lk_server.specs.Servers.{KeepsCounts, LastTurn};
ghost use Rattle.lk_server.specs.StepNotes.{TurnsNotesOrKeeps};
ghost use Rattle.lk_server.specs.Servers.{Runs, IsConfiguredAs, HasSocket, TurnOrIdle, Turn, one_more_tick};

use crate::group_fault::GroupFault;
use crate::ignored::IgnoredCounts;
use crate::turn_events::TurnEvents;
use lk_address_book::network::Network;
use lk_hearing::token_source::TokenSource;
use lk_node_interface::ReplicaFault;
use lk_pacing::pace::Pace;
use lk_pacing::sync_pause::SyncPause;
use lk_pacing::tick_timer::{FrozenClock, TickTimer};
use lk_pacing::turn_input::TurnInput;
use lk_probe::StateDigest;
use lk_replica::Group;
use lk_server_log::{log_notes, log_sends};
use lk_server_replica::feeding::Feeding;
use lk_server_replica::silence::Silence;
use lk_server_replica::{ServerReplica, TableVersion};
use lk_transport::post::SocketPost;
use lk_transport::receive_buffer::ReceiveBuffer;
use lk_transport::socket::DatagramSocket;
use lk_types::NodeNo;
use lk_waiting::Waiting;
use log::Log;
use std::alloc::Global;
use std::marker::Model;
use std::time::Clock;

/// A replica, and the post with the socket on which it runs.
#[derive(Drop)]
pub struct Server<R: ServerReplica, S: DatagramSocket + Drop> {
    pub(crate) alloc: Global,
    pub(crate) cluster: u64,
    pub(crate) pace: Pace,
    pub(crate) replica: R,
    // it holds the envelopes of the node to itself that wait for a group
    pub(crate) post: SocketPost<S>,
    // datagrams taken so far, modulo 2^64
    pub(crate) received: u64,
    // how many of them did not parse, were of another cluster, were administrative requests of clients that are no
    // admins, or were Wants of numbers that never joined
    pub(crate) ignored: IgnoredCounts,
    // what has happened since the last `drain_events`
    pub(crate) events: TurnEvents,
    // the ticks that its replica was given, those that were withheld, and the sends that failed, since its start
    pub(crate) ticks: u64,
    pub(crate) withheld: u64,
    pub(crate) unsent: u64,
    // the periods without a leader that its replica did not count
    pub(crate) silence: Silence,
    // the version of the lock table, as it was last read
    pub(crate) table: TableVersion,
    // its recent syncs, which decide how long it pauses before the next
    pub(crate) sync_pause: SyncPause,
    // the digest that it took last of its replica's state
    pub(crate) digest: StateDigest,
    // whether a step of this group has fed its replica
    pub(crate) fed: Feeding,
    // it draws the tokens of its probes
    pub(crate) tokens: TokenSource,
    // the count of periods at its last warning of a node of another genesis
    pub(crate) stranger_warned: Option<u64>,
    // the same for a warning of a node whose state differs
    pub(crate) state_warned: Option<u64>,
    // the same of a node's frame that did not open
    pub(crate) unopened_warned: Option<u64>,
    // the same at its last event of an administrative request that it dropped
    pub(crate) barred_noted: Option<u64>,
    // who waits for a name
    pub(crate) watches: Waiting,
}

impl<R: ServerReplica, S: DatagramSocket + Drop> Model for Server<R, S> {
    ghost use Rattle.lk_server.specs.Servers.{ServerValue};

    ghost Value = { ServerValue R };

    ghost view = { λ s. record {
      cluster = s.cluster;
      node = s.post.node;
      pace = s.pace;
      replica = s.replica;
      loopback = s.post.loopback;
      addresses = s.post.addresses;
      received = s.received;
      ticks = s.ticks;
      withheld = s.withheld;
      failed = R.failed s.replica;
      digest = s.digest;
      quiet = s.silence;
      fed = s.fed;
      sent = s.post.sent;
      socket_failures = s.post.socket_failures;
      incoming = s.post.incoming;
      waiting = s.watches;
    } };
}

impl<R: ServerReplica, S: DatagramSocket + Drop> Server<R, S> {
    /// Makes the server of a replica of this cluster. It has received nothing yet. If its ticks go by the clock, it is
    /// deaf until it has heard a majority of the members.
    pub fn new(
        alloc: Global,
        cluster: u64,
        node: NodeNo,
        pace: Pace,
        network: Network,
        replica: R,
        socket: S,
    ) -> Server<R, S>
        ensures node { IsConfiguredAs cluster node pace network result }
        ensures replica { Runs replica (R.failed replica) result }
        ensures socket { HasSocket (S.sent socket) (S.failures socket) (S.incoming socket) result }
        ensures unheard { HasHeardNobody result }
        ensures joined { result.addresses.joined ≡ R.greatest replica }
    {
        let mut post = SocketPost::new(alloc, node, network, socket);
        post.set_deaf(pace.is_clock());
        post.set_joined(replica.greatest());
        Server {
            alloc,
            cluster,
            pace,
            replica,
            post,
            received: 0,
            ignored: IgnoredCounts::new(),
            events: TurnEvents::NOTHING,
            ticks: 0,
            withheld: 0,
            unsent: 0,
            silence: Silence::none(),
            table: TableVersion::Unread,
            digest: StateDigest::none(),
            fed: Feeding::none(),
            sync_pause: SyncPause::NONE,
            tokens: TokenSource::new(),
            stranger_warned: None,
            state_warned: None,
            unopened_warned: None,
            barred_noted: None,
            watches: Waiting::new(alloc),
        }
    }

    /// Returns the replica. Its contract also equates the server's `failed` with the replica's, which some callers
    /// need.
    pub fn replica(&self) -> &R
        ensures is { result.now ≡ self.now.replica }
        // The server has failed exactly if its replica has.
        ensures failed { self.now.failed ≡ R.failed self.now.replica }
    {
        &self.replica
    }

    /// Returns the socket on which it runs, for tests that carry its datagrams.
    pub fn socket_mut(&mut self) -> &mut S {
        self.post.socket_mut()
    }

    /// Returns the events since the last call, and forgets them.
    pub fn drain_events(&mut self) -> TurnEvents
        ensures { self.new ≡ self.old }
    {
        let events = self.events;
        self.events = TurnEvents::NOTHING;
        events
    }

    // Begins a group.
    fn new_group(&self) -> Group
        ensures { R.Gathers self.now.replica [] result self.now.replica }
    {
        self.replica.new_group(self.alloc)
    }

    // Ends a group: after its sync each envelope is sent, or kept if it is to the node itself. Logs their fate, and
    // counts failed sends. Returns whether none failed.
    fn sync_and_send<L: Log>(&mut self, group: &Group, log: &L) -> Result<bool, ReplicaFault>
        ensures gives { OnOk result (DeliversAllEnvelopes R.Says R.Gathers S.is_observable group.now
            self.old self.new) }
        ensures silent { OnErr result (SaysNothing R.Says R.Gathers group.now self.old self.new) }
        ensures addresses { self.new.addresses ≡ self.old.addresses }
        ensures same { IsSameServer self.old self.new }
        ensures counts { KeepsCounts self.old self.new }
        ensures still { S.is_observable → self.new.incoming ≡ self.old.incoming }
        ensures alive { OnOk result (self.new.failed ≡ false) }
        ensures broken { OnErr result (self.new.failed ≡ true) }
        ensures told { IfErr result IsOfGroups }
        ensures unchanged { self.new.waiting ≡ self.old.waiting }
    {
        self.post.start_group();
        let delivered = self.replica.sync_and_send(group, &mut self.post);
        self.post.end_group();
        self.events.sends = self.post.send_summary();
        self.unsent = self.unsent.saturating_add(self.events.sends.lost);
        log_sends(log, &self.events.sends, self.post.cause());
        delivered
    }

    // Ends a group: syncs, sends its envelopes, and logs its notes. An envelope whose send fails is lost; that is no
    // error.
    fn end_group<L: Log>(&mut self, group: &Group, log: &L) -> Result<(), GroupFault>
        // Each envelope of the group was sent to its destination, kept for the node itself, or lost by a failed send,
        // in order.
        ensures gives { OnOk result (DeliversAllEnvelopes R.Says R.Gathers S.is_observable group.now
            self.old self.new) }
        // After an error nothing of the group is sent.
        ensures silent { OnErr result (SaysNothing R.Says R.Gathers group.now self.old self.new) }
        ensures addresses { self.new.addresses ≡ self.old.addresses }
        ensures same { IsSameServer self.old self.new }
        ensures counts { KeepsCounts self.old self.new }
        ensures still { S.is_observable → self.new.incoming ≡ self.old.incoming }
        ensures alive { OnOk result (self.new.failed ≡ false) }
        ensures broken { OnErr result (self.new.failed ≡ true) }
        // The names of the commands that were executed are noted, if anybody waits.
        ensures noted { OnOk result (NotesChanges group.now.notes self.old.waiting self.new.waiting) }
    {
        match self.sync_and_send(group, log) {
            Ok(_) => {
                log_notes(log, group.notes());
                self.table = self.table.after(group.notes());
                self.note_changes(group.notes());
                Ok(())
            }
            Err(fault) => Err(GroupFault::of(&fault)),
        }
    }

    /// Gives the replica a tick, as a group of its own.
    pub fn tick<L: Log>(&mut self, log: &L) -> Result<(), GroupFault>
        // The replica took a tick and nothing else. Each of its envelopes was sent, kept, lost by a failed send, or
        // dropped since no address is known for it, and nothing else was sent.
        ensures hands_on { OnOk result (DeliversEnvelopes R.Says S.is_observable
            (None ∷ []) self.old.loopback self.old self.new) }
        ensures ends { OnErr result (DeliversNothing R.Says (None ∷ []) self.old.loopback self.old self.new) }
        ensures addresses { self.new.addresses ≡ self.old.addresses }
        ensures same { IsSameServer self.old self.new }
        ensures received { self.new.received ≡ self.old.received }
        ensures ticks { self.new.ticks ≡ one_more_tick self.old.ticks }
        ensures alive { OnOk result (self.new.failed ≡ false) }
        ensures broken { OnErr result (self.new.failed ≡ true) }
    {
        let mut group = self.new_group();
        self.add_tick(&mut group, log)?;
        self.end_group(&group, log)
    }

    /// Takes what is waiting as one group: the first envelopes of the node to itself, or else what arrives at the
    /// socket. Returns whether its replica was given anything. Unlike `node_turn` it reads no clock, and adds no tick
    /// for time that has passed.
    pub fn untimed_turn<L: Log>(
        &mut self,
        buffer: &mut ReceiveBuffer,
        log: &L,
    ) -> Result<bool, GroupFault>
        ensures turn { IfOk result
            (λ came. came ≡ true → (frames : List (Address × List ℕ))
            × HasReceived S.is_observable frames self.old self.new
            × Turn R.Says S.is_observable (all_filtered (filter_of self.old.addresses) frames) self.old self.new
            × KeepsOf self.old.addresses.seals frames buffer.old buffer.new) }
        ensures ends { OnErr result
            ((frames : List (Address × List ℕ)) × HasReceived S.is_observable frames self.old self.new
            × LastTurn R.Says S.is_observable (all_filtered (filter_of self.old.addresses) frames) self.old self.new) }
        ensures none { IfOk result
            (λ came. came ≡ false → (self.old.loopback ≡ [])
            × (found : TurnInput) × (frames : List (Address × List ℕ))
            × Finds S.is_observable found frames self.old self.new
            × KeepsOf self.old.addresses.seals frames buffer.old buffer.new) }
        // Where nodes live, the keys and the admins do not change.
        ensures network { IsSameNetwork self.old.addresses self.new.addresses }
    {
        let mut group = self.new_group();
        let tick_timer = TickTimer::new(FrozenClock);
        let found = self.add_pending(buffer, &tick_timer, &mut group, log)?;
        if !found.is_something() {
            return Ok(false);
        }
        self.nudge_if_fed(&mut group, log)?;
        self.end_group(&group, log)?;
        Ok(true)
    }
}

/// Does one turn of a server: takes a group of what waits or comes before the next tick, with a tick if one is due,
/// and then syncs and sends.
pub fn node_turn<R: ServerReplica, S: DatagramSocket + Drop, C: Clock, L: Log>(
    server: &mut Server<R, S>,
    buffer: &mut ReceiveBuffer,
    tick_timer: &mut TickTimer<C>,
    log: &L,
) -> Result<(), GroupFault>
    // If envelopes of the node to itself wait, it takes the first 64 of them, once and in order, and nothing of the
    // socket. Otherwise it takes the frames that its receives find, at most 64, and at least one if the first receive
    // finds one: of each what it opens to, from where it came. No other frame is lost. The replica was given exactly
    // that, as one group, and a tick if one was due. Each of its envelopes was sent, kept for the node itself, lost by
    // a failed send, or dropped since no address is known, in order, and nothing else was sent. A turn that gives the
    // replica nothing is idle. Of the probes in these frames the first is kept, unless one was kept before.
    ensures turn { OnOk result
        ((frames : List (Address × List ℕ)) × HasReceived S.is_observable frames server.old server.new
        × TurnOrIdle R.Says S.is_observable frames server.old server.new
        × KeepsOf server.old.addresses.seals frames buffer.old buffer.new) }
    // The digest that it reports is the one before, or that of the state which the replica had after one of the inputs
    // of the group, at a multiple of 64 positions. Each input is a datagram, or ends a period: with a nudge in each
    // 31st, else with a tick. The last one is a nudge because the replica was fed, if one of the others has fed it; no
    // other input is one. The count of silence goes on at each input, or begins anew if the replica's does, and a tick
    // that is withheld adds to it; nothing else changes it.
    ensures notes { OnOk result
        (TurnsNotesOrKeeps R.Says R.Gathers R.Takes R.KeepsDigest R.HasStatus S.is_observable server.old
        server.new) }
    // After an error nothing of the group is sent.
    ensures ends { OnErr result
        ((frames : List (Address × List ℕ)) × HasReceived S.is_observable frames server.old server.new
        × LastTurn R.Says S.is_observable (all_filtered (filter_of server.old.addresses) frames)
        server.old server.new) }
    // Where nodes live, the keys and the admins do not change.
    ensures network { IsSameNetwork server.old.addresses server.new.addresses }
{
    let mut group = server.new_group();
    if !server.fill_group(buffer, tick_timer, &mut group, log)? {
        return Ok(());
    }
    server.nudge_if_fed(&mut group, log)?;
    let began = tick_timer.now();
    server.end_group(&group, log)?;
    server.note_sync(&group, tick_timer, began);
    Ok(())
}
