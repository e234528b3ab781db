// A client that waits for a lock: whom it asks next, when, and what it hears meanwhile.

ghost use Rattle.std.specs.Prelude.{◌≡◌, true, false, IfOk, IfSome, if◌then◌else◌};
ghost use Rattle.lk_transport.specs.Streams.{Receives as Arrives, next_of};
ghost use Rattle.lk_client.specs.Questions.{IsAsked, IsFinal, Receives};
ghost use Rattle.lk_client.specs.Waits.{Asks, AsksFor, IsOwnWatch, IsWatchOf, SendsAll, WatchesFor};
ghost use Rattle.lk_client.specs.Watches.{next_watch};
ghost use Rattle.lk_client.specs.Waiters.{GoesTo, KeepsOn, Notes, StaysAt, next_turn, turned};

use crate::destination::Place;
use crate::question::{Question, receive_next};
use crate::reply::Reply;
use crate::schedule::Schedule;
use crate::waiting::Wait;
use crate::wanted::Wanted;
use crate::watcher::Watcher;
use lk_transport::receive_buffer::ReceiveBuffer;
use lk_transport::socket::DatagramSocket;
use lk_types::Fence;
use lk_watch::{News, Notice, Ticket, Watch};
use std::alloc::{AllocError, Global};
use std::net::SocketAddr;
use std::time::{Clock, Duration};

// How many periods of a node a watch lives.
const LIFE: u8 = 20;

/// Returns a reading of a monotonic clock, in microseconds. If that fails it is the greatest one, at which each wait is
/// over.
pub(crate) fn now<C: Clock>(clock: &C) -> u64 {
    match clock.monotonic() {
        Ok(time) => u64::try_from(time.as_micros()).unwrap_or(u64::MAX),
        Err(_) => u64::MAX,
    }
}

// Returns the nanoseconds since 1970, from which the numbers of watches rise over restarts; 0 if the clock fails.
fn first_number<C: Clock>(clock: &C) -> u64 {
    match clock.since_1970() {
        Ok(time) => u64::try_from(time.as_nanos()).unwrap_or(0),
        Err(_) => 0,
    }
}

// Lets the next receive wait until then at most, but for a millisecond at least.
fn set_timeout<S: DatagramSocket>(socket: &mut S, now: u64, until: u64)
    ensures unchanged { S.sent socket.new ≡ S.sent socket.old }
    ensures still { S.incoming socket.new ≡ S.incoming socket.old }
{
    let left = until.saturating_sub(now).max(1000);
    socket.set_timeout(Duration::from_micros(left));
}

// Returns a watch of the question's client for this lock, with that number. It follows no Busy yet.
fn watch_for(question: &Question, wanted: Wanted, number: u64) -> Watch
    requires { AsksFor question.now.request.op wanted.mode wanted.name }
    ensures { WatchesFor question.now result }
{
    Watch {
        cluster: question.cluster,
        ticket: Ticket {
            client: question.request.client,
            number,
            fence: Fence::default(),
            mode: wanted.mode,
            name: wanted.name,
        },
        periods: LIFE,
    }
}

// Returns the index of the next of so many places: after the last one the first.
fn next_turn(turn: usize, count: usize) -> usize
    ensures { result ≡ next_turn turn count }
{
    match turn.checked_add(1) {
        Some(next) if next < count => next,
        _ => 0,
    }
}

/// What changes while a client waits for a lock.
#[derive(Drop)]
pub(crate) struct Waiter {
    /// Whom it asks in turn, and the index of the one that it asked last.
    pub places: Vec<Place>,
    pub turn: usize,
    /// Whom it asks next: where a node has answered last, or the next in turn.
    pub asked: Place,
    pub watcher: Watcher,
    pub schedule: Schedule,
    /// Whether it watches: since it was told first that another client holds the lock.
    pub is_watching: bool,
    /// When it gives up.
    pub end: u64,
}

impl Waiter {
    /// Makes a client that waits for the lock that the question asks for. It asks these places in turn, and sends its
    /// watches to the first `nodes` of them. Fails only when out of memory.
    pub(crate) fn new<C: Clock>(
        alloc: Global,
        clock: &C,
        question: &Question,
        wait: Wait,
        places: Vec<Place>,
        nodes: usize,
    ) -> Result<Waiter, AllocError>
        requires { AsksFor question.now.request.op wait.wanted.mode wait.wanted.name }
        ensures { IfOk result (StaysAt question.now false) }
    {
        let Wait { wanted, seconds } = wait;
        let watch = watch_for(question, wanted, first_number(clock));
        let watched = places.get(..nodes).unwrap_or(places.as_slice());
        let watcher = Watcher::new(alloc, watch, watched)?;
        Ok(Waiter {
            places,
            turn: 0,
            asked: question.place(),
            watcher,
            schedule: Schedule::new(),
            is_watching: false,
            end: now(clock).saturating_add(u64::from(seconds) * 1_000_000),
        })
    }

    // The next request goes to the next place in turn.
    fn turn_on(&mut self)
        ensures { self.new ≡ turned self.old }
    {
        self.turn = next_turn(self.turn, self.places.len());
        if let Some(place) = self.places.get(self.turn) {
            self.asked = *place;
        }
    }

    /// Whether the request is to be sent to another place than this: if a node at another one leads, or if no reply has
    /// come in time, and then to the next in turn.
    pub(crate) fn leaves(&mut self, place: &Place, is_late: bool) -> bool
        ensures other { (self.old.asked ≡ place.now → ⊥) → (result ≡ true) × (self.new ≡ self.old) }
        ensures same { self.old.asked ≡ place.now
            → (result ≡ is_late) × (self.new ≡ (if is_late then turned self.old else self.old)) }
        ensures keeps { KeepsOn self.old self.new }
    {
        if self.asked != *place {
            return true;
        }
        if is_late {
            self.turn_on();
        }
        is_late
    }

    /// Sends the next watch, which lives so many periods. When out of memory, it sends none, as if it were lost.
    pub(crate) fn send_watch<S: DatagramSocket>(
        &mut self,
        alloc: Global,
        socket: &mut S,
        question: &Question,
        periods: u8,
    )
        requires { WatchesFor question.now self.old.watcher.watch }
        ensures sends { S.is_observable
            → SendsAll (IsWatchOf question.now) (S.sent socket.old) (S.sent socket.new) }
        ensures still { S.is_observable → S.incoming socket.new ≡ S.incoming socket.old }
        ensures watch { self.new.watcher.watch ≡ next_watch periods self.old.watcher.watch }
        ensures stays { StaysAt question.now self.old.is_watching self.new }
    {
        let _ = self
            .watcher
            .send(alloc, socket, &question.destination.seals, periods);
    }

    // Whether the client watches, and its next watch is due.
    fn is_watch_due(&self, now: u64) -> bool
        ensures { result ≡ true → self.now.is_watching ≡ true }
    {
        self.is_watching && self.schedule.is_watch_due(now)
    }

    /// Sends the next watch, if the client watches and that is due.
    #[tactic(auto, using(crate::proofs::Sending::sends_nothing, crate::proofs::Sending::sends_own))]
    pub(crate) fn renew<S: DatagramSocket>(
        &mut self,
        alloc: Global,
        socket: &mut S,
        question: &Question,
        now: u64,
    )
        requires { WatchesFor question.now self.old.watcher.watch }
        ensures sends { S.is_observable
            → SendsAll (IsOwnWatch self.old.is_watching question.now) (S.sent socket.old) (S.sent socket.new) }
        ensures still { S.is_observable → S.incoming socket.new ≡ S.incoming socket.old }
        ensures stays { StaysAt question.now self.old.is_watching self.new }
    {
        if !self.is_watch_due(now) {
            return;
        }
        self.schedule.note_watch(now);
        self.send_watch(alloc, socket, question, LIFE);
    }

    // Notes what a notice says. If its node leads, the next request goes there.
    fn note_notice(&mut self, notice: &Notice, source: SocketAddr, now: u64)
        ensures notes { Notes notice.now source now self.old self.new }
        ensures keeps { KeepsOn self.old self.new }
    {
        let news = self.watcher.news_in(notice);
        self.schedule
            .note_news(notice.node, news, notice.place, now);
        match Place::of(source) {
            Some(place) if news != News::NotHere => self.asked = place,
            _ => {}
        }
    }

    // Notes the notice in the latest datagram, if it is one.
    fn note_latest(&mut self, question: &Question, buffer: &ReceiveBuffer, now: u64)
        ensures { KeepsOn self.old self.new }
    {
        let Some((bytes, source)) = buffer.latest() else {
            return;
        };
        let notice = self
            .watcher
            .read(&question.destination.seals, source, bytes);
        if let Some(notice) = notice {
            self.note_notice(&notice, source, now);
        }
    }

    // Notes who has answered: the next request goes there, and the next watches go there too.
    fn note_replier(&mut self, buffer: &ReceiveBuffer)
        ensures goes { IfSome buffer.now.last (λ d. GoesTo d.0 self.old.asked self.new.asked) }
        ensures schedule { self.new.schedule ≡ self.old.schedule }
        ensures keeps { KeepsOn self.old self.new }
    {
        let Some((_, source)) = buffer.latest() else {
            return;
        };
        if let Some(place) = Place::of(source) {
            self.asked = place;
        }
        self.watcher.add(source);
    }

    // Receives once, and returns an Answer or a Passed. An Elsewhere is followed, and a notice noted.
    fn hear<S: DatagramSocket, C: Clock>(
        &mut self,
        socket: &mut S,
        clock: &C,
        buffer: &mut ReceiveBuffer,
        question: &Question,
        bytes: &[u8],
        followed: &mut u32,
    ) -> Option<Reply>
        ensures heard { S.is_observable → Receives S.sent S.failures (next_of S.incoming) question.now bytes.now result
            (record { socket = socket.old; followed = followed.old })
            (record { socket = socket.new; followed = followed.new }) }
        ensures comes { S.is_observable
            → Arrives (next_of S.incoming socket.old) (S.incoming socket.old) (S.incoming socket.new) }
        ensures told { IfSome result IsFinal }
        ensures keeps { KeepsOn self.old self.new }
    {
        let reply = receive_next(buffer, socket, question, bytes, followed);
        match reply {
            Some(_) => self.note_replier(buffer),
            None => self.note_latest(question, buffer, now(clock)),
        }
        reply
    }

    /// Sends a watch if it is due, and receives once, until then at most. Returns an Answer or a Passed.
    pub(crate) fn hear_until<S: DatagramSocket, C: Clock>(
        &mut self,
        alloc: Global,
        socket: &mut S,
        clock: &C,
        buffer: &mut ReceiveBuffer,
        question: &Question,
        bytes: &[u8],
        followed: &mut u32,
        until: u64,
    ) -> Option<Reply>
        requires watches { WatchesFor question.now self.old.watcher.watch }
        requires asked { IsAsked question.now bytes.now }
        ensures asks { S.is_observable → Asks S.sent S.incoming self.old.is_watching question.now result
            socket.old socket.new }
        ensures told { IfSome result IsFinal }
        ensures stays { StaysAt question.now self.old.is_watching self.new }
    {
        let time = now(clock);
        self.renew(alloc, socket, question, time);
        set_timeout(socket, time, until.min(self.schedule.watch_at()));
        self.hear(socket, clock, buffer, question, bytes, followed)
    }

    /// Receives once, until then at most, and notes a notice.
    pub(crate) fn listen_until<S: DatagramSocket, C: Clock>(
        &mut self,
        socket: &mut S,
        clock: &C,
        buffer: &mut ReceiveBuffer,
        question: &Question,
        until: u64,
    )
        ensures unchanged { S.sent socket.new ≡ S.sent socket.old }
        ensures keeps { KeepsOn self.old self.new }
    {
        set_timeout(socket, now(clock), until);
        buffer.receive(socket);
        self.note_latest(question, buffer, now(clock));
    }
}
