//! The queue of those who wait for names: who is told, and when. It has no clock, no socket and no disk.

ghost use Rattle.std.specs.Prelude.{◌≡◌, ◌≤◌, ◌<◌, ◌⊎◌, [], length, true, IfOk, OnOk, OnErr, IfSome, IsNone, slice_get};
ghost use Rattle.std.specs.Prelude.{◌+◌, nat_lt, take, map, vec_len, vec_capacity};
ghost use Rattle.std.specs.List.{sum_by, count_by, position_or_len};
ghost use Rattle.lk_watch.specs.Standings.{serves};
ghost use Rattle.lk_watch.specs.Waiters.{is_named, is_client, is_of, waits_for, load, is_due, refreshed};
ghost use Rattle.lk_watch.specs.Queues.{IsQueue, max_envelopes, position, has_room, is_kept, is_ignored_by, is_waiting};
ghost use Rattle.lk_watch.specs.Queues.{without, renewed_in, entered_for, heard, answer_to, place_of, begun, lived};
ghost use Rattle.lk_watch.specs.Queues.{others, is_due_at, NoneDueBefore, TellsFirst};

use crate::same_name::is_same;
use crate::standing::{NameTable, Standing};
use crate::ticket::Ticket;
use crate::waiter::{Envelope, MAX_SENT, Stage, Waiter};
use crate::watch::Watch;
use lk_locks::Name;
use lk_types::{ClientNo, NoMemory};
use std::alloc::Global;
use std::marker::Model;
use std::net::SocketAddr;

/// The most entries of a queue.
pub const MAX_WAITERS: usize = 1024;

/// The most entries for a name: as many as there are clients.
pub const MAX_OF_NAME: usize = 256;

/// The most names for which a client waits.
pub const MAX_OF_CLIENT: usize = 4;

/// The most envelopes of a turn.
pub const MAX_LETTERS: usize = 64;

// Returns how many of the waiters are of that client.
fn count_of_client(client: ClientNo, waiters: &[Waiter]) -> usize
    ensures { result ≡ count_by (is_client client) waiters.now }
{
    let mut count = 0;
    for waiter in waiters {
        if waiter.ticket.client == client {
            count += 1;
        }
    }
    count
}

// Returns how many of the waiters are for that name.
fn count_of_name(name: &Name, waiters: &[Waiter]) -> usize
    ensures { result ≡ count_by (is_named name.now) waiters.now }
{
    let mut count = 0;
    for waiter in waiters {
        if is_same(&waiter.ticket.name, name) {
            count += 1;
        }
    }
    count
}

// Returns how many of the waiters wait for that name.
fn count_waiting(name: &Name, waiters: &[Waiter]) -> usize
    ensures is { result ≡ count_by (waits_for name.now) waiters.now }
    ensures within { result ≤ length waiters.now }
{
    let mut count = 0;
    for waiter in waiters {
        if waiter.waits_for(name) {
            count += 1;
        }
    }
    count
}

// Whether the waiters take fewer places for a name than that before those who came later.
fn leave_place(standing: Standing, name: &Name, waiters: &[Waiter], places: usize) -> bool
    requires { length waiters.now ≤ MAX_WAITERS }
    ensures { result ≡ nat_lt (sum_by (load standing name.now) waiters.now) places }
{
    let mut total = 0;
    for waiter in waiters {
        total += waiter.load(standing, name);
        if total >= places {
            return false;
        }
    }
    total < places
}

// Returns the index of the waiter of that client for that name, or else how many waiters there are.
fn position_of(client: ClientNo, name: &Name, waiters: &[Waiter]) -> usize
    ensures is { result ≡ position_or_len (is_of client name.now) waiters.now }
    ensures within { result ≤ length waiters.now }
{
    let mut at = 0;
    for waiter in waiters {
        if waiter.is_of(client, name) {
            return at;
        }
        at += 1;
    }
    at
}

// Whether there is room for a newcomer with that ticket.
fn has_room(ticket: &Ticket, waiters: &[Waiter]) -> bool
    ensures { result ≡ has_room ticket.now waiters.now }
{
    waiters.len() < MAX_WAITERS
        && count_of_client(ticket.client, waiters) < MAX_OF_CLIENT
        && count_of_name(&ticket.name, waiters) < MAX_OF_NAME
}

// Whether a waiter is to be told, after those who came before it.
fn is_due(standing: Standing, before: &[Waiter], waiter: &Waiter) -> bool
    requires { length before.now ≤ MAX_WAITERS }
    ensures { result ≡ is_due standing before.now waiter.now }
{
    if !waiter.waits || waiter.sent >= MAX_SENT || !standing.serves(&waiter.ticket) {
        return false;
    }
    match waiter.stage_at(standing.opening()) {
        Stage::NotYet => {
            let places = standing.places(waiter.ticket.mode);
            leave_place(standing, &waiter.ticket.name, before, places)
        }
        Stage::Once => true,
        Stage::JustNow | Stage::Twice => false,
    }
}

// Whether the waiter at an index, if there is one, ignores the watch.
fn is_ignored_at(waiters: &[Waiter], at: usize, watch: &Watch, from: SocketAddr) -> bool
    ensures { result ≡ is_ignored_by watch.now from (slice_get waiters.now at) }
{
    match waiters.get(at) {
        Some(waiter) => waiter.ignores(watch, from),
        None => false,
    }
}

// Whether there is a waiter at an index that waits.
fn is_waiting_at(waiters: &[Waiter], at: usize) -> bool
    ensures { result ≡ is_waiting (slice_get waiters.now at) }
{
    match waiters.get(at) {
        Some(waiter) => waiter.waits,
        None => false,
    }
}

// Whether a watch that has no waiter is kept: it does not withdraw, and the name is held, or others wait for it.
fn is_kept(watch: &Watch, standing: Standing, waiters: &[Waiter]) -> bool
    requires { length waiters.now ≤ MAX_WAITERS }
    ensures { result ≡ is_kept watch.now standing waiters.now }
{
    let places = standing.places(watch.ticket.mode);
    watch.periods > 0 && !leave_place(standing, &watch.ticket.name, waiters, places)
}

// Removes the waiter at an index, if there is one.
fn remove_at(waiters: &mut Vec<Waiter>, at: usize)
    ensures items { waiters.new.items ≡ without at waiters.old.items }
    ensures len { vec_len waiters.new ≤ vec_len waiters.old }
    ensures capacity { vec_capacity waiters.new ≡ vec_capacity waiters.old }
{
    if at < waiters.len() {
        let _removed = waiters.remove(at);
    }
}

// Passes that many periods for each waiter, and ends the wait of each that holds its name by the table.
fn refresh_all<T: NameTable>(table: &T, count: u64, waiters: &mut [Waiter])
    ensures { waiters.new ≡ map (refreshed (T.holds table.now) count) waiters.old }
{
    for waiter in waiters.iter_mut() {
        let is_granted = table.holds(waiter.ticket.client, &waiter.ticket.name);
        waiter.age(count);
        waiter.settle(is_granted);
    }
}

// Returns the index of the first of the waiters that is to be told, by what the table says.
fn first_due<T: NameTable>(table: &T, waiters: &[Waiter]) -> Option<usize>
    requires { length waiters.now ≤ MAX_WAITERS }
    ensures some { IfSome result (λ i. (i < length waiters.now)
        × (is_due_at (T.standing table.now) waiters.now i ≡ true)
        × NoneDueBefore (T.standing table.now) waiters.now i) }
    ensures none { IsNone result → NoneDueBefore (T.standing table.now) waiters.now (length waiters.now) }
{
    if !table.has_place() {
        return None;
    }
    for index in 0..waiters.len() {
        let waiter = &waiters[index];
        let standing = table.standing(&waiter.ticket.name);
        if is_due(standing, &waiters[..index], waiter) {
            return Some(index);
        }
    }
    None
}

/// Those who wait for names, in order of arrival: at most 1,024, at most 256 for a name, and each client for at most 4
/// names.
#[derive(Drop)]
pub struct WatchQueue {
    waiters: Vec<Waiter>,
    // how many envelopes it may still hand out in this turn
    left: usize,
}

impl Model for WatchQueue {
    ghost use Rattle.std.specs.Prelude.{◌≤◌};
    ghost use Rattle.lk_watch.specs.Queues.{QueueValue, IsQueue, max_envelopes};

    ghost Value = { QueueValue };

    ghost view = { λ q. record { waiters = q.waiters.items; left = q.left } };

    ghost invariant = { λ q. IsQueue (record { waiters = q.waiters.items; left = q.left }) };
}

impl WatchQueue {
    /// Returns an empty queue. It takes memory with the first that waits.
    pub fn new(alloc: Global) -> WatchQueue
        ensures { result ≡ record { waiters = []; left = max_envelopes } }
    {
        WatchQueue {
            waiters: Vec::new(alloc),
            left: MAX_LETTERS,
        }
    }

    /// Returns how many entries it has.
    pub fn len(&self) -> usize
        ensures { result ≡ length self.now.waiters }
    {
        self.waiters.len()
    }

    /// Shows the prover that the queue is within its bounds. Does nothing at run time.
    pub fn facts(&self)
        ensures { IsQueue self.now }
    {
        let _ = &self.waiters;
    }

    // Returns the place of the waiter at an index among those who wait for that name.
    fn place_at(&self, at: usize, name: &Name) -> u16
        requires { at < length self.now.waiters }
        ensures { result ≡ 1 + count_by (waits_for name.now) (take at self.now.waiters) }
    {
        1 + count_waiting(name, &self.waiters[..at]) as u16
    }

    // Returns the place of the waiter with that ticket, 0 if it does not wait.
    fn place_of(&self, ticket: &Ticket) -> u16
        ensures { result ≡ place_of ticket.now self.now.waiters }
    {
        let at = position_of(ticket.client, &ticket.name, &self.waiters);
        if at >= self.waiters.len() || !self.waiters[at].waits {
            return 0;
        }
        self.place_at(at, &ticket.name)
    }

    // Renews the waiter at an index, if there is one, by a watch of its client for its name.
    fn renew(&mut self, at: usize, watch: &Watch)
        requires { at ≡ position watch.now.ticket self.old.waiters }
        ensures waiters { self.new.waiters ≡ renewed_in watch.now self.old.waiters }
        ensures left { self.new.left ≡ self.old.left }
    {
        if at < self.waiters.len() {
            self.waiters[at].renew(watch);
        }
    }

    // Adds the waiter of a watch behind all others, in place of the entry at an index if there is one, and if there is
    // room. Out of memory nothing changes.
    fn enter(&mut self, at: usize, watch: &Watch, from: SocketAddr) -> Result<(), NoMemory>
        requires at { at ≡ position watch.now.ticket self.old.waiters }
        requires lives { 0 < watch.now.periods }
        ensures ok { OnOk result (self.new.waiters ≡ entered_for watch.now from self.old.waiters) }
        ensures err { OnErr result (self.new ≡ self.old) }
        ensures left { self.new.left ≡ self.old.left }
    {
        self.waiters.reserve(1)?;
        remove_at(&mut self.waiters, at);
        if has_room(&watch.ticket, &self.waiters) {
            self.waiters.push(Waiter::new(watch, from)).unwrap();
        }
        Ok(())
    }

    /// Takes a watch that came from an address, where the table says this of its name, and returns the envelope that
    /// answers it. `None`, and nothing changes, if a newer watch of the client for the name came before, or if its
    /// waiter has another address. A watch that withdraws ends the wait. Any other renews it; without a waiter it is
    /// kept if the name is held or others wait for it, and there is room: nobody makes place for it. Out of memory
    /// nothing changes.
    pub fn hear(
        &mut self,
        watch: &Watch,
        from: SocketAddr,
        standing: Standing,
        speaks: bool,
    ) -> Result<Option<Envelope>, NoMemory>
        ensures waiters { OnOk result (self.new.waiters ≡ heard watch.now from standing self.old.waiters) }
        ensures answer { IfOk result
            (λ a. a ≡ answer_to watch.now from standing speaks self.old.waiters self.new.waiters) }
        ensures others { OnOk result
            (others watch.now.ticket self.new.waiters ≡ others watch.now.ticket self.old.waiters) }
        ensures err { OnErr result (self.new ≡ self.old) }
        ensures left { self.new.left ≡ self.old.left }
    {
        let ticket = &watch.ticket;
        let at = position_of(ticket.client, &ticket.name, &self.waiters);
        if is_ignored_at(&self.waiters, at, watch, from) {
            return Ok(None);
        }
        if is_waiting_at(&self.waiters, at) {
            self.renew(at, watch);
        } else if is_kept(watch, standing, &self.waiters) {
            self.enter(at, watch, from)?;
        }
        Ok(Some(Envelope {
            to: from,
            ticket: ticket.copy(),
            news: standing.news(speaks, ticket),
            place: self.place_of(ticket),
        }))
    }

    // Passes that many periods: watches that have lived for theirs expire, and whoever holds its name by the table
    // waits no more.
    fn refresh<T: NameTable>(&mut self, table: &T, count: u64)
        ensures waiters { self.new.waiters ≡ lived (T.holds table.now) count self.old.waiters }
        ensures left { self.new.left ≡ self.old.left }
    {
        refresh_all(table, count, &mut self.waiters);
        self.waiters.retain(|waiter| waiter.periods > 0);
    }

    // Ends the wait of whoever holds the name that it waits for, by the table. No period passes.
    fn settle<T: NameTable>(&mut self, table: &T)
        ensures waiters { self.new.waiters ≡ lived (T.holds table.now) 0 self.old.waiters }
        ensures left { self.new.left ≡ self.old.left }
    {
        refresh_all(table, 0, &mut self.waiters);
    }

    /// Begins a turn, before which that many periods have passed since the last one. Watches that have lived for theirs
    /// expire. Whoever holds the name that it waits for, by what the table says, was granted it, and waits no more: its
    /// number is kept until its watch expires. It may hand out 64 envelopes again.
    pub fn begin_turn<T: NameTable>(&mut self, table: &T, count: u64)
        ensures { self.new ≡ begun (T.holds table.now) count self.old }
    {
        if count == 0 {
            self.settle(table);
        } else {
            self.refresh(table, count);
        }
        self.left = MAX_LETTERS;
    }

    /// Returns the envelope to the first to arrive of those who are to be told that their name is free, by what the
    /// table says, and counts it. `None`, and nothing changes, if nobody is, or 64 envelopes were handed out in this
    /// turn. If some name has a place, it looks at each entry, and for a name that is free at those before it too.
    pub fn next_envelope<T: NameTable>(&mut self, table: &T) -> Option<Envelope>
        ensures first { IfSome result (λ envelope. TellsFirst (T.standing table.now) self.old envelope self.new) }
        ensures free { IfSome result (λ envelope. serves (T.standing table.now envelope.ticket.name)
            envelope.ticket ≡ true) }
        ensures none { IsNone result → (self.old.left ≡ 0)
            ⊎ NoneDueBefore (T.standing table.now) self.old.waiters (length self.old.waiters) }
        ensures unchanged { IsNone result → self.new ≡ self.old }
    {
        if self.left == 0 {
            return None;
        }
        let index = first_due(table, &self.waiters)?;
        let waiter = &self.waiters[index];
        let place = self.place_at(index, &waiter.ticket.name);
        let opening = table.standing(&waiter.ticket.name).opening();
        self.left -= 1;
        Some(self.waiters[index].tell(opening, place))
    }
}
