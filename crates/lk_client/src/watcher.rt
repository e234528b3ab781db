// The watches of a client: whom it sends them to, and what their notices say.

ghost use Rattle.std.specs.Prelude.{◌≡◌, Bool, IfOk, IfErr, IfSome, OnErr};
ghost use Rattle.lk_client.specs.Watches.{IsNoticeTo, Watches, forgotten, is_again, is_early, news_to, next_watch};
ghost use Rattle.lk_client.specs.Watches.{noted, with_fence};

use crate::destination::Place;
use crate::notices::{WatchedPlace, notice_to, send_watch};
use lk_auth::AskerSeals;
use lk_program_fault::ProgramFault;
use lk_transport::socket::DatagramSocket;
use lk_types::{Fence, NodeNo};
use lk_watch::{News, Notice, Watch};
use std::alloc::{AllocError, Global};
use std::net::SocketAddr;

// An answer to a watch that the name is free for those who came before the client, and the client's place.
#[derive(Clone, Copy, PartialEq, Eq)]
struct EarlyAnswer {
    node: NodeNo,
    place: u16,
}

/// The watches of a client for one lock.
#[derive(Drop)]
pub(crate) struct Watcher {
    // the last one; before the first its number is that from which they rise
    watch: Watch,
    places: Vec<WatchedPlace>,
    // how many places the caller has named; one more may follow, at which a node answered last
    named: usize,
    // the nodes that have answered the last watch
    answered: Vec<NodeNo>,
    // the last early answer, until its node gives another one
    early: Option<EarlyAnswer>,
}

// Whether one of the places is this source.
fn is_among(source: SocketAddr, places: &[WatchedPlace]) -> bool {
    places.iter().any(|watched| watched.place.is_source(source))
}

// Counts a watch that each of the places has not answered yet.
fn count_unanswered(places: &mut [WatchedPlace]) {
    for watched in places.iter_mut() {
        watched.unanswered = watched.unanswered.saturating_add(1);
    }
}

// Notes that the place at this source has answered. With a key a node may answer from another address: then it may be
// any of them.
fn note_answer(source: SocketAddr, places: &mut [WatchedPlace]) {
    let is_known = is_among(source, places);
    for watched in places.iter_mut() {
        if !is_known || watched.place.is_source(source) {
            watched.unanswered = 0;
        }
    }
}

// Returns what a notice says to the client. To it a name is held that an early answer says to be free: the node says
// later that the client's turn has come.
fn news_to(notice: &Notice, is_early: bool) -> News
    ensures { result ≡ news_to is_early notice.now }
{
    match notice.news {
        News::Free if is_early && notice.place > 1 => News::Held,
        news => news,
    }
}

// Returns the last early answer, unless it is one of that node.
fn forgotten(early: Option<EarlyAnswer>, node: NodeNo) -> Option<EarlyAnswer>
    ensures { result ≡ forgotten node early }
{
    match early {
        Some(answer) if answer.node == node => None,
        other => other,
    }
}

impl Watcher {
    /// Makes a watcher that sends its watches to these places. The numbers rise from that of the given watch, which is
    /// not sent.
    pub(crate) fn new(alloc: Global, watch: Watch, named: &[Place]) -> Result<Watcher, AllocError>
        ensures { IfOk result (λ w. w.watch ≡ watch) }
    {
        let mut places = Vec::new(alloc);
        for place in named {
            places.push(WatchedPlace {
                place: *place,
                unanswered: 0,
            })?;
        }
        Ok(Watcher {
            watch,
            named: places.len(),
            places,
            answered: Vec::new(alloc),
            early: None,
        })
    }

    /// The next watches follow a Busy with this fence.
    pub(crate) fn set_fence(&mut self, fence: Fence)
        ensures watch { self.new.watch ≡ with_fence fence self.old.watch }
    {
        self.watch.ticket.fence = fence;
    }

    /// Sends the next watch, which lives so many periods of a node, or withdraws for none. Fails only when out of
    /// memory.
    pub(crate) fn send<S: DatagramSocket>(
        &mut self,
        alloc: Global,
        socket: &mut S,
        seals: &AskerSeals,
        periods: u8,
    ) -> Result<(), ProgramFault>
        ensures sends { S.is_observable → IfOk result (λ _. Watches seals.now self.new.watch self.old.places.items
            (S.sent socket.old) (S.failures socket.old) (S.sent socket.new) (S.failures socket.new)) }
        ensures still { S.is_observable → S.incoming socket.new ≡ S.incoming socket.old }
        ensures unchanged { OnErr result (socket.new ≡ socket.old) }
        ensures watch { self.new.watch ≡ next_watch periods self.old.watch }
        ensures only { IfErr result (λ f. f ≡ ProgramFault.NoMemory) }
    {
        self.watch.ticket.number = self.watch.ticket.number.saturating_add(1);
        self.watch.periods = periods;
        send_watch(alloc, socket, seals, &self.watch, &self.places)?;
        count_unanswered(&mut self.places);
        self.answered.clear();
        Ok(())
    }

    /// Returns the notice in a datagram from this source, if it answers the last watch. Without a key it has to come
    /// from a place to which watches are sent.
    pub(crate) fn read(
        &mut self,
        seals: &AskerSeals,
        source: SocketAddr,
        bytes: &[u8],
    ) -> Option<Notice>
        ensures reads { IfSome result (IsNoticeTo seals.now self.old.watch bytes.now) }
        ensures watch { self.new.watch ≡ self.old.watch }
    {
        if seals.keys.is_none() && !is_among(source, &self.places) {
            return None;
        }
        let Some(notice) = notice_to(seals, &self.watch, bytes) else {
            return None;
        };
        note_answer(source, &mut self.places);
        Some(notice)
    }

    // Counts the node among those that have answered the last watch. Returns whether it was none of them. If it is out
    // of memory, the node is not counted.
    fn add_answer(&mut self, node: NodeNo) -> bool
        ensures watch { self.new.watch ≡ self.old.watch }
    {
        if self.answered.contains(&node) {
            return false;
        }
        let _ = self.answered.push(node);
        true
    }

    // Whether a notice repeats the last early answer of its node.
    fn is_again(&self, notice: &Notice) -> bool
        ensures { result ≡ is_again notice.now self.now.early }
    {
        match self.early {
            Some(early) => early.node == notice.node && early.place == notice.place,
            None => false,
        }
    }

    // Notes the answer of a node to the last watch. Returns whether it is early, so whether it says that the name is
    // free for those who came before the client. If a node says so again at the same place, what it has said since is
    // lost, and those who came before leave the name free.
    fn note_early(&mut self, answer: &Notice) -> bool
        ensures value { result ≡ is_early answer.now self.old.early }
        ensures notes { self.new ≡ record self.old { early = noted answer.now self.old.early } }
    {
        let is_again = self.is_again(answer);
        let is_early = answer.news == News::Free && answer.place > 1 && !is_again;
        self.early = if is_early {
            Some(EarlyAnswer {
                node: answer.node,
                place: answer.place,
            })
        } else {
            forgotten(self.early, answer.node)
        };
        is_early
    }

    /// Returns what a notice that was read says to the client.
    pub(crate) fn news_in(&mut self, notice: &Notice) -> News
        ensures news { (is_early : Bool) × (result ≡ news_to is_early notice.now) }
        ensures watch { self.new.watch ≡ self.old.watch }
    {
        let is_early = self.add_answer(notice.node) && self.note_early(notice);
        news_to(notice, is_early)
    }

    /// Sends the next watches to this place too, at which a node answered last, in place of the last such. If it is out
    /// of memory, it sends none there.
    pub(crate) fn add(&mut self, source: SocketAddr)
        ensures watch { self.new.watch ≡ self.old.watch }
    {
        match Place::of(source) {
            Some(place) if !is_among(source, &self.places) => {
                self.places.truncate(self.named);
                let _ = self.places.push(WatchedPlace {
                    place,
                    unanswered: 0,
                });
            }
            _ => {}
        }
    }
}
