// Sends a watch, and reads the notices that answer it.
ghost use Rattle.std.specs.Prelude.{◌≡◌, ◌↔◌, true, false, IfOk, IfErr, IfSome, IsNone, IsTrue, OnErr};
ghost use Rattle.lk_watch.specs.declared.notice.Notice.{Notice as NoticeValue};
ghost use Rattle.lk_client.specs.Questions.{SendsEach, SendsOnce};
ghost use Rattle.lk_client.specs.Watches.{IsNoticeTo, Watches, due_endpoints, is_due};

use crate::destination::Place;
use crate::question::send;
use lk_auth::AskerSeals;
use lk_program_fault::ProgramFault;
use lk_transport::socket::DatagramSocket;
use lk_watch::{Notice, Ticket, Watch};
use std::alloc::Global;

// A node that has not answered so many watches in turn is gone.
const GONE: u32 = 2;

// A node that is gone gets one of this many watches.
const SELDOM: u32 = 8;

/// A place to which watches are sent, and how many of them in turn it has not answered.
#[derive(Clone, Copy)]
pub(crate) struct WatchedPlace {
    pub place: Place,
    pub unanswered: u32,
}

impl WatchedPlace {
    // Whether it gets the next watch.
    fn is_due(&self) -> bool
        ensures { result ≡ is_due self.now }
    {
        self.unanswered < GONE || self.unanswered % SELDOM == 0
    }
}

// Sends bytes to a place if it gets the next watch. A failed send is ignored, as if the datagram were lost.
fn send_if_due<S: DatagramSocket>(socket: &mut S, watched: WatchedPlace, bytes: &[u8])
    ensures still { S.is_observable → S.incoming socket.new ≡ S.incoming socket.old }
    ensures due { S.is_observable → is_due watched ≡ true → SendsOnce (watched.place.address, watched.place.port)
        bytes.now (S.sent socket.old) (S.failures socket.old) (S.sent socket.new) (S.failures socket.new) }
    ensures none { is_due watched ≡ false → socket.new ≡ socket.old }
{
    if watched.is_due() {
        send(socket, watched.place, bytes);
    }
}

// Does so for each of these places.
fn send_to_due<S: DatagramSocket>(socket: &mut S, places: &[WatchedPlace], bytes: &[u8])
    ensures sends { S.is_observable → SendsEach (due_endpoints places.now) bytes.now (S.sent socket.old)
        (S.failures socket.old) (S.sent socket.new) (S.failures socket.new) }
    ensures still { S.is_observable → S.incoming socket.new ≡ S.incoming socket.old }
{
    'places: for watched in places {
        send_if_due(socket, *watched, bytes);
    }
}

/// Sends the watch to each of these places that gets it, in a frame if the client has a key. Fails only when out of
/// memory.
pub(crate) fn send_watch<S: DatagramSocket>(
    alloc: Global,
    socket: &mut S,
    seals: &AskerSeals,
    watch: &Watch,
    places: &[WatchedPlace],
) -> Result<(), ProgramFault>
    ensures sends { S.is_observable → IfOk result (λ _. Watches seals.now watch.now places.now
        (S.sent socket.old) (S.failures socket.old) (S.sent socket.new) (S.failures socket.new)) }
    ensures still { S.is_observable → S.incoming socket.new ≡ S.incoming socket.old }
    ensures unchanged { OnErr result (socket.new ≡ socket.old) }
    ensures only { IfErr result (λ f. f ≡ ProgramFault.NoMemory) }
{
    let datagram = watch.datagram();
    let mut frame = Vec::new(alloc);
    let framed = seals.frame_of(watch.ticket.client.get(), datagram.as_slice(), &mut frame)?;
    send_to_due(socket, places, framed);
    Ok(())
}

// Whether two tickets are the same.
fn is_same(one: &Ticket, other: &Ticket) -> bool
    ensures { IsTrue result ↔ (one.now ≡ other.now) }
{
    one.client == other.client
        && one.number == other.number
        && one.fence == other.fence
        && one.mode == other.mode
        && one.name.as_slice() == other.name.as_slice()
}

/// Returns the notice in a datagram that arrived, if it answers the watch.
pub(crate) fn notice_to(seals: &AskerSeals, watch: &Watch, bytes: &[u8]) -> Option<Notice>
    ensures some { IfSome result (IsNoticeTo seals.now watch.now bytes.now) }
    ensures none { IsNone result → (n : NoticeValue) → IsNoticeTo seals.now watch.now bytes.now n → ⊥ }
{
    let Some(notice) = Notice::read(seals.unseal(watch.ticket.client.get(), bytes)) else {
        return None;
    };
    if notice.cluster != watch.cluster || !is_same(&notice.ticket, &watch.ticket) {
        return None;
    }
    Some(notice)
}
