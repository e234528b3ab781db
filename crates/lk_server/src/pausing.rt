//! Pauses before a sync, so that a datagram that arrives in the pause shares it.

ghost use Rattle.std.specs.Prelude.{◌≡◌, ◌↔◌, ◌+◌, None, true, IsTrue};
ghost use Rattle.lk_server.specs.Pauses.{IsPauseDue, ReceivesAfterPause, ReceivesOrPauses};
ghost use Rattle.lk_transport.specs.Streams.{first_of};

use crate::server::Server;
use lk_pacing::sync_pause::SyncPause;
use lk_pacing::tick_timer::TickTimer;
use lk_replica::Group;
use lk_server_replica::ServerReplica;
use lk_transport::post::SocketPost;
use lk_transport::receive_buffer::ReceiveBuffer;
use lk_transport::socket::DatagramSocket;
use std::time::{Clock, Instant};

// Sleeps for a pause, if one is due before the sync of this group. Returns whether it did.
fn pauses<C: Clock>(pause: &mut SyncPause, tick_timer: &TickTimer<C>, group: &Group) -> bool
    ensures due { IsTrue result ↔ IsPauseDue pause.old group.now }
    // The group then has one pause fewer left.
    ensures fewer { result ≡ true → pause.new.left + 1 ≡ pause.old.left }
    ensures others { pause.new ≡ record pause.old { left = pause.new.left } }
{
    if !group.needs_sync() {
        return false;
    }
    let Some(time) = pause.next_pause(group.envelopes().len()) else {
        return false;
    };
    tick_timer.sleep(time);
    true
}

// Sleeps for a pause, if one is due before the group's sync, and then receives a datagram that is waiting. If none is
// due, nothing is received.
fn receive_after_pause<S: DatagramSocket + Drop, C: Clock>(
    post: &mut SocketPost<S>,
    pause: &mut SyncPause,
    buffer: &mut ReceiveBuffer,
    tick_timer: &TickTimer<C>,
    group: &Group,
)
    // A datagram that arrived in the pause is in the buffer.
    ensures comes { S.is_observable → buffer.old.last ≡ None
        → ReceivesAfterPause (IsPauseDue pause.old group.now) buffer.new.last post.old.incoming post.new.incoming }
    // Without a pause the buffer holds what it held.
    ensures skips { (IsPauseDue pause.old group.now → ⊥) → (buffer.new ≡ buffer.old) × (post.new ≡ post.old) }
    ensures pauses { IsPauseDue pause.old group.now → pause.new.left + 1 ≡ pause.old.left }
    ensures asked { buffer.new.asked ≡ buffer.old.asked }
    ensures reported { buffer.new.reported ≡ buffer.old.reported }
    ensures watched { buffer.new.watched ≡ buffer.old.watched }
    ensures others { post.new ≡ record post.old { incoming = post.new.incoming } }
{
    if pauses(pause, tick_timer, group) {
        post.try_receive(buffer);
    }
}

// Receives a datagram that is already waiting. If none is, it pauses if that is due before the group's sync, and
// receives one that arrived meanwhile.
pub(crate) fn receive_or_pause<S: DatagramSocket + Drop, C: Clock>(
    post: &mut SocketPost<S>,
    pause: &mut SyncPause,
    buffer: &mut ReceiveBuffer,
    tick_timer: &TickTimer<C>,
    group: &Group,
)
    // What is waiting is in the buffer; if nothing is, what a receive after the pause finds.
    ensures comes { S.is_observable
        → ReceivesOrPauses (IsPauseDue pause.old group.now) buffer.new.last post.old.incoming post.new.incoming }
    // Where none is waiting it pauses if that is due.
    ensures pauses { S.is_observable → first_of post.old.incoming ≡ None → IsPauseDue pause.old group.now
        → pause.new.left + 1 ≡ pause.old.left }
    ensures asked { buffer.new.asked ≡ buffer.old.asked }
    ensures reported { buffer.new.reported ≡ buffer.old.reported }
    ensures watched { buffer.new.watched ≡ buffer.old.watched }
    ensures others { post.new ≡ record post.old { incoming = post.new.incoming } }
{
    post.try_receive(buffer);
    if buffer.latest().is_some() {
        return;
    }
    receive_after_pause(post, pause, buffer, tick_timer, group);
}

impl<R: ServerReplica, S: DatagramSocket + Drop> Server<R, S> {
    // Records how long the end of this group took since `began`, and how many envelopes it had, if it needed a sync.
    // Later pauses depend on both. Contracts do not see pauses, so none sees a change here.
    pub(crate) fn note_sync<C: Clock>(
        &mut self,
        group: &Group,
        tick_timer: &TickTimer<C>,
        began: Option<Instant>,
    )
        ensures { self.new ≡ self.old }
    {
        if group.needs_sync() {
            let envelopes = group.envelopes().len();
            self.sync_pause.note(tick_timer.since(began), envelopes);
        }
    }
}
