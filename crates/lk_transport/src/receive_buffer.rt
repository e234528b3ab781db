//! The buffer into which a socket receives.

ghost use Rattle.std.specs.Prelude.{◌≡◌, ◌⊎◌, Some, None, true, false, IfSome, IsSome, IsNone};
ghost use Rattle.lk_transport.specs.ReceiveBuffers.{first_asked, first_reported, first_watched};
ghost use Rattle.lk_transport.specs.Streams.{Receives, next_of};

use crate::received_probe::ReceivedProbe;
use crate::received_watch::ReceivedWatch;
use crate::socket::DatagramSocket;
use lk_auth::OVERHEAD;
use lk_probe::reported::Reported;
use lk_types::limits::MAX_DATAGRAM;
use std::marker::Model;
use std::net::SocketAddr;

/// Holds the latest datagram, the first probe and the first watch that wait for an answer, and the first report that
/// waits to be read. One buffer serves all receives of a socket.
#[derive(Drop)]
pub struct ReceiveBuffer {
    // one byte longer than the longest frame, so a truncated datagram fails to parse
    buffer: [u8; MAX_DATAGRAM + OVERHEAD + 1],
    // the length of the latest datagram and its source, if one arrived
    last: Option<(usize, SocketAddr)>,
    asked: Option<ReceivedProbe>,
    reported: Option<Reported>,
    watched: Option<ReceivedWatch>,
}

impl Model for ReceiveBuffer {
    ghost use Rattle.std.specs.Prelude.{◌≤◌, IfSome};
    ghost use Rattle.lk_transport.specs.ReceiveBuffers.{BufferValue};
    ghost use Rattle.lk_transport.specs.Streams.{heard_in};

    ghost Value = { BufferValue };

    ghost invariant = { λ e. IfSome e.last (λ l. l.0 ≤ 16421) };

    ghost view = { λ e. record {
      last = heard_in e.buffer e.last;
      asked = e.asked;
      reported = e.reported;
      watched = e.watched;
    } };
}

impl ReceiveBuffer {
    /// An empty buffer.
    pub fn new() -> ReceiveBuffer
        ensures { result ≡ record { last = None; asked = None; reported = None; watched = None } }
    {
        ReceiveBuffer {
            buffer: [0; MAX_DATAGRAM + OVERHEAD + 1],
            last: None,
            asked: None,
            reported: None,
            watched: None,
        }
    }

    /// Receives the next datagram of a socket: exactly its bytes, or nothing if none arrived within the socket's
    /// timeout or the receive failed.
    pub fn receive<S: DatagramSocket>(&mut self, socket: &mut S)
        ensures comes { S.is_observable → Receives self.new.last (S.incoming socket.old) (S.incoming socket.new) }
        ensures next { S.is_observable → next_of S.incoming socket.old ≡ self.new.last }
        ensures asked { self.new.asked ≡ self.old.asked }
        ensures reported { self.new.reported ≡ self.old.reported }
        ensures watched { self.new.watched ≡ self.old.watched }
        ensures unchanged { S.sent socket.new ≡ S.sent socket.old }
        ensures spares { S.failures socket.new ≡ S.failures socket.old }
    {
        self.last = socket.receive(&mut self.buffer);
    }

    /// Receives a datagram that is already waiting, without waiting for one; nothing if there is none.
    pub fn try_receive<S: DatagramSocket>(&mut self, socket: &mut S)
        ensures comes { S.is_observable → Receives self.new.last (S.incoming socket.old) (S.incoming socket.new) }
        ensures next { S.is_observable → next_of S.incoming socket.old ≡ self.new.last }
        ensures asked { self.new.asked ≡ self.old.asked }
        ensures reported { self.new.reported ≡ self.old.reported }
        ensures watched { self.new.watched ≡ self.old.watched }
        ensures unchanged { S.sent socket.new ≡ S.sent socket.old }
        ensures spares { S.failures socket.new ≡ S.failures socket.old }
    {
        self.last = socket.try_receive(&mut self.buffer);
    }

    /// Returns the bytes and the source of the latest datagram, or `None` if the last receive got nothing.
    pub fn latest(&self) -> Option<(&[u8], SocketAddr)>
        ensures some { IfSome result (λ r. self.now.last ≡ Some (r.1, r.0.now)) }
        ensures none { IsNone result → self.now.last ≡ None }
    {
        let Some((length, from)) = self.last else {
            return None;
        };
        Some((&self.buffer[..length], from))
    }

    /// Keeps a probe, if given one, to answer later. If one is kept already, the new one is dropped.
    pub fn keep_probe(&mut self, asked: Option<ReceivedProbe>)
        ensures { self.new ≡ record self.old { asked = first_asked self.old.asked asked } }
    {
        if self.asked.is_none() {
            self.asked = asked;
        }
    }

    /// Keeps a report, if given one, to read later. If one is kept already, the new one is dropped.
    pub fn keep_report(&mut self, reported: Option<Reported>)
        ensures { self.new ≡ record self.old { reported = first_reported self.old.reported reported } }
    {
        if self.reported.is_none() {
            self.reported = reported;
        }
    }

    /// Keeps a watch, if given one, to answer later. If one is kept already, the new one is dropped.
    pub fn keep_watch(&mut self, watched: Option<ReceivedWatch>)
        ensures { self.new ≡ record self.old { watched = first_watched self.old.watched watched } }
    {
        if self.watched.is_none() {
            self.watched = watched;
        }
    }

    /// Whether it keeps a probe, a report or a watch.
    pub fn has_kept(&self) -> bool
        ensures some { result ≡ true → IsSome self.now.asked ⊎ IsSome self.now.reported ⊎ IsSome self.now.watched }
        ensures none { result ≡ false → (self.now.asked ≡ None) × (self.now.reported ≡ None)
            × (self.now.watched ≡ None) }
    {
        self.asked.is_some() || self.reported.is_some() || self.watched.is_some()
    }

    /// Removes and returns the kept report.
    pub fn pop_reported(&mut self) -> Option<Reported>
        ensures value { result ≡ self.old.reported }
        ensures others { self.new ≡ record self.old { reported = None } }
    {
        self.reported.take()
    }

    /// Removes and returns the kept probe.
    pub fn pop_probe(&mut self) -> Option<ReceivedProbe>
        ensures value { result ≡ self.old.asked }
        ensures others { self.new ≡ record self.old { asked = None } }
    {
        self.asked.take()
    }

    /// Removes and returns the kept watch.
    pub fn pop_watch(&mut self) -> Option<ReceivedWatch>
        ensures value { result ≡ self.old.watched }
        ensures others { self.new ≡ record self.old { watched = None } }
    {
        self.watched.take()
    }
}
