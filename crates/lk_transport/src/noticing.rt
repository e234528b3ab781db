//! Sends notices to the clients that wait for names.

ghost use Rattle.std.specs.Prelude.{◌≡◌, ◌⊎◌};
ghost use Rattle.lk_transport.specs.Askers.{SendsTo};
ghost use Rattle.lk_transport.specs.Posts.{Loses, frame_of, keys_for, send_state_of};
ghost use Rattle.lk_transport.specs.Watches.{SendsNotice, notice_by};
ghost use Rattle.lk_watch.specs.Grammar.{SpellsNotice};

use crate::post::{SocketPost, framed};
use crate::socket::DatagramSocket;
use lk_node_interface::{SendFault, To};
use lk_watch::{Envelope, WatchDatagram};
use std::net::SocketAddr;

impl<S: DatagramSocket + Drop> SocketPost<S> {
    // Returns the notice of this node by an envelope.
    fn notice_of(&self, envelope: &Envelope) -> WatchDatagram
        ensures { SpellsNotice (notice_by self.now.addresses.seals self.now.node envelope.now) result }
    {
        let cluster = self.addresses.seals().cluster;
        let notice = envelope.notice(cluster, self.node);
        notice.datagram()
    }

    // Sends a notice in these bytes to an address, framed for a client.
    fn send_framed(
        &mut self,
        to: &To,
        address: SocketAddr,
        datagram: &[u8],
    ) -> Result<(), SendFault>
        ensures sends { SendsTo S.is_observable address (frame_of self.old.addresses.seals to.now datagram.now)
            (send_state_of self.old) (send_state_of self.new)
            ⊎ Loses S.is_observable (keys_for self.old.addresses.seals to.now) (send_state_of self.old)
            (send_state_of self.new) }
        ensures still { S.is_observable → self.new.incoming ≡ self.old.incoming }
        ensures others { self.new
            ≡ record self.old {
              sent = self.new.sent;
              socket_failures = self.new.socket_failures;
              incoming = self.new.incoming;
            } }
    {
        let Ok(framed) = framed(self.addresses.seals(), to, datagram, &mut self.frame) else {
            return Err(SendFault);
        };
        self.socket.send_to(address, framed)
    }

    /// Sends the notice of an envelope to its address, framed for the client of the watch that it answers. A failure is
    /// not counted in the group. It changes no address, nor where replies to that client go.
    pub fn send_notice(&mut self, envelope: &Envelope) -> Result<(), SendFault>
        ensures sends { SendsNotice S.is_observable self.old.addresses.seals self.old.node envelope.now
            (send_state_of self.old) (send_state_of self.new) }
        ensures still { S.is_observable → self.new.incoming ≡ self.old.incoming }
        ensures others { self.new
            ≡ record self.old {
              sent = self.new.sent;
              socket_failures = self.new.socket_failures;
              incoming = self.new.incoming;
            } }
    {
        let to = To::Client(envelope.ticket.client);
        let datagram = self.notice_of(envelope);
        self.send_framed(&to, envelope.to, datagram.as_slice())
    }
}
