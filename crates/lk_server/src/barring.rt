//! Reports datagrams that the server dropped: clients' requests that only an admin may make, and Wants of numbers that
//! never joined.

ghost use Rattle.std.specs.Prelude.{◌≡◌};

use crate::server::Server;
use lk_address_book::admins::client_in;
use lk_server_replica::ServerReplica;
use lk_transport::socket::DatagramSocket;
use log::Log;

impl<R: ServerReplica, S: DatagramSocket + Drop> Server<R, S> {
    // Counts a datagram that was dropped if it is a Want of a number that never joined, or an administrative request of
    // a client that is no admin.
    pub(crate) fn note_dropped<L: Log>(&mut self, datagram: &[u8], log: &L)
        ensures { self.new ≡ self.old }
    {
        if self.post.is_unowed(datagram) {
            self.ignored.count_unowed(log);
        }
        if self.post.bars(datagram) {
            self.note_barred(datagram, log);
        }
    }

    // Counts an administrative request of a client that is no admin, and records an event of it: once in 600 periods at
    // most.
    fn note_barred<L: Log>(&mut self, datagram: &[u8], log: &L)
        ensures { self.new ≡ self.old }
    {
        self.ignored.count_barred(log);
        if self.is_minute_past(self.barred_noted) {
            self.barred_noted = Some(self.now());
            self.events.barred = Some(client_in(datagram));
        }
    }
}
