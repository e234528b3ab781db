//! Which numbers have joined: without a key the server drops the Wants of others.

ghost use Rattle.std.specs.Prelude.{◌≡◌};

use crate::server::Server;
use lk_server_replica::ServerReplica;
use lk_transport::socket::DatagramSocket;

impl<R: ServerReplica, S: DatagramSocket + Drop> Server<R, S> {
    /// Notes the greatest number that has joined, as its replica has executed it: in the next turn Wants of greater
    /// numbers are dropped where the nodes have no key. A newcomer asks again, and is answered once it has joined.
    pub fn note_joined(&mut self)
        ensures { self.new ≡ record self.old {
          addresses = record self.old.addresses { joined = R.greatest self.old.replica };
        } }
    {
        self.post.set_joined(self.replica.greatest());
    }
}
