//! The digest of the replica's state, which a server takes after a step at each multiple of 64 positions, and reports.

ghost use Rattle.std.specs.Prelude.{◌≡◌};

use crate::server::Server;
use lk_probe::StateDigest;
use lk_server_replica::ServerReplica;
use lk_transport::socket::DatagramSocket;

impl<R: ServerReplica, S: DatagramSocket + Drop> Server<R, S> {
    /// Returns the digest that it took last of its replica's state.
    pub fn state_digest(&self) -> StateDigest
        ensures { result ≡ self.now.digest }
    {
        self.digest
    }

    // Takes the digest of its replica's state, if one is due.
    pub(crate) fn note_digest(&mut self)
        ensures keeps { R.KeepsDigest self.old.replica self.old.digest self.new.digest }
        ensures others { self.new ≡ record self.old { digest = self.new.digest } }
    {
        self.digest = self.replica.next_digest(self.digest);
    }
}
