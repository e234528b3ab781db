//! Which frames the server tells of that it cannot open: a node has another key or genesis, or is of another cluster.

ghost use Rattle.std.specs.Prelude.{◌≡◌, ◌≢◌, Some, None, IfSome};
ghost use Rattle.lk_transport.specs.Unopened.{unopened};
ghost use Rattle.lk_address_book.specs.declared.arrival.Arrival.TheVariants.{Bad};

use crate::server::Server;
use lk_address_book::arrival::Arrival;
use lk_server_replica::ServerReplica;
use lk_transport::socket::DatagramSocket;
use lk_transport::unopened::UnopenedFrame;
use std::net::SocketAddr;

impl<R: ServerReplica, S: DatagramSocket + Drop> Server<R, S> {
    // Returns what is to be told of a frame that brought this, if it is a node's and did not open: once in 600 periods
    // at most, whatever comes.
    pub(crate) fn unopened_news(
        &self,
        arrival: &Arrival,
        from: SocketAddr,
        frame: &[u8],
    ) -> Option<UnopenedFrame>
        ensures read { arrival.now ≢ Bad → result ≡ None }
        ensures told { IfSome result (λ u. unopened self.now.addresses.seals from frame.now ≡ Some u) }
    {
        match arrival {
            Arrival::Bad if self.is_minute_past(self.unopened_warned) => {
                self.post.unopened(from, frame)
            }
            _ => None,
        }
    }
}
