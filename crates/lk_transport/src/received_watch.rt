//! Watches that arrive at a server. They are not part of the protocol: the server answers, and no replica gets one.

ghost use Rattle.std.specs.Prelude.{◌≡◌};
ghost use Rattle.lk_auth.specs.Seals.{heard};
ghost use Rattle.lk_transport.specs.Watches.{BringsWatch};

use lk_auth::Seals;
use lk_watch::Watch;
use std::net::SocketAddr;

/// A watch that a node is to answer, and its source.
#[derive(Drop)]
pub struct ReceivedWatch {
    pub from: SocketAddr,
    pub watch: Watch,
}

impl ReceivedWatch {
    /// Parses the watch in a datagram, which was opened from a frame that arrived from an address. `None` if it is no
    /// watch, or is of another cluster.
    pub fn by(
        seals: &Seals,
        from: SocketAddr,
        frame: &[u8],
        datagram: &[u8],
    ) -> Option<ReceivedWatch>
        requires { datagram.now ≡ heard seals.now frame.now }
        ensures { BringsWatch seals.now (from, frame.now) result }
    {
        let Some(watch) = Watch::read(datagram) else {
            return None;
        };
        if watch.cluster != seals.cluster {
            return None;
        }
        Some(ReceivedWatch { from, watch })
    }
}
