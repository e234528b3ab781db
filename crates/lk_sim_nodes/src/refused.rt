ghost use Rattle.std.specs.Prelude.{◌≡◌};
ghost use Rattle.lk_sim_nodes.specs.declared.refused.Refused.TheVariants.{WorldMemory as memory};

use lk_types::NoMemory;
use thiserror::Error;

/// Why an event was rejected. If several reasons apply, it is the smallest number, and `WorldMemory` comes last.
#[derive(Clone, Copy, Debug, Error)]
pub enum Refused {
    /// The node was never started.
    #[error("no such node")]
    NoSuchNode = 16,
    #[error("the node is down")]
    NotUp = 17,
    #[error("the node is up, or was started before")]
    AlreadyUp = 18,
    /// There is no such datagram, or it is addressed to a client.
    #[error("no such datagram")]
    NoSuchDatagram = 19,
    /// The bytes are a datagram that only a node sends.
    #[error("only a node sends these bytes")]
    Forged = 20,
    /// 16 nodes were started, or there are more than 99,000 datagrams.
    #[error("the world is full")]
    WorldFull = 21,
    /// Out of memory. A node that was stepping, compacting or restarting may have stopped, and kept none of its
    /// unsynced bytes.
    #[error("no memory")]
    WorldMemory = 22,
}

impl Refused {
    ghost use Rattle.lk_sim_nodes.specs.Refusals.{refusal_number};

    /// The number of this reason: 16 to 22.
    pub fn number(self) -> u8
        ensures { result ≡ refusal_number self }
    {
        self as u8
    }
}

impl From<NoMemory> for Refused {
    ghost from_gives = { λ _ e. e ≡ memory };

    fn from(_error: NoMemory) -> Refused {
        Refused::WorldMemory
    }
}
