//! What a node knows of others: where the nodes live, the keys that identify a sender, and which clients are admins.

use crate::admins::Admins;
use crate::hosts::Hosts;
use lk_auth::{DIGEST, Keys, Masters, Seals};
use lk_types::NodeNo;

/// Where the nodes live, the keys that identify a sender, and which clients are admins.
#[derive(Drop)]
pub struct Network {
    pub hosts: Hosts,
    pub seals: Seals,
    pub admins: Admins,
}

impl Network {
    /// Creates the network of nodes that all run on 127.0.0.1 without keys. The digest of the genesis is zeros, and
    /// each client is an admin.
    pub fn local(cluster: u64, node: NodeNo) -> Network {
        Network {
            hosts: Hosts::Local,
            seals: Seals {
                cluster,
                genesis: [0; DIGEST],
                node: node.get(),
                nodes: Keys::NoKey,
                clients: Masters::none(),
            },
            admins: Admins::Everyone,
        }
    }
}
