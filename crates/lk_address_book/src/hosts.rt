//! The addresses at which nodes live.

ghost use Rattle.std.specs.Prelude.{◌≡◌, ℕ, Some, None};
ghost use Rattle.lk_address_book.specs.Hosts.{host_in, host_of};

use lk_types::NodeNo;
use std::net::{IpAddr, Ipv4Addr};

/// The addresses at which nodes live: all at 127.0.0.1, or each as a list says.
#[derive(Drop)]
pub enum Hosts {
    /// All nodes run on this machine.
    Local,
    /// The address of each listed node. The first line of a node counts; a node without a line has no known host.
    Listed(Vec<(NodeNo, IpAddr)>),
}

/// What was found in the file of the hosts when it was read again.
#[derive(Drop)]
pub enum HostNews {
    /// Nothing: it was not read, or it still cannot be used.
    Nothing,
    /// Nodes live here now.
    Read(Hosts),
    /// It cannot be read or is invalid.
    Unusable,
}

// Returns the address in the first line of a node, if it has one.
fn address_in(lines: &[(NodeNo, IpAddr)], node: NodeNo) -> Option<IpAddr>
    ensures { result ≡ host_in lines.now node }
{
    for (other, address) in lines {
        if *other == node {
            return Some(*address);
        }
    }
    None
}

impl Hosts {
    /// Returns the address of a node, if it is known.
    pub fn address(&self, node: NodeNo) -> Option<IpAddr>
        ensures { result ≡ host_of self.now node }
    {
        match self {
            Hosts::Local => Some(IpAddr::V4(Ipv4Addr::LOCALHOST)),
            Hosts::Listed(lines) => address_in(lines, node),
        }
    }

    /// Whether these are the same lines, or both are of one machine: to tell what is new, which no clause states.
    pub fn is_same(&self, other: &Hosts) -> bool {
        match (self, other) {
            (Hosts::Local, Hosts::Local) => true,
            (Hosts::Listed(lines), Hosts::Listed(others)) => lines.as_slice() == others.as_slice(),
            _ => false,
        }
    }
}
