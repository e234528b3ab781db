//! Where a client sends its requests, and the keys that identify a sender.

ghost use Rattle.std.specs.Net.Socket.{socket_port};
ghost use Rattle.std.specs.Prelude.{◌≡◌, ◌↔◌, IfSome, IsNone, IsTrue};
ghost use Rattle.lk_client.specs.Questions.{IsAt, destination_place};

use lk_address_book::hosts::Hosts;
use lk_auth::{AskerSeals, Keys};
use lk_types::{Member, Port};
use std::net::{IpAddr, Ipv4Addr, SocketAddr};

/// A port of an address, at which a node is asked.
#[derive(Clone, Copy, PartialEq, Eq)]
pub struct Place {
    pub address: IpAddr,
    pub port: Port,
}

impl Place {
    /// Returns the place of a source of datagrams. `None` for port 0, from which none comes.
    pub fn of(source: SocketAddr) -> Option<Place>
        ensures some { IfSome result (λ place. IsAt (place.address, place.port) source) }
        ensures none { IsNone result → socket_port source ≡ 0 }
    {
        Some(Place {
            address: source.ip(),
            port: Port::of(source.port())?,
        })
    }

    /// Whether a datagram from that source comes from this place.
    pub fn is_source(&self, source: SocketAddr) -> bool
        ensures { IsTrue result ↔ IsAt (self.now.address, self.now.port) source }
    {
        self.address == source.ip() && self.port.get() == source.port()
    }
}

/// The address of the node that is asked first, the addresses of the others, and the keys.
#[derive(Drop)]
pub struct Destination {
    pub address: IpAddr,
    pub hosts: Hosts,
    pub seals: AskerSeals,
}

impl Destination {
    /// Returns the destination of a cluster whose nodes all live at 127.0.0.1, without keys.
    pub fn local(cluster: u64) -> Destination {
        Destination {
            address: IpAddr::V4(Ipv4Addr::LOCALHOST),
            hosts: Hosts::Local,
            seals: AskerSeals {
                cluster,
                keys: Keys::NoKey,
            },
        }
    }

    /// Returns where to ask a member: at its port, of its own address or, if that is not known, of that of the node
    /// that was asked first.
    pub fn place_of(&self, member: &Member) -> Place
        ensures { result ≡ destination_place self.now member.now }
    {
        Place {
            address: self.hosts.address(member.node).unwrap_or(self.address),
            port: member.port,
        }
    }
}
