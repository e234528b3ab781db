//! Where nodes live, if that changes while the server runs.

ghost use Rattle.std.specs.Prelude.{◌≡◌};
ghost use Rattle.lk_server.specs.Servers.{periods};
ghost use Rattle.lk_address_book.specs.Hosts.{hosts_after};

use crate::server::Server;
use lk_address_book::hosts::{HostNews, Hosts};
use lk_server_log::{log_moved, log_unusable};
use lk_server_replica::ServerReplica;
use lk_transport::socket::DatagramSocket;
use log::Log;
use std::alloc::Global;

impl<R: ServerReplica, S: DatagramSocket + Drop> Server<R, S> {
    /// Where its memory comes from.
    pub fn alloc(&self) -> Global {
        self.alloc
    }

    /// How many periods of 100 ms have ended since its start.
    pub fn count_periods(&self) -> u64
        ensures { result ≡ periods self.now }
    {
        self.now()
    }

    // Logs that the hosts are others than before, and records an event of it, if they are.
    fn tell_hosts<L: Log>(&mut self, hosts: &Hosts, log: &L)
        ensures { self.new ≡ self.old }
    {
        if !self.post.hosts().is_same(hosts) {
            self.events.are_hosts_usable = Some(true);
            log_moved(log);
        }
    }

    /// Takes over what the file of the hosts was found to say: from now on envelopes go there. A file that cannot be
    /// used changes nothing. Logs what was found, if it is anything new, and records an event.
    pub fn take_hosts<L: Log>(&mut self, news: HostNews, log: &L)
        ensures { self.new ≡ record self.old {
          addresses = record self.old.addresses { hosts = hosts_after news self.old.addresses.hosts };
        } }
    {
        match news {
            HostNews::Nothing => {}
            HostNews::Read(hosts) => {
                self.tell_hosts(&hosts, log);
                self.post.set_hosts(hosts);
            }
            HostNews::Unusable => {
                self.events.are_hosts_usable = Some(false);
                log_unusable(log);
            }
        }
    }
}
