//! A platform in memory, whose files and sockets are known: what a plan names there is opened, and nothing else.
ghost use Rattle.std.specs.Prelude.{◌≡◌};
ghost use Rattle.lk_memory_disk.specs.Memory.{empty};

use lk_address_book::admins::Admins;
use lk_memory_disk::MemoryDisk;
use lk_memory_socket::MemorySocket;
use lk_node_setup::network::NetworkOptions;
use lk_node_setup::platform::Platform;
use lk_node_setup::resources::{NodePlan, open_resources};
use lk_node_setup::text_files::TextFiles;
use lk_pacing::pace::Pace;
use lk_program_fault::ProgramFault;
use lk_store_format::Header;
use lk_transport::socket::local;
use lk_types::{Genesis, NodeNo, Port};
use lk_word_parsers::genesis::read_genesis;
use std::alloc::Global;
use std::io;
use std::io::Write;
use std::net::SocketAddr;
use std::test::Fail;
use std::time::{Clock, Duration};

// One file, one folder whose two files are empty, and one free address. Its clock stands still.
#[derive(Drop)]
struct MemoryPlatform<'a> {
    path: &'a str,
    text: &'a [u8],
    folder: &'a str,
    address: SocketAddr,
}

impl<'a> Clock for MemoryPlatform<'a> {
    fn monotonic(&self) -> io::Result<Duration> {
        Ok(Duration::ZERO)
    }

    fn since_1970(&self) -> io::Result<Duration> {
        Ok(Duration::ZERO)
    }
}

impl<'a> TextFiles for MemoryPlatform<'a> {
    ghost is_text = { λ p path bytes. (path ≡ p.path.now) × (bytes ≡ p.text.now) };

    fn read_file<E: Write>(
        &self,
        alloc: Global,
        path: &str,
        _is_secret: bool,
        _err: &mut E,
    ) -> Result<Vec<u8>, ProgramFault> {
        if path != self.path {
            return Err(ProgramFault::CannotOpen);
        }
        Ok(self.text.to_vec(alloc)?)
    }
}

impl<'a> Platform<MemoryDisk, MemorySocket> for MemoryPlatform<'a> {
    type Lock = u8;

    ghost is_store = { λ p folder sums device. (folder ≡ p.folder.now) × (device ≡ empty) };

    ghost is_bound = { λ p address socket. address ≡ p.address };

    fn open_socket<E: Write>(
        &self,
        alloc: Global,
        address: SocketAddr,
        _sends_bundles: bool,
        _err: &mut E,
    ) -> Result<MemorySocket, ProgramFault> {
        if address != self.address {
            return Err(ProgramFault::CannotOpen);
        }
        Ok(MemorySocket::new(alloc, address.port()))
    }

    // Its files have no store.
    fn open_store<E: Write>(
        &self,
        alloc: Global,
        folder: &str,
        existing: bool,
        _sums: bool,
        _err: &mut E,
    ) -> Result<(MemoryDisk, u8), ProgramFault> {
        if existing || folder != self.folder {
            return Err(ProgramFault::CannotOpen);
        }
        Ok((MemoryDisk::new(alloc), 0))
    }
}

// The plan of node 1, which is alone, at this port and in this folder, with the hosts of this file.
fn plan_of<'a>(port: u16, folder: &'a str, hosts: &'a str) -> Option<NodePlan<'a>> {
    let genesis: Genesis = read_genesis(b"5,2,1:7001")?;
    Some(NodePlan {
        header: Header::new(NodeNo::of(1)?, genesis),
        port: Port::of(port)?,
        pace: Pace::Datagrams,
        folder,
        existing: false,
        sums: false,
        bundles: false,
        options: NetworkOptions {
            hosts: Some(hosts),
            bind: None,
            key: None,
            client_key: None,
            admins: Admins::Everyone,
        },
    })
}

// Whether the plan opens on the platform.
fn opens<W: Write>(alloc: Global, plan: &NodePlan<'_>, err: &mut W) -> bool {
    let platform = MemoryPlatform {
        path: "hosts",
        text: b"1 127.0.0.1\n",
        folder: "store",
        address: local(7001),
    };
    open_resources::<MemoryDisk, MemorySocket, _, W>(&platform, alloc, plan, err).is_ok()
}

#[test]
fn a_plan_opens_what_it_names(rt: HostRuntime) -> Result<(), Fail> {
    let alloc = rt.alloc();
    let mut err = Vec::new(alloc);
    for (port, folder, hosts, is_open) in [
        (7001, "store", "hosts", true),
        (7001, "stores", "hosts", false),
        (7001, "store", "host", false),
        (7002, "store", "hosts", false),
    ] {
        let plan = plan_of(port, folder, hosts).ok_or("plan")?;
        assert_eq!(rt; opens(alloc, &plan, &mut err), is_open);
    }
    let mut plan = plan_of(7001, "store", "hosts").ok_or("plan")?;
    plan.existing = true;
    assert_eq!(rt; opens(alloc, &plan, &mut err), false);
    Ok(())
}
