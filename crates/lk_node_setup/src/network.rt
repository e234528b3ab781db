//! Reads, from the files that a command line names, where the nodes of a cluster live and which keys they use.

ghost use Rattle.std.specs.Prelude.{◌≡◌, Some, IfOk, OnOk, option_map};
ghost use Rattle.std.specs.Option.{option_or};
ghost use Rattle.lk_auth.specs.Seals.{key_list};
ghost use Rattle.lk_address_book.specs.Hosts.{host_of};
ghost use Rattle.lk_node_setup.specs.Guards.{IsReachedWithKey};
ghost use Rattle.lk_node_setup.specs.KeysOfNode.{AreSealsOf};
ghost use Rattle.lk_node_setup.specs.Named.{AreApart, AreHostsIn, AreKeysIn, IsDestinationOf, IsKeyFileAt, IsNetworkOf};

use crate::digest::genesis_digest;
use crate::host_file::read_hosts;
use crate::text_files::TextFiles;
use lk_address_book::admins::Admins;
use lk_address_book::hosts::Hosts;
use lk_address_book::network::Network;
use lk_auth::{AskerSeals, Keys, Masters, Seals};
use lk_client::destination::Destination;
use lk_node_files::causes::write_cause;
use lk_program_fault::ProgramFault;
use lk_store_format::Header;
use lk_types::{NodeNo, Port};
use std::alloc::Global;
use std::io::Write;
use std::net::{IpAddr, Ipv4Addr, SocketAddr};

/// The options of a command line about others: the file of the hosts; the address that a node listens on, or that a
/// client asks first; the key files of the nodes and of the clients; and which clients a node takes for admins.
#[derive(Clone, Copy)]
pub struct NetworkOptions<'a> {
    pub hosts: Option<&'a str>,
    pub bind: Option<IpAddr>,
    pub key: Option<&'a str>,
    pub client_key: Option<&'a str>,
    pub admins: Admins,
}

// Reads the file of the hosts; if none is named, all nodes are at 127.0.0.1. If the file cannot be read or is invalid,
// it writes the reason and returns `CannotOpen`.
pub(crate) fn load_hosts<T: TextFiles, E: Write>(
    files: &T,
    alloc: Global,
    path: Option<&str>,
    err: &mut E,
) -> Result<Hosts, ProgramFault>
    ensures { IfOk result (AreHostsIn (T.is_text files.now) (option_map (λ p. p.now) path.entry)) }
{
    let Some(path) = path else {
        return Ok(Hosts::Local);
    };
    let text = files.read_file(alloc, path, false, err)?;
    match read_hosts(alloc, &text)? {
        Ok(lines) => Ok(Hosts::Listed(lines)),
        Err(number) => {
            let _ = writeln!(err, "{path}: line {number} is not NODE ADDRESS");
            Err(ProgramFault::CannotOpen)
        }
    }
}

/// Reads the keys of a file. If it cannot be read or is invalid, or others than its owner have access to it, it writes
/// the reason and returns `CannotOpen`.
pub fn keys_of<T: TextFiles, E: Write>(
    files: &T,
    alloc: Global,
    path: &str,
    err: &mut E,
) -> Result<Keys, ProgramFault>
    ensures { IfOk result (λ keys. IsKeyFileAt (T.is_text files.now) path.now (key_list keys)) }
{
    let text = files.read_file(alloc, path, true, err)?;
    match Keys::read(&text) {
        Some(keys) => Ok(keys),
        None => Err(write_cause(
            path,
            "a key file has one key or two, each 64 hex digits on its own line",
            err,
        )),
    }
}

// The same; no keys if no file is named.
fn load_keys<T: TextFiles, E: Write>(
    files: &T,
    alloc: Global,
    path: Option<&str>,
    err: &mut E,
) -> Result<Keys, ProgramFault>
    ensures { IfOk result
        (λ keys. AreKeysIn (T.is_text files.now) (option_map (λ p. p.now) path.entry) (key_list keys)) }
{
    match path {
        Some(path) => keys_of(files, alloc, path, err),
        None => Ok(Keys::NoKey),
    }
}

// Writes that no address of a node is known, and returns `CannotOpen`.
fn write_no_address<E: Write>(node: NodeNo, path: &str, err: &mut E) -> ProgramFault {
    let _ = writeln!(err, "{path}: no line of node {}, and no --bind", node.get());
    ProgramFault::CannotOpen
}

// Returns the address on which a node listens: that of `--bind`, or else its address among the hosts.
fn listen_host<E: Write>(
    header: &Header,
    hosts: &Hosts,
    path: Option<&str>,
    bind: Option<IpAddr>,
    err: &mut E,
) -> Result<IpAddr, ProgramFault>
    ensures { IfOk result (λ host. option_or bind (host_of hosts.now header.now.node) ≡ Some host) }
{
    match bind.or(hosts.address(header.node())) {
        Some(host) => Ok(host),
        None => Err(write_no_address(header.node(), path.unwrap_or(""), err)),
    }
}

// Rejects a clients' key if the nodes have none, or if the nodes have the same key.
fn check_keys<E: Write>(
    nodes: &Keys,
    clients: &Keys,
    path: &str,
    err: &mut E,
) -> Result<(), ProgramFault>
    ensures { OnOk result (AreApart (key_list nodes.now) (key_list clients.now)) }
{
    if nodes.is_none() && !clients.is_none() {
        return Err(write_cause(path, "the clients' key, and the nodes have none", err));
    }
    if nodes.meets(clients) {
        return Err(write_cause(
            path,
            "a key of the --key file too; the two files must not share one",
            err,
        ));
    }
    Ok(())
}

// Reads the keys of the nodes and the masters of the clients, for a header's node, in its cluster, for its genesis.
fn load_seals<T: TextFiles, E: Write>(
    files: &T,
    alloc: Global,
    header: &Header,
    options: &NetworkOptions<'_>,
    err: &mut E,
) -> Result<Seals, ProgramFault>
    ensures whose { IfOk result (AreSealsOf header.now) }
    ensures nodes { IfOk result
        (λ s. AreKeysIn (T.is_text files.now) (option_map (λ p. p.now) options.now.key) (key_list s.nodes)) }
    ensures clients { IfOk result
        (λ s. AreKeysIn (T.is_text files.now) (option_map (λ p. p.now) options.now.client_key) (key_list s.clients)) }
    ensures apart { IfOk result (λ s. AreApart (key_list s.nodes) (key_list s.clients)) }
{
    let nodes = load_keys(files, alloc, options.key, err)?;
    let clients = load_keys(files, alloc, options.client_key, err)?;
    check_keys(&nodes, &clients, options.client_key.unwrap_or(""), err)?;
    Ok(Seals {
        cluster: header.genesis().cluster,
        genesis: genesis_digest(alloc, header)?,
        node: header.node().get(),
        nodes,
        clients: Masters::of(alloc, clients)?,
    })
}

// Rejects an address that other machines can reach if the nodes have no key, and warns if the clients have none.
fn check_reach<E: Write>(
    seals: &Seals,
    address: SocketAddr,
    err: &mut E,
) -> Result<(), ProgramFault>
    ensures { OnOk result (IsReachedWithKey seals.now address) }
{
    let host = address.ip();
    if host.is_loopback() {
        return Ok(());
    }
    if seals.nodes.is_none() {
        return Err(write_cause(address, "no key, and other machines reach it", err));
    }
    if seals.clients.is_none() {
        let _ = writeln!(
            err,
            "warning: other machines reach {host}, and clients have no key"
        );
    }
    Ok(())
}

/// Reads what the options name. Returns where the nodes live, with the keys and the admins, and the address on which
/// the node listens. On failure it writes the reason and returns `CannotOpen`; out of memory, it returns `NoMemory`.
pub fn network_of<T: TextFiles, E: Write>(
    files: &T,
    alloc: Global,
    header: &Header,
    port: Port,
    options: &NetworkOptions<'_>,
    err: &mut E,
) -> Result<(Network, SocketAddr), ProgramFault>
    // They are those of the files that the options name, and for this node; if other machines can reach the address,
    // the nodes have a key.
    ensures { IfOk result (λ r. IsNetworkOf (T.is_text files.now) header.now port options.now r.0 r.1) }
{
    let hosts = load_hosts(files, alloc, options.hosts, err)?;
    let seals = load_seals(files, alloc, header, options, err)?;
    let host = listen_host(header, &hosts, options.hosts, options.bind, err)?;
    let address = SocketAddr::from((host, port.get()));
    check_reach(&seals, address, err)?;
    let network = Network {
        hosts,
        seals,
        admins: options.admins,
    };
    Ok((network, address))
}

/// Reads what a client's options name. Returns the address that it asks first (127.0.0.1 if none is given), where the
/// nodes live, and its keys. It fails as `network_of` does.
pub fn destination_of<T: TextFiles, E: Write>(
    files: &T,
    alloc: Global,
    cluster: u64,
    options: &NetworkOptions<'_>,
    err: &mut E,
) -> Result<Destination, ProgramFault>
    ensures { IfOk result (IsDestinationOf (T.is_text files.now) cluster options.now) }
{
    let hosts = load_hosts(files, alloc, options.hosts, err)?;
    let keys = load_keys(files, alloc, options.client_key, err)?;
    Ok(Destination {
        address: options.bind.unwrap_or(IpAddr::V4(Ipv4Addr::LOCALHOST)),
        hosts,
        seals: AskerSeals { cluster, keys },
    })
}
