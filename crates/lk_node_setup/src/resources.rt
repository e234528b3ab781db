//! Opens what a node runs on, and warns if the genesis names its port otherwise.

ghost use Rattle.std.specs.Prelude.{◌≡◌, Some, None, IfOk, IfSome, OnErr};
ghost use Rattle.lk_members.specs.Ports.{port_in};
ghost use Rattle.lk_auth.specs.Seals.{key_list};
ghost use Rattle.lk_node_setup.specs.SelfProbes.{FindsUnreached, socket_value};
ghost use Rattle.lk_node_setup.specs.Ports.{misnamed};
ghost use Rattle.lk_node_setup.specs.Opened.{AreOpenedFor, pace_with};

use crate::network::{NetworkOptions, network_of};
use crate::platform::Platform;
use crate::self_probe::unreached_port;
use lk_address_book::network::Network;
use lk_auth::{Keys, Seals};
use lk_disk::LogDisk;
use lk_pacing::pace::Pace;
use lk_program_fault::ProgramFault;
use lk_store_format::Header;
use lk_transport::socket::DatagramSocket;
use lk_types::{Member, NodeNo, Port};
use std::alloc::Global;
use std::io::Write;

/// What the command line of `locks node` asks for: the node with its genesis, its port, what its ticks go by, the
/// folder of its files, whether that must have a store, whether the store is written with sums, whether the node sends
/// bundles, and the options about other machines.
#[derive(Drop)]
pub struct NodePlan<'a> {
    pub header: Header,
    pub port: Port,
    pub pace: Pace,
    pub folder: &'a str,
    pub existing: bool,
    pub sums: bool,
    pub bundles: bool,
    pub options: NetworkOptions<'a>,
}

/// What a node runs on: the device of its store, its socket, what it knows of the machines outside, what its ticks go
/// by, and the port that the genesis names, if the node listens at another one and is not heard there.
#[derive(Drop)]
pub struct Resources<D: Drop, S: Drop> {
    pub device: D,
    pub socket: S,
    pub network: Network,
    pub pace: Pace,
    pub unreached: Option<Port>,
}

// Returns the port that the members give the node, if it is one of them.
fn named_port(members: &[Member], node: NodeNo) -> Option<Port>
    ensures { result ≡ port_in node members.now }
{
    for member in members {
        if member.node == node {
            return Some(member.port);
        }
    }
    None
}

// Warns that the node does not listen at the port that the genesis names: without a relay in between, it would send
// but not receive.
fn write_warning<E: Write>(plan: &NodePlan<'_>, named: Port, err: &mut E) {
    let (node, named, own_port) = (plan.header.node().get(), named.get(), plan.port.get());
    let _ = writeln!(
        err,
        "warning: the genesis names node {node} at port {named}, and it listens at port {own_port}"
    );
}

// Returns the port that the genesis gives the node, if it listens at another one.
fn other_port(plan: &NodePlan<'_>) -> Option<Port>
    ensures { result ≡ misnamed plan.now.header plan.now.port }
{
    let members = plan.header.genesis().members.as_slice();
    match named_port(members, plan.header.node()) {
        Some(named) if named != plan.port => Some(named),
        _ => None,
    }
}

// Probes the port that the genesis names, if the node listens at another one. Warns if the node is not heard there, and
// returns that port.
fn check_named_port<S: DatagramSocket, E: Write>(
    alloc: Global,
    plan: &NodePlan<'_>,
    network: &Network,
    socket: &mut S,
    err: &mut E,
) -> Result<Option<Port>, ProgramFault>
    ensures finds { S.is_observable
        → IfOk result (λ unreached. FindsUnreached plan.now.header network.now
        (misnamed plan.now.header plan.now.port) unreached
        (socket_value S.sent S.failures S.incoming socket.old) (socket_value S.sent S.failures S.incoming socket.new)) }
    // Where the ports agree nothing is sent and nothing received.
    ensures alike { misnamed plan.now.header plan.now.port ≡ None → socket.new ≡ socket.old }
    ensures some { IfOk result
        (λ unreached. IfSome unreached (λ port. misnamed plan.now.header plan.now.port ≡ Some port)) }
    // Where it is heard nothing is warned.
    ensures quiet { IfOk result (λ unreached. unreached ≡ None → err.new ≡ err.old) }
    ensures err { OnErr result (socket.new ≡ socket.old) }
{
    let unreached = unreached_port(alloc, socket, &plan.header, network, other_port(plan))?;
    if let Some(named) = unreached {
        write_warning(plan, named, err);
    }
    Ok(unreached)
}

// Returns what the ticks of a node with these seals go by: the clock if the nodes have a key, so that a stranger's
// payloads neither bring nor prevent ticks, or else what was asked for.
fn pace_with(seals: &Seals, asked: Pace) -> Pace
    ensures { result ≡ pace_with (key_list seals.now.nodes) asked }
{
    match &seals.nodes {
        Keys::NoKey => asked,
        _ => Pace::Clock,
    }
}

// Returns a member with a higher number at the port of this one.
fn sharer(members: &[Member], member: Member) -> Option<Member> {
    members
        .iter()
        .find(|other| member.node < other.node && other.port == member.port)
        .copied()
}

// Returns the first two members that share a port.
fn at_one_port(members: &[Member]) -> Option<(Member, Member)> {
    for member in members {
        if let Some(other) = sharer(members, *member) {
            return Some((*member, other));
        }
    }
    None
}

// Warns if two members share a port, unless a file of hosts places them on several machines.
fn warn_of_members<E: Write>(plan: &NodePlan<'_>, err: &mut E) {
    if plan.options.hosts.is_some() {
        return;
    }
    if let Some((one, other)) = at_one_port(plan.header.genesis().members.as_slice()) {
        let (one, other, port) = (one.node.get(), other.node.get(), one.port.get());
        let _ = writeln!(
            err,
            "warning: the genesis names nodes {one} and {other} at one port, {port}"
        );
    }
}

/// Opens the resources of a plan's node on a platform. The folder stays locked as long as the second value lives. On
/// failure it writes the reason and returns the fault: `CannotOpen` also if another process runs on the folder, or if
/// there should be a store and is none.
pub fn open_resources<D: LogDisk + Drop, S: DatagramSocket + Drop, P: Platform<D, S>, E: Write>(
    platform: &P,
    alloc: Global,
    plan: &NodePlan<'_>,
    err: &mut E,
) -> Result<(Resources<D, S>, P::Lock), ProgramFault>
    // They are those that the plan names.
    ensures { IfOk result (λ r. AreOpenedFor (P.is_text platform.now) (P.is_store platform.now)
        (P.is_bound platform.now) D.is_honest D.disk S.is_observable S.sent S.failures S.incoming plan.now r.0) }
{
    warn_of_members(plan, err);
    let (network, address) = network_of(
        platform,
        alloc,
        &plan.header,
        plan.port,
        &plan.options,
        err,
    )?;
    let mut socket = platform.open_socket(alloc, address, plan.bundles, err)?;
    let unreached = check_named_port(alloc, plan, &network, &mut socket, err)?;
    let (device, lock) = platform.open_store(alloc, plan.folder, plan.existing, plan.sums, err)?;
    let pace = pace_with(&network.seals, plan.pace);
    let resources = Resources {
        device,
        socket,
        network,
        pace,
        unreached,
    };
    Ok((resources, lock))
}
