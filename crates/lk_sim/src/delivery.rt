// Events that give one input to a node: a tick, a nudge, a datagram that was sent, or bytes that no node has sent.
ghost use Rattle.std.specs.Prelude.{◌≡◌, ◌⊎◌, Some, IfOk, IfErr, OnOk, OnErr};
ghost use Rattle.lk_agreement_laws.specs.Datagrams.{Datagram as DatagramValue};
ghost use Rattle.lk_agreement_laws.specs.declared.party.Party.TheVariants as party;
ghost use Rattle.lk_wire.specs.Shown.{shown_content};
ghost use Rattle.lk_messages.specs.declared.message.Content.TheVariants as content;
ghost use Rattle.lk_node.specs.Histories.{RequestValue};
ghost use Rattle.lk_replica.specs.Behaviours.{disks_by};
ghost use Rattle.lk_sim.specs.Events.{IsExecuted, IsInjected, IsNotInjected, IsRefused};
ghost use Rattle.lk_sim.specs.Heard.{IsRequestIn, IsForged};
ghost use Rattle.lk_sim.specs.Refusals.{datagram_at, HasRoom, NoStep, NoDelivery, MayInject};
ghost use Rattle.lk_sim.specs.Rooms.{HasNoteRoom};
ghost use Rattle.lk_sim_nodes.specs.SimNodes.{IsUpAt};
ghost use Rattle.lk_sim.specs.Worlds.{PartsKeepInvariant, world_state_of};
ghost use Rattle.lk_sim.specs.declared.event.Event.TheVariants as event;

use crate::datagrams::{datagram, has_room};
use crate::giving::give;
use crate::world_parts::WorldParts;
use lk_agreement_laws::Party;
use lk_node_interface::{Input, Note, NudgeReason};
use lk_replica::MemoryReplica;
use lk_sim_nodes::{Refused, find_up};
use lk_types::{NoMemory, NodeNo, Request};
use lk_wire::{ContentRef, Datagram};

// Returns the place of the node in `sim_nodes`, if it is up and the world has room for what it sends.
fn find_ready<R: MemoryReplica>(parts: &WorldParts<R>, number: NodeNo) -> Result<usize, Refused>
    ensures ok { IfOk result (λ i. IsUpAt parts.now.sim_nodes.items i number × HasRoom parts.now.sent.items) }
    ensures err { IfErr result (λ e. NoStep parts.now.sim_nodes.items parts.now.sent.items number e) }
{
    let i = find_up(&parts.sim_nodes, number)?;
    if !has_room(&parts.sent) {
        return Err(Refused::WorldFull);
    }
    Ok(i)
}

/// Gives a tick to a node that is up.
pub fn tick<R: MemoryReplica>(parts: &mut WorldParts<R>, number: NodeNo) -> Result<(), Refused>
    requires { PartsKeepInvariant R.Shows (disks_by R.behaves) R.meaning parts.old }
    ensures holds { PartsKeepInvariant R.Shows (disks_by R.behaves) R.meaning parts.new }
    ensures ok { OnOk result (IsExecuted R.behaves (world_state_of parts.old) (event.Tick number)
        (world_state_of parts.new)) }
    ensures err { IfErr result
        (λ e. IsRefused R.behaves (world_state_of parts.old) (event.Tick number) e (world_state_of parts.new)) }
{
    let i = find_ready(parts, number)?;
    give(parts, i, Input::Tick, None)?;
    Ok(())
}

/// Nudges a node that is up, for this reason.
pub fn nudge<R: MemoryReplica>(
    parts: &mut WorldParts<R>,
    number: NodeNo,
    reason: NudgeReason,
) -> Result<(), Refused>
    requires { PartsKeepInvariant R.Shows (disks_by R.behaves) R.meaning parts.old }
    ensures holds { PartsKeepInvariant R.Shows (disks_by R.behaves) R.meaning parts.new }
    ensures ok { OnOk result
        (IsExecuted R.behaves (world_state_of parts.old) (event.Nudge number reason) (world_state_of parts.new)) }
    ensures err { IfErr result
        (λ e. IsRefused R.behaves (world_state_of parts.old) (event.Nudge number reason) e (world_state_of parts.new)) }
{
    let i = find_ready(parts, number)?;
    give(parts, i, Input::Nudge(reason), None)?;
    Ok(())
}

// Returns the node to which the datagram at place `k` is addressed. One to a client is rejected, as the world has no
// clients that receive.
fn bound<R: MemoryReplica>(parts: &WorldParts<R>, k: usize) -> Result<NodeNo, Refused>
    ensures ok { IfOk result
        (λ n. (d : DatagramValue) × (datagram_at parts.now.sent.items k ≡ Some d) × (d.to ≡ party.Node n)) }
    ensures err { IfErr result
        (λ e. NoDelivery parts.now.sim_nodes.items parts.now.sent.items (datagram_at parts.now.sent.items k) e) }
{
    let Some(found) = datagram(&parts.sent, k) else {
        return Err(Refused::NoSuchDatagram);
    };
    match found.to {
        Party::Node(number) => Ok(number),
        Party::Client(_) => Err(Refused::NoSuchDatagram),
    }
}

// Copies the bytes of the datagram at place `k`, as the step appends to the list that holds them.
fn bytes_of<R: MemoryReplica>(parts: &WorldParts<R>, k: usize) -> Result<Vec<u8>, NoMemory>
    requires { (d : DatagramValue) × (datagram_at parts.now.sent.items k ≡ Some d) }
    ensures { IfOk result (λ b. (d : DatagramValue)
        × (datagram_at parts.now.sent.items k ≡ Some d) × (b.items ≡ d.bytes)) }
{
    let Some(found) = datagram(&parts.sent, k) else {
        unreachable!()
    };
    Ok(found.bytes.to_vec(parts.alloc)?)
}

/// Delivers the datagram at place `k` to the node to which it is addressed. It stays in the list, and may be delivered
/// again.
pub fn deliver<R: MemoryReplica>(parts: &mut WorldParts<R>, k: usize) -> Result<(), Refused>
    requires { PartsKeepInvariant R.Shows (disks_by R.behaves) R.meaning parts.old }
    ensures holds { PartsKeepInvariant R.Shows (disks_by R.behaves) R.meaning parts.new }
    ensures ok { OnOk result (IsExecuted R.behaves (world_state_of parts.old) (event.Deliver k)
        (world_state_of parts.new)) }
    ensures err { IfErr result
        (λ e. IsRefused R.behaves (world_state_of parts.old) (event.Deliver k) e (world_state_of parts.new)) }
{
    let number = bound(parts, k)?;
    let i = find_ready(parts, number)?;
    let bytes = bytes_of(parts, k)?;
    give(parts, i, Input::Datagram(Datagram::of(&bytes)), None)?;
    Ok(())
}

// Returns the request of a client's message. A node's message is rejected as `Forged`.
fn request_of(said: &ContentRef<'_>) -> Result<Request, Refused>
    ensures ok { IfOk result (λ r. shown_content said.now ≡ content.Request r) }
    ensures err { IfErr result
        (λ e. (e ≡ Refused.Forged) × ((r : RequestValue) → shown_content said.now ≡ content.Request r → ⊥)) }
{
    match said {
        ContentRef::Request(request) => Ok(request.request()),
        ContentRef::Node(..) => Err(Refused::Forged),
    }
}

// Returns the client's request in the bytes, or `None` if they do not parse. A node's datagram is rejected as `Forged`.
fn request_in(viewed: &Datagram<'_>) -> Result<Option<Request>, Refused>
    ensures ok { IfOk result (λ o. IsRequestIn viewed.now o) }
    ensures err { IfErr result (λ e. (e ≡ Refused.Forged) × IsForged viewed.now) }
{
    let Ok(message) = viewed.message() else {
        return Ok(None);
    };
    let request = request_of(&message.content)?;
    Ok(Some(request))
}

// Reserves room for the note of a request. Without a request it takes no memory.
fn reserve_notes(trace: &mut Vec<Note>, asked: &Option<Request>) -> Result<(), NoMemory>
    ensures same { trace.new.items ≡ trace.old.items }
    ensures room { OnOk result (HasNoteRoom asked.now trace.new) }
    ensures memory { OnErr result ((r : RequestValue) × (asked.now ≡ Some r)) }
{
    if asked.is_some() {
        trace.reserve(1)?;
    }
    Ok(())
}

/// Gives bytes that no node has sent to a node, and notes a request in them as asked. Room for that note is reserved
/// before the node steps, as a step cannot be undone.
pub fn inject<R: MemoryReplica>(
    parts: &mut WorldParts<R>,
    number: NodeNo,
    bytes: &[u8],
) -> Result<(), Refused>
    requires { PartsKeepInvariant R.Shows (disks_by R.behaves) R.meaning parts.old }
    ensures holds { PartsKeepInvariant R.Shows (disks_by R.behaves) R.meaning parts.new }
    ensures ok { OnOk result
        (MayInject (world_state_of parts.old) number bytes.now
        × IsInjected R.behaves (world_state_of parts.old) (world_state_of parts.new) number bytes.now) }
    ensures err { IfErr result
        (λ e. IsNotInjected R.behaves (world_state_of parts.old) number bytes.now e (world_state_of parts.new)) }
{
    let i = find_up(&parts.sim_nodes, number)?;
    let viewed = Datagram::of(bytes);
    let asked = request_in(&viewed)?;
    if !has_room(&parts.sent) {
        return Err(Refused::WorldFull);
    }
    reserve_notes(&mut parts.trace, &asked)?;
    give(parts, i, Input::Datagram(viewed), asked)?;
    Ok(())
}
