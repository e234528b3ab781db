// A client sends a request: its datagram is appended, addressed to a node that was started.
ghost use Rattle.std.specs.Prelude.{◌≡◌, ◌++◌, [], ◌∷◌, IfOk, IfErr, OnOk, OnErr};
ghost use Rattle.lk_messages.specs.Grammar.{Spells};
ghost use Rattle.lk_messages.specs.declared.message.Content.TheVariants as content;
ghost use Rattle.lk_replica.specs.Behaviours.{disks_by};
ghost use Rattle.lk_sim.specs.Events.{IsExecuted, IsAsked, IsRefused};
ghost use Rattle.lk_sim.specs.Worlds.{PartsKeepInvariant, world_state_of};
ghost use Rattle.lk_sim.specs.declared.event.Event.TheVariants as event;

use crate::datagrams::has_room;
use crate::world_parts::WorldParts;
use bytes::BytesMut;
use lk_agreement_laws::Party;
use lk_node_interface::Note;
use lk_replica::{Datagram, MemoryReplica};
use lk_sim_nodes::{Refused, find};
use lk_types::{NoMemory, NodeNo, Request};
use lk_wire::{Content, Message, write};
use std::alloc::Global;

// Serialises a request as a datagram of this cluster.
fn encode(alloc: Global, cluster: u64, request: &Request) -> Result<Vec<u8>, NoMemory>
    ensures { IfOk result (λ b. Spells (record { cluster = cluster; content = content.Request request.now }) b.items) }
{
    request.facts();
    let message = Message {
        cluster,
        content: Content::Request(request.copy()),
    };
    let mut out = BytesMut::new(alloc);
    write(&message, &mut out)?;
    Ok(out.as_slice().to_vec(alloc)?)
}

// Appends the datagram and the note, or on an error neither.
fn append_both(
    sent: &mut Vec<Datagram>,
    trace: &mut Vec<Note>,
    datagram: Datagram,
    note: Note,
) -> Result<(), NoMemory>
    ensures sent { OnOk result (sent.new.items ≡ sent.old.items ++ datagram ∷ []) }
    ensures trace { OnOk result (trace.new.items ≡ trace.old.items ++ note ∷ []) }
    ensures sent_err { OnErr result (sent.new.items ≡ sent.old.items) }
    ensures trace_err { OnErr result (trace.new.items ≡ trace.old.items) }
{
    // Room for the note comes first, so that nothing can fail once the datagram is appended.
    trace.reserve(1)?;
    sent.push(datagram)?;
    trace.push(note).unwrap();
    Ok(())
}

// Appends the request's datagram, and notes the request as asked. On an error the world is unchanged.
fn add_request<R: MemoryReplica>(
    parts: &mut WorldParts<R>,
    number: NodeNo,
    request: &Request,
) -> Result<(), NoMemory>
    ensures ok { OnOk result (IsAsked (world_state_of parts.old) (world_state_of parts.new) number request.now) }
    ensures err { OnErr result (world_state_of parts.new ≡ world_state_of parts.old) }
{
    let bytes = encode(parts.alloc, parts.genesis.cluster, request)?;
    let datagram = Datagram {
        from: Party::Client(request.client),
        to: Party::Node(number),
        bytes,
    };
    let note = Note::Asked(request.copy());
    append_both(&mut parts.sent, &mut parts.trace, datagram, note)?;
    parts.ended = None;
    Ok(())
}

/// Sends a client's request to a node that was started, whether up or down. No node takes it until it is delivered.
pub fn client<R: MemoryReplica>(
    parts: &mut WorldParts<R>,
    number: NodeNo,
    request: &Request,
) -> Result<(), Refused>
    requires { PartsKeepInvariant R.Shows (disks_by R.behaves) R.meaning parts.old }
    ensures holds { PartsKeepInvariant R.Shows (disks_by R.behaves) R.meaning parts.new }
    ensures ok { OnOk result
        (IsExecuted R.behaves (world_state_of parts.old) (event.Client number request.now) (world_state_of parts.new)) }
    ensures err { IfErr result
        (λ e. IsRefused R.behaves (world_state_of parts.old) (event.Client number request.now) e
        (world_state_of parts.new)) }
{
    let Some(_) = find(&parts.sim_nodes, number) else {
        return Err(Refused::NoSuchNode);
    };
    if !has_room(&parts.sent) {
        return Err(Refused::WorldFull);
    }
    add_request(parts, number, request)?;
    Ok(())
}
