// Gives an input to a node or restarts it, and appends what it notes and sends to the world.
ghost use Rattle.std.specs.Prelude.{◌≡◌, ℕ, ◌<◌, ◌++◌, List, [], true, false, length, set, IfOk, OnOk, OnErr};
ghost use Rattle.lk_node_interface.specs.declared.note.Note.{Note as NoteValue};
ghost use Rattle.lk_node.specs.Calls.{InputFits};
ghost use Rattle.lk_node.specs.Leavings.{header_of};
ghost use Rattle.lk_replica.specs.Behaviours.{disks_by};
ghost use Rattle.lk_sim.specs.Events.{IsGiven, IsHalted, IsBack, LeftBy, LeftByRevival};
ghost use Rattle.lk_sim.specs.Concluded.{HasAdded, HasConcluded, HasGivenUp};
ghost use Rattle.lk_sim.specs.Rooms.{HasNoteRoom};
ghost use Rattle.lk_sim_nodes.specs.SimNodes.{IsUpAt, IsDownAt};
ghost use Rattle.lk_sim_nodes.specs.Told.{NotesReplies};
ghost use Rattle.lk_sim.specs.Traces.{happened, asked_note};
ghost use Rattle.lk_sim.specs.Worlds.{PartsKeepInvariant, world_state_of};

use crate::world_parts::WorldParts;
use lk_node_interface::{Input, Note};
use lk_replica::{Datagram, MemoryReplica};
use lk_sim_nodes::{Outcome, add_notes, carry_out_stop, revive, step, stop};
use lk_types::{NoMemory, Request};
use std::alloc::Global;

// Collects the notes of a step in this order: the request that was just asked, what the node noted, and its answers and
// passes as they were sent.
fn notes_of(
    alloc: Global,
    asked: Option<Request>,
    mut notes: Vec<Note>,
    batch: &[Datagram],
) -> Result<Vec<Note>, NoMemory>
    ensures ok { IfOk result
        (λ all. (told : List NoteValue) × (all.items ≡ (asked_note asked ++ notes.items) ++ told)
        × NotesReplies batch.now told) }
{
    if let Some(request) = asked {
        notes.insert(0, Note::Asked(request))?;
    }
    add_notes(alloc, &mut notes, batch)?;
    Ok(notes)
}

/// Appends the datagrams and the notes, or on an error neither.
pub fn append_both(
    sent: &mut Vec<Datagram>,
    trace: &mut Vec<Note>,
    mut batch: Vec<Datagram>,
    mut notes: Vec<Note>,
) -> Result<(), NoMemory>
    ensures sent { OnOk result (sent.new.items ≡ sent.old.items ++ batch.items) }
    ensures trace { OnOk result (trace.new.items ≡ trace.old.items ++ notes.items) }
    ensures sent_err { OnErr result (sent.new.items ≡ sent.old.items) }
    ensures trace_err { OnErr result (trace.new.items ≡ trace.old.items) }
{
    // Room for the notes comes first, so that nothing can fail once the datagrams are appended.
    trace.reserve(notes.len())?;
    sent.append(&mut batch)?;
    trace.append(&mut notes).unwrap();
    Ok(())
}

// Whether a call left nothing to note or send.
fn is_nothing(outcome: &Outcome) -> bool
    ensures notes { result ≡ true → outcome.now.notes.items ≡ [] }
    ensures sent { result ≡ true → outcome.now.sent.items ≡ [] }
    ensures some { result ≡ false → outcome.now.notes.items ≡ [] → outcome.now.sent.items ≡ [] → ⊥ }
{
    outcome.notes.is_empty() && outcome.sent.is_empty()
}

// Notes a request that was just asked. The caller has reserved room for its note, so it takes no memory.
fn note_asked(trace: &mut Vec<Note>, asked: Option<Request>)
    requires room { HasNoteRoom asked trace.old }
    ensures { trace.new.items ≡ trace.old.items ++ asked_note asked }
{
    if let Some(request) = asked {
        trace.push(Note::Asked(request)).unwrap();
    }
}

/// Appends what a call noted and sent to the world, after the request that was just asked, or on an error nothing. The
/// caller has reserved room for the request's note; if the call left nothing else, it takes no memory.
pub fn add<R: MemoryReplica>(
    parts: &mut WorldParts<R>,
    asked: Option<Request>,
    outcome: Outcome,
) -> Result<(), NoMemory>
    requires room { HasNoteRoom asked parts.old.trace }
    ensures ok { OnOk result
        (HasAdded (world_state_of parts.old) (world_state_of parts.new)
        (asked_note asked) outcome.notes.items outcome.sent.items outcome.ended) }
    ensures err { OnErr result (world_state_of parts.new ≡ world_state_of parts.old) }
    ensures wants { OnErr result (outcome.notes.items ≡ [] → outcome.sent.items ≡ [] → ⊥) }
    ensures sim_nodes { parts.new.sim_nodes ≡ parts.old.sim_nodes }
{
    if is_nothing(&outcome) {
        note_asked(&mut parts.trace, asked);
        parts.ended = outcome.ended;
        return Ok(());
    }
    let Outcome {
        notes,
        sent: batch,
        ended,
        stop: _,
    } = outcome;
    let all = notes_of(parts.alloc, asked, notes, &batch)?;
    append_both(&mut parts.sent, &mut parts.trace, batch, all)?;
    parts.ended = ended;
    Ok(())
}

/// Adds the result of a call to the world, then carries out an armed stop that the node at place `i` has reached. When
/// out of memory, it adds nothing and stops the node.
pub fn finish_call<R: MemoryReplica>(
    parts: &mut WorldParts<R>,
    i: usize,
    asked: Option<Request>,
    outcome: Outcome,
) -> Result<(), NoMemory>
    requires index { i < length parts.old.sim_nodes.items }
    requires room { HasNoteRoom asked parts.old.trace }
    ensures ok { OnOk result
        (HasConcluded R.Shows R.behaves R.meaning (world_state_of parts.old) i (world_state_of parts.new)
        (asked_note asked) outcome.notes.items outcome.sent.items outcome.ended outcome.stop) }
    ensures err { OnErr result (HasGivenUp R.Shows R.behaves R.meaning (world_state_of parts.old) i
        (world_state_of parts.new)) }
    ensures wants { OnErr result (outcome.notes.items ≡ [] → outcome.sent.items ≡ [] → ⊥) }
{
    let at = outcome.stop;
    match add(parts, asked, outcome) {
        Ok(()) => {
            carry_out_stop(parts.alloc, &mut parts.sim_nodes[i], at);
            Ok(())
        }
        Err(refused) => {
            stop(parts.alloc, &mut parts.sim_nodes[i], 0, 0);
            Err(refused)
        }
    }
}

/// Gives the input to the node at place `i`, which is up. The request in it, `asked`, is noted; the caller has reserved
/// room for that.
pub fn give<R: MemoryReplica>(
    parts: &mut WorldParts<R>,
    i: usize,
    input: Input,
    asked: Option<Request>,
) -> Result<(), NoMemory>
    requires up { (n : ℕ) × IsUpAt parts.old.sim_nodes.items i n }
    requires heard { InputFits
        (happened parts.old.genesis parts.old.sent.items (parts.old.trace.items ++ asked_note asked)) input }
    requires room { HasNoteRoom asked parts.old.trace }
    requires holds { PartsKeepInvariant R.Shows (disks_by R.behaves) R.meaning parts.old }
    ensures holds { PartsKeepInvariant R.Shows (disks_by R.behaves) R.meaning parts.new }
    ensures given { (n : ℕ) → IsUpAt parts.old.sim_nodes.items i n
        → OnOk result (IsGiven R.behaves (world_state_of parts.old) (world_state_of parts.new) n
        input.entry (asked_note asked)) }
    ensures halted { (n : ℕ) → IsUpAt parts.old.sim_nodes.items i n
        → OnErr result (IsHalted (LeftBy R.behaves input.entry) (world_state_of parts.old)
        (world_state_of parts.new) n) }
{
    let outcome = step(parts.alloc, &mut parts.sim_nodes[i], input)?;
    finish_call(parts, i, asked, outcome)?;
    Ok(())
}

/// Restarts the node at place `i`, which is down, from its disks.
pub fn come_up<R: MemoryReplica>(parts: &mut WorldParts<R>, i: usize) -> Result<(), NoMemory>
    requires down { (n : ℕ) × IsDownAt parts.old.sim_nodes.items i n }
    requires holds { PartsKeepInvariant R.Shows (disks_by R.behaves) R.meaning parts.old }
    ensures holds { PartsKeepInvariant R.Shows (disks_by R.behaves) R.meaning parts.new }
    ensures back { (n : ℕ) → IsDownAt parts.old.sim_nodes.items i n
        → OnOk result (IsBack R.behaves (world_state_of parts.old) (world_state_of parts.new) n) }
    ensures halted { (n : ℕ) → IsDownAt parts.old.sim_nodes.items i n
        → OnErr result (IsHalted (LeftByRevival R.behaves (header_of parts.old.genesis n)) (world_state_of parts.old)
        (world_state_of parts.new) n) }
{
    let outcome = revive(parts.alloc, &mut parts.sim_nodes[i], &parts.genesis)?;
    finish_call(parts, i, None, outcome)?;
    Ok(())
}
