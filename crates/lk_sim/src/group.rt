// Executes a group: one node takes several inputs together, syncs once for all of them, and only then sends.
ghost use Rattle.std.specs.Prelude.{◌≡◌, ◌↔◌, ℕ, ◌<◌, [], true, false, length, map, IsTrue, IfOk, IfErr, OnOk, OnErr};
ghost use Rattle.lk_replica.specs.Behaviours.{disks_by};
ghost use Rattle.lk_replica.specs.Together.{parts_of};
ghost use Rattle.lk_sim_nodes.specs.SimNodes.{IsUpAt};
ghost use Rattle.lk_sim.specs.Events.{IsGivenTogether, IsHalted, IsNotGrouped, LeftByGroup};
ghost use Rattle.lk_sim.specs.Groups.{AreNotesOf, WereSentTo, bringing, given_by, input_of};
ghost use Rattle.lk_sim.specs.Refusals.{AreFor, IsFor, MayGroup, datagram_at};
ghost use Rattle.lk_sim.specs.Concluded.{HasAddedSteps, HasGivenUp, HasConcludedSteps};
ghost use Rattle.lk_sim.specs.Worlds.{PartsKeepInvariant, world_state_of};

use crate::copied_input::CopiedInput;
use crate::datagrams::{datagram, has_room};
use crate::event::GroupInput;
use crate::giving::append_both;
use crate::world_parts::WorldParts;
use lk_agreement_laws::Party;
use lk_node_interface::{Input, Note};
use lk_replica::{Datagram, MemoryReplica, Step};
use lk_sim_nodes::{GroupOutcome, Refused, add_notes, carry_out_stop, find_up, step_all, stop};
use lk_types::{NoMemory, NodeNo};
use std::alloc::Global;

// Collects the notes of all steps, step by step: what the node noted, then the answers and passes that the step sent.
fn notes_of(alloc: Global, steps: Vec<Step>, sent: &[Datagram]) -> Result<Vec<Note>, NoMemory>
    ensures { IfOk result (λ notes. AreNotesOf (parts_of steps.items sent.now) notes.items) }
{
    let mut notes = Vec::new(alloc);
    let mut rest = sent;
    'steps: for step in steps {
        let Step {
            notes: mut own,
            sends,
        } = step;
        notes.append(&mut own)?;
        // An armed stop may have cut `sent` short: later steps then sent less than they count, or nothing.
        let (now, later) = rest.split_at(sends.min(rest.len()));
        add_notes(alloc, &mut notes, now)?;
        rest = later;
    }
    Ok(notes)
}

// Whether a group left nothing to note or send.
fn is_nothing(outcome: &GroupOutcome) -> bool
    ensures steps { result ≡ true → outcome.now.steps.items ≡ [] }
    ensures sent { result ≡ true → outcome.now.sent.items ≡ [] }
    ensures some { result ≡ false → outcome.now.steps.items ≡ [] → outcome.now.sent.items ≡ [] → ⊥ }
{
    outcome.steps.is_empty() && outcome.sent.is_empty()
}

// Appends what a group noted and sent to the world, or on an error neither. An empty result takes no memory.
fn add_all<R: MemoryReplica>(
    parts: &mut WorldParts<R>,
    outcome: GroupOutcome,
) -> Result<(), NoMemory>
    ensures ok { OnOk result
        (HasAddedSteps (world_state_of parts.old) (world_state_of parts.new) outcome.steps.items outcome.sent.items
        outcome.ended) }
    ensures err { OnErr result (world_state_of parts.new ≡ world_state_of parts.old) }
    ensures wants { OnErr result (outcome.steps.items ≡ [] → outcome.sent.items ≡ [] → ⊥) }
    ensures sim_nodes { parts.new.sim_nodes ≡ parts.old.sim_nodes }
{
    if is_nothing(&outcome) {
        parts.ended = outcome.ended;
        return Ok(());
    }
    let GroupOutcome {
        steps,
        sent,
        ended,
        stop: _,
    } = outcome;
    let notes = notes_of(parts.alloc, steps, &sent)?;
    append_both(&mut parts.sent, &mut parts.trace, sent, notes)?;
    parts.ended = ended;
    Ok(())
}

// Adds the result of a group to the world, then carries out an armed stop that the node at place `i` has reached. When
// out of memory, it adds nothing and stops the node.
fn finish_group<R: MemoryReplica>(
    parts: &mut WorldParts<R>,
    i: usize,
    outcome: GroupOutcome,
) -> Result<(), NoMemory>
    requires index { i < length parts.old.sim_nodes.items }
    ensures ok { OnOk result
        (HasConcludedSteps R.Shows R.behaves R.meaning (world_state_of parts.old) i
        (world_state_of parts.new) outcome.steps.items outcome.sent.items outcome.ended outcome.stop) }
    ensures err { OnErr result (HasGivenUp R.Shows R.behaves R.meaning (world_state_of parts.old) i
        (world_state_of parts.new)) }
    ensures wants { OnErr result (outcome.steps.items ≡ [] → outcome.sent.items ≡ [] → ⊥) }
{
    let at = outcome.stop;
    match add_all(parts, outcome) {
        Ok(()) => {
            carry_out_stop(parts.alloc, &mut parts.sim_nodes[i], at);
            Ok(())
        }
        Err(refused) => {
            stop(parts.alloc, &mut parts.sim_nodes[i], 0, 0);
            Err(refused)
        }
    }
}

// Gives the inputs to the node at place `i`, which is up, as one group: ticks, nudges, and datagrams that were sent.
fn give_all<R: MemoryReplica>(
    parts: &mut WorldParts<R>,
    i: usize,
    inputs: Vec<Input<'_>>,
) -> Result<(), NoMemory>
    requires up { (n : ℕ) × IsUpAt parts.old.sim_nodes.items i n }
    requires heard { WereSentTo parts.old.sent.items inputs.items }
    requires holds { PartsKeepInvariant R.Shows (disks_by R.behaves) R.meaning parts.old }
    ensures holds { PartsKeepInvariant R.Shows (disks_by R.behaves) R.meaning parts.new }
    ensures given { (n : ℕ) → IsUpAt parts.old.sim_nodes.items i n
        → OnOk result (IsGivenTogether R.behaves (world_state_of parts.old) (world_state_of parts.new) n
        inputs.entry.items) }
    ensures halted { (n : ℕ) → IsUpAt parts.old.sim_nodes.items i n
        → OnErr result (IsHalted (LeftByGroup R.behaves inputs.entry.items) (world_state_of parts.old)
        (world_state_of parts.new) n) }
{
    let outcome = step_all(parts.alloc, &mut parts.sim_nodes[i], inputs)?;
    finish_group(parts, i, outcome)?;
    Ok(())
}

// Whether the input is a tick or a nudge, or its datagram exists and is addressed to the node.
fn is_for(sent: &[Datagram], number: NodeNo, group_input: GroupInput) -> bool
    ensures { IsTrue result ↔ IsFor sent.now number group_input }
{
    let GroupInput::Deliver(k) = group_input else {
        return true;
    };
    match datagram(sent, k) {
        Some(found) => found.to == Party::Node(number),
        None => false,
    }
}

// Whether this holds of every input.
fn are_for(sent: &[Datagram], number: NodeNo, group_inputs: &[GroupInput]) -> bool
    ensures { IsTrue result ↔ AreFor sent.now number group_inputs.now }
{
    group_inputs
        .iter()
        .all(|group_input| is_for(sent, number, *group_input))
}

// Copies the datagram at this place; a tick if there is none.
fn copied_datagram<R: MemoryReplica>(
    parts: &WorldParts<R>,
    k: usize,
) -> Result<CopiedInput, NoMemory>
    ensures { IfOk result (λ copy. input_of copy ≡ bringing (datagram_at parts.now.sent.items k)) }
{
    match datagram(&parts.sent, k) {
        Some(found) => Ok(CopiedInput::Datagram(found.bytes.to_vec(parts.alloc)?)),
        None => Ok(CopiedInput::Tick),
    }
}

// Copies an input, with its datagram.
fn copied<R: MemoryReplica>(
    parts: &WorldParts<R>,
    group_input: GroupInput,
) -> Result<CopiedInput, NoMemory>
    ensures { IfOk result (λ copy. input_of copy ≡ given_by parts.now.sent.items group_input) }
{
    match group_input {
        GroupInput::Tick => Ok(CopiedInput::Tick),
        GroupInput::Nudge(reason) => Ok(CopiedInput::Nudge(reason)),
        GroupInput::Deliver(k) => copied_datagram(parts, k),
    }
}

// Copies the inputs, in order.
fn all_copied<R: MemoryReplica>(
    parts: &WorldParts<R>,
    group_inputs: &[GroupInput],
) -> Result<Vec<CopiedInput>, NoMemory>
    ensures ok { IfOk result (λ l. map input_of l.items ≡ map (given_by parts.now.sent.items) group_inputs.now) }
    ensures memory { OnErr result (0 < length group_inputs.now) }
{
    let mut all = Vec::new(parts.alloc);
    'group_inputs: for group_input in group_inputs {
        all.push(copied(parts, *group_input)?)?;
    }
    Ok(all)
}

// Returns the inputs as a node takes them.
fn inputs_of<'a>(alloc: Global, all: &'a [CopiedInput]) -> Result<Vec<Input<'a>>, NoMemory>
    ensures ok { IfOk result (λ l. l.items ≡ map input_of all.now) }
    ensures memory { OnErr result (0 < length all.now) }
{
    let mut inputs = Vec::new(alloc);
    'all: for copy in all {
        inputs.push(copy.as_input())?;
    }
    Ok(inputs)
}

/// Gives the inputs to a node together. All of them are checked before the node takes the first.
pub fn group<R: MemoryReplica>(
    parts: &mut WorldParts<R>,
    number: NodeNo,
    group_inputs: &[GroupInput],
) -> Result<(), Refused>
    requires { PartsKeepInvariant R.Shows (disks_by R.behaves) R.meaning parts.old }
    ensures holds { PartsKeepInvariant R.Shows (disks_by R.behaves) R.meaning parts.new }
    ensures ok { OnOk result
        (MayGroup (world_state_of parts.old) number group_inputs.now
        × IsGivenTogether R.behaves (world_state_of parts.old) (world_state_of parts.new) number
        (map (given_by parts.old.sent.items) group_inputs.now)) }
    ensures err { IfErr result
        (λ e. IsNotGrouped R.behaves (world_state_of parts.old) number group_inputs.now e (world_state_of parts.new)) }
{
    let i = find_up(&parts.sim_nodes, number)?;
    if !are_for(&parts.sent, number, group_inputs) {
        return Err(Refused::NoSuchDatagram);
    }
    if !has_room(&parts.sent) {
        return Err(Refused::WorldFull);
    }
    let copies = all_copied(parts, group_inputs)?;
    let inputs = inputs_of(parts.alloc, &copies)?;
    give_all(parts, i, inputs)?;
    Ok(())
}
