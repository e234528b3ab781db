//! Runs a script, then prints the state of each node of its world: its disks, and what its store holds.

ghost use Rattle.std.specs.Prelude.{◌≡◌, ◌⊎◌, ◌++◌, ℕ, List, map, IfOk, IfSome, OnOk};
ghost use Rattle.std.specs.Io.KnownBytes.{Appends};
ghost use Rattle.lk_sim_nodes.specs.Left.{left_of};
ghost use Rattle.lk_script.specs.Endings.{PrintsAll};
ghost use Rattle.lk_sim_dump.specs.Lines.{disk_line};
ghost use Rattle.lk_sim_dump.specs.NodeStates.{IsStateOf, AreStatesOf, bound_for_nodes};

use lk_agreement_laws::Party;
use lk_inspect::inspect::{inspect_device, write_found};
use lk_inspect::inspection::Inspection;
use lk_inspect::lines::Listing;
use lk_program_fault::ProgramFault;
use lk_replica::{Datagram, MemoryReplica};
use lk_script::ending::end;
use lk_script::mode::Mode;
use lk_script::script::run_script;
use lk_script_lines::fault::ScriptFault;
use lk_sim::{LeftNode, World};
use lk_types::{NoMemory, NodeNo};
use std::alloc::Global;
use std::io;
use std::io::{BufRead, Write};

/// The state of a node when its world ends: whether it is up, how many bytes its disks have and how many of these are
/// synced, A's first, and what its store holds, or why that is unknown.
#[derive(Drop)]
pub struct NodeState {
    pub number: NodeNo,
    pub is_up: bool,
    pub written: (usize, usize),
    pub synced: (usize, usize),
    pub found: Result<Option<Inspection>, ProgramFault>,
}

// Inspects the store of a node, and measures its disks.
fn state_of(alloc: Global, node: LeftNode) -> NodeState
    ensures { IsStateOf node result }
{
    let LeftNode {
        number,
        is_up,
        mut device,
    } = node;
    let found = inspect_device(alloc, &mut device);
    let written = device.lengths();
    // A stop that keeps nothing unsynced leaves disks as long as their synced bytes.
    device.stop(0, 0);
    NodeState {
        number,
        is_up,
        written,
        synced: device.lengths(),
        found,
    }
}

// Returns the state of each node, in order.
fn all_states(alloc: Global, nodes: Vec<LeftNode>) -> Result<Vec<NodeState>, NoMemory>
    ensures { IfOk result (λ states. AreStatesOf nodes.items states.items) }
{
    let mut states = Vec::new(alloc);
    'each: for node in nodes {
        states.push(state_of(alloc, node))?;
    }
    Ok(states)
}

/// Ends the world, and returns the state of each of its nodes, in the order of their starts.
pub fn states_of<M: MemoryReplica>(
    alloc: Global,
    world: World<M>,
) -> Result<Vec<NodeState>, NoMemory>
    ensures { IfOk result (λ states. AreStatesOf (map (left_of M.behaves) world.sim_nodes) states.items) }
{
    let nodes = world.into_nodes()?;
    all_states(alloc, nodes)
}

// Writes what a store holds, or the text of the fault with which its inspection failed.
fn write_store<W: Write>(
    found: &Result<Option<Inspection>, ProgramFault>,
    out: &mut W,
) -> io::Result<()> {
    match found {
        Ok(found) => {
            write_found(found.as_ref(), Listing::Held, out)?;
            Ok(())
        }
        Err(fault) => out.write_all(fault.text().as_bytes()),
    }
}

// Writes a line `disk NAME SYNCED of WRITTEN bytes synced`.
fn write_disk<W: Write>(name: &str, synced: usize, written: usize, out: &mut W) -> io::Result<()>
    ensures { OnOk result (Appends (W.contents out.old) (W.contents out.new) (disk_line name.now synced written)) }
{
    writeln!(out, "disk {name} {synced} of {written} bytes synced")
}

// Writes the lines of a node: `node N up` or `node N down`, its two disks, and its store.
fn write_state<W: Write>(state: &NodeState, out: &mut W) -> io::Result<()> {
    let run_state = if state.is_up { "up" } else { "down" };
    writeln!(out, "node {} {run_state}", state.number.get())?;
    write_disk("a", state.synced.0, state.written.0, out)?;
    write_disk("b", state.synced.1, state.written.1, out)?;
    write_store(&state.found, out)
}

// Returns how many datagrams are addressed to nodes, and so may be delivered.
fn bound_for_nodes(sent: &[Datagram]) -> usize
    ensures { result ≡ bound_for_nodes sent.now }
{
    let mut count = 0;
    for datagram in sent {
        if let Party::Node(_) = datagram.to {
            count += 1;
        }
    }
    count
}

// Returns the lines of all nodes of a world, and a line `datagrams COUNT` of the datagrams addressed to nodes.
fn text_of<M: MemoryReplica>(alloc: Global, world: World<M>) -> Result<Vec<u8>, NoMemory> {
    let mut text = Vec::new(alloc);
    let datagrams = bound_for_nodes(world.datagrams());
    for state in states_of(alloc, world)?.as_slice() {
        write_state(state, &mut text).map_err(|_| NoMemory)?;
    }
    writeln!(text, "datagrams {datagrams}").map_err(|_| NoMemory)?;
    Ok(text)
}

// Writes the state of the nodes if the script was in world mode, and otherwise nothing.
fn write_left<M: MemoryReplica, W: Write>(
    alloc: Global,
    mode: Mode<M>,
    out: &mut W,
) -> Result<(), ScriptFault>
    ensures { OnOk result ((text : List ℕ) × Appends (W.contents out.old) (W.contents out.new) text) }
{
    let Mode::World(run) = mode else {
        return Ok(());
    };
    let Ok(text) = text_of(alloc, run.into_world()) else {
        return Err(ScriptFault::ScriptMemory);
    };
    match out.write_all(&text) {
        Ok(()) => Ok(()),
        Err(_) => Err(ScriptFault::Write),
    }
}

// Runs a script to its end, and then writes the state of its nodes.
fn run_and_write<M: MemoryReplica, R: BufRead, W: Write>(
    alloc: Global,
    reader: &mut R,
    out: &mut W,
) -> Result<(), ScriptFault>
    ensures { OnOk result (IfSome (R.remaining reader.old)
        (λ script. (text : List ℕ) × (more : List ℕ) × PrintsAll M.behaves script text
        × Appends (W.contents out.old) (W.contents out.new) (text ++ more))) }
{
    let mode = run_script::<M, R, W>(alloc, reader, out)?;
    write_left(alloc, mode, out)
}

/// Runs a script as `run_to_end` does, and then prints for each node that was started `node N up` or `node N down`, how
/// many bytes of its disks are synced, and what `inspect` prints of a store with the same bytes. The last line is how
/// many datagrams may be delivered. After a script of table mode, or one that ends early, it prints nothing more.
pub fn run_to_state<M: MemoryReplica, R: BufRead, W: Write, E: Write>(
    alloc: Global,
    reader: &mut R,
    out: &mut W,
    err: &mut E,
) -> u8
    ensures ok { result ≡ 0 → IfSome (R.remaining reader.old)
        (λ script. (text : List ℕ) × (more : List ℕ) × PrintsAll M.behaves script text
        × Appends (W.contents out.old) (W.contents out.new) (text ++ more)) }
    ensures quiet { result ≡ 0 → err.new ≡ err.old }
    ensures status { (result ≡ 0) ⊎ (result ≡ 1) }
{
    let ran = run_and_write::<M, R, W>(alloc, reader, out);
    end(ran, out, err)
}
