// The simulated world that callers see, and what is guaranteed of it after each event.
use crate::end::RunEnd;
use crate::event::Event;
use crate::happening::{happen, happen_all};
use crate::world_parts::WorldParts;
use lk_node_interface::Note;
use lk_replica::{Datagram, MemoryReplica};
use lk_sim_nodes::{End, LeftNode, Refused, all_left, find, lengths};
use lk_types::{Genesis, NoMemory, NodeNo};
use std::alloc::Global;
use std::marker::Model;

/// Replicas with disks in memory, all datagrams that were ever sent, and the trace of what has happened.
#[derive(Drop)]
pub struct World<R: MemoryReplica> {
    parts: WorldParts<R>,
}

impl<R: MemoryReplica> Model for World<R> {
    ghost use Rattle.lk_replica.specs.Behaviours.{disks_by};
    ghost use Rattle.lk_sim_nodes.specs.Ends.{IsEndByCalls};
    ghost use Rattle.lk_sim.specs.WorldStates.{WorldState};
    ghost use Rattle.lk_sim.specs.Worlds.{PartsKeepInvariant, world_state_of};

    ghost Value = { WorldState R };

    ghost view = { λ w. world_state_of w.parts };

    ghost invariant = { λ w. PartsKeepInvariant R.Shows (disks_by R.behaves) R.meaning w.parts
        × IsEndByCalls w.parts.ended };
}

impl<R: MemoryReplica> World<R> {
    ghost use Rattle.std.specs.Prelude.{◌≡◌, ℕ, [], length, map, None, IfSome, IfOk, OnOk, IfErr};
    ghost use Rattle.lk_replica.specs.Behaviours.{disks_by};
    ghost use Rattle.lk_sim_nodes.specs.Ends.{IsEndByCalls};
    ghost use Rattle.lk_sim.specs.Events.{IsExecuted, IsRefused, Grows};
    ghost use Rattle.lk_disk.specs.Disk.{contents};
    ghost use Rattle.lk_disk.specs.declared.device.Side.TheVariants.{A, B};
    ghost use Rattle.lk_sim_nodes.specs.SimNodes.{disks_of, At, HasNo};
    ghost use Rattle.lk_sim_nodes.specs.Left.{left_of};
    ghost use Rattle.lk_sim.specs.Packed.{LeavesPackedState};
    ghost use Rattle.lk_sim.specs.Guarantees.{WorldGuarantee};
    ghost use Rattle.lk_sim.specs.Runs.{Runs};
    ghost use Rattle.lk_sim.specs.Worlds.{KeepsInvariant};
    ghost use Rattle.lk_sim_nodes.specs.declared.sim_node.SimNode.{SimNode as SimNodeValue};

    /// Returns a world of this genesis in which no node was started and nothing was sent.
    pub fn new(alloc: Global, genesis: Genesis) -> Self
        ensures { result ≡ record { genesis = genesis; sim_nodes = []; sent = []; trace = []; ended = None } }
    {
        World {
            parts: WorldParts {
                alloc,
                genesis,
                sim_nodes: Vec::new(alloc),
                sent: Vec::new(alloc),
                trace: Vec::new(alloc),
                ended: None,
            },
        }
    }

    /// Executes one event. Done or rejected, all of `WorldGuarantee` holds afterwards: among others, some chosen list
    /// of no-ops and asked requests explains everything that was noted and sent.
    ///
    /// A rejected event changes nothing, except that under `WorldMemory` a node that was stepping, compacting or
    /// restarting may have stopped.
    pub fn apply(&mut self, event: Event) -> Result<(), Refused>
        ensures does { OnOk result (IsExecuted R.behaves self.old event self.new) }
        ensures refused { IfErr result (λ e. IsRefused R.behaves self.old event e self.new) }
        ensures grows { Grows self.old self.new }
        ensures guaranteed { WorldGuarantee R.behaves R.whole R.meaning self.new }
        // After a compaction, whatever a stop may leave of the node's disks has a snapshot of everything executed.
        ensures packed { OnOk result (LeavesPackedState R.whole (disks_by R.behaves) R.meaning event self.new) }
    {
        let result = happen(&mut self.parts, &event);
        self.facts();
        result
    }

    /// Executes events in order, up to the first that is rejected. What `apply` guarantees holds afterwards.
    pub fn run(&mut self, events: &[Event]) -> RunEnd
        ensures runs { Runs R.behaves self.old events.now result self.new }
        ensures grows { Grows self.old self.new }
        ensures guaranteed { WorldGuarantee R.behaves R.whole R.meaning self.new }
    {
        let how = happen_all(&mut self.parts, events);
        self.facts();
        how
    }

    /// Returns what has happened so far, in order: requests asked, majorities counted, commands executed and replies
    /// sent.
    pub fn trace(&self) -> &[Note]
        ensures { result.now ≡ self.now.trace }
    {
        &self.parts.trace
    }

    /// Returns all datagrams that were ever sent, in order. The place of the first one is 1.
    pub fn datagrams(&self) -> &[Datagram]
        ensures { result.now ≡ self.now.sent }
    {
        &self.parts.sent
    }

    /// Returns how the last event that was done ended a node, or `None` if it ended none. A fault has the number 7 or
    /// 11.
    pub fn last_end(&self) -> Option<End>
        ensures is { result ≡ self.now.ended }
        ensures told { IsEndByCalls result }
    {
        self.parts.ended
    }

    /// Returns how many bytes the disks A and B of this node have, synced or not, or `None` if it was never started.
    pub fn lengths(&self, node: NodeNo) -> Option<(usize, usize)>
        ensures some { IfSome result (λ l. (k : ℕ) × (s : SimNodeValue R) × At self.now.sim_nodes k s
            × (s.number ≡ node)
            × (l.0 ≡ length (contents (disks_of (disks_by R.behaves) s.run_state A)))
            × (l.1 ≡ length (contents (disks_of (disks_by R.behaves) s.run_state B)))) }
        ensures none { result ≡ None → HasNo self.now.sim_nodes node }
    {
        let i = find(&self.parts.sim_nodes, node)?;
        Some(lengths(&self.parts.sim_nodes[i]))
    }

    /// Ends the world and returns the nodes that were ever started, with their disks, in the order of their starts.
    /// Fails only when out of memory.
    pub fn into_nodes(self) -> Result<Vec<LeftNode>, NoMemory>
        ensures { IfOk result (λ nodes. nodes.items ≡ map (left_of R.behaves) self.sim_nodes) }
    {
        let World { parts } = self;
        let WorldParts {
            alloc,
            genesis: _,
            sim_nodes,
            sent: _,
            trace: _,
            ended: _,
        } = parts;
        all_left(alloc, sim_nodes)
    }

    /// Makes the guarantee available to proofs about this world, and the whole invariant on which it rests. The
    /// function does nothing.
    pub fn facts(&self)
        ensures guaranteed { WorldGuarantee R.behaves R.whole R.meaning self.now }
        ensures keeps { KeepsInvariant R.Shows (disks_by R.behaves) R.meaning self.now }
    {
        let _ = &self.parts;
    }
}
