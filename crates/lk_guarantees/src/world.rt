// The simulated world of lock tables, with the guarantee as the contract of each call.
ghost use Rattle.lk_guarantees.specs.Events.{Compacts, EndsByDevice, IsDone, IsRefused, IsRun, nothing};
ghost use Rattle.lk_guarantees.specs.Guarantee.{MeetsGuarantee};
ghost use Rattle.std.specs.Prelude.{◌≡◌, OnOk, IfErr};

use lk_locks::LockTable;
use lk_memory_disk::MemoryDisk;
use lk_replica::Replica;
use lk_sim::{Event, Refused, RunEnd, World};
use lk_types::Genesis;
use std::alloc::Global;

/// Replicas of the lock table, with disks in memory.
pub type Replicas = Replica<LockTable, MemoryDisk>;

/// Returns a world of this genesis in which nothing has happened.
pub fn begin(alloc: Global, genesis: Genesis) -> World<Replicas>
    ensures begins { result ≡ nothing genesis }
{
    World::new(alloc, genesis)
}

/// Executes one event. The guarantee holds afterwards, whether the event was done or rejected.
pub fn apply(world: &mut World<Replicas>, event: Event) -> Result<(), Refused>
    ensures guaranteed { MeetsGuarantee world.new }
    // An event that is done has the effect stated for it.
    ensures does { OnOk result (IsDone world.old event world.new) }
    // A fault ends a node only if a call of its device failed or no generation is left: its files are never damaged.
    ensures ends { OnOk result (EndsByDevice world.new.ended) }
    // A node that has compacted has a snapshot of everything that it has executed.
    ensures compacts { OnOk result (Compacts event world.new) }
    // A rejected event changes nothing, except that its node may have stopped for want of memory.
    ensures refused { IfErr result (λ e. IsRefused world.old event e world.new) }
{
    world.apply(event)
}

/// Executes events in order, up to the first that is rejected. The guarantee holds afterwards.
pub fn run(world: &mut World<Replicas>, events: &[Event]) -> RunEnd
    ensures guaranteed { MeetsGuarantee world.new }
    // Each event has the effect stated for it, up to the first that is rejected.
    ensures runs { IsRun world.old events.now result world.new }
    // So does a fault in a run.
    ensures ends { EndsByDevice world.old.ended → EndsByDevice world.new.ended }
{
    world.run(events)
}
