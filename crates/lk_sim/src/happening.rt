// Dispatches each event to the function that executes it.
ghost use Rattle.std.specs.Prelude.{OnOk, IfErr};
ghost use Rattle.lk_replica.specs.Behaviours.{disks_by};
ghost use Rattle.lk_sim.specs.Events.{IsExecuted, IsRefused};
ghost use Rattle.lk_sim.specs.Runs.{Runs};
ghost use Rattle.lk_sim.specs.Worlds.{PartsKeepInvariant, world_state_of};

use crate::client::client;
use crate::compacting::compact;
use crate::delivery::{deliver, inject, nudge, tick};
use crate::end::RunEnd;
use crate::event::Event;
use crate::group::group;
use crate::lives::{arm, fail_at, halt, restart, start};
use crate::world_parts::WorldParts;
use lk_replica::MemoryReplica;
use lk_sim_nodes::Refused;

/// Executes one event. A rejected event changes nothing, except that its node may have stopped when out of memory.
pub fn happen<R: MemoryReplica>(parts: &mut WorldParts<R>, event: &Event) -> Result<(), Refused>
    requires { PartsKeepInvariant R.Shows (disks_by R.behaves) R.meaning parts.old }
    ensures holds { PartsKeepInvariant R.Shows (disks_by R.behaves) R.meaning parts.new }
    ensures ok { OnOk result (IsExecuted R.behaves (world_state_of parts.old) event.now (world_state_of parts.new)) }
    ensures err { IfErr result (λ e. IsRefused R.behaves (world_state_of parts.old) event.now e
        (world_state_of parts.new)) }
{
    match event {
        Event::Start(number) => start(parts, *number),
        Event::Restart(number) => restart(parts, *number),
        Event::Tick(number) => tick(parts, *number),
        Event::Nudge(number, reason) => nudge(parts, *number, *reason),
        Event::Compact(number) => compact(parts, *number),
        Event::Client(number, request) => client(parts, *number, request),
        Event::Deliver(k) => deliver(parts, *k),
        Event::Group(number, group_inputs) => group(parts, *number, group_inputs),
        Event::Inject(number, bytes) => inject(parts, *number, bytes),
        Event::Stop(number, x, y) => halt(parts, *number, *x, *y),
        Event::FailAt(number, count) => fail_at(parts, *number, *count),
        Event::Arm(number, count, bytes) => arm(parts, *number, *count, *bytes),
    }
}

/// Executes events in order, up to the first that is rejected.
pub fn happen_all<R: MemoryReplica>(parts: &mut WorldParts<R>, events: &[Event]) -> RunEnd
    requires { PartsKeepInvariant R.Shows (disks_by R.behaves) R.meaning parts.old }
    ensures holds { PartsKeepInvariant R.Shows (disks_by R.behaves) R.meaning parts.new }
    ensures runs { Runs R.behaves (world_state_of parts.old) events.now result (world_state_of parts.new) }
{
    'events: for i in 0..events.len() {
        if let Err(refused) = happen(parts, &events[i]) {
            return RunEnd {
                done: i,
                refused: Some(refused),
            };
        }
    }
    RunEnd {
        done: events.len(),
        refused: None,
    }
}
