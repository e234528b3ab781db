// Voters whose next 2 alpha positions end where the leader has executed take what was decided first.
ghost use Rattle.std.specs.Prelude.{◌≡◌, IfErr, IfOk, OnOk};
ghost use Rattle.lk_world_leftovers.specs.Filling.{decided_by};
ghost use Rattle.lk_healing.specs.Fills.{HasCaughtUp, IsFilledAt};
ghost use Rattle.lk_healing.specs.Halts.{HaltsFor};

use crate::asking::Asking;
use crate::filling::offer_at;
use crate::halt::Halt;
use crate::handing::{hand_each, message_of};
use lk_memory_disk::MemoryDisk;
use lk_replica::Replica;
use lk_sim::World;
use lk_state::Machine;
use lk_types::{NoMemory, NodeNo, Position, Vote};
use lk_wire::{Decided, NodeMessage};
use lk_world_feeding::laws::sent_commands_are_executed;
use std::alloc::Global;

// Returns that the command of the vote is decided.
fn decided_of(alloc: Global, vote: &Vote) -> Result<Decided, NoMemory>
    ensures { IfOk result (λ d. d ≡ decided_by vote.now) }
{
    vote.facts();
    let mut commands = Vec::new(alloc);
    commands.push(vote.command.copy())?;
    match Decided::of(vote.position, commands) {
        Some(decided) => Ok(decided),
        None => unreachable!(),
    }
}

/// Lets the others take the first command that was decided since the leader began its ballot, if their next 2 alpha
/// positions end where it has executed.
pub fn catch_up<M: Machine>(
    alloc: Global,
    world: &mut World<Replica<M, MemoryDisk>>,
    alpha: u8,
    leader: NodeNo,
    nodes: &[NodeNo],
    asking: &Asking,
    next: Position,
) -> Result<(), Halt>
    requires alpha { alpha ≡ world.old.genesis.alpha }
    requires filled { IsFilledAt M.meaning M.IsText world.old leader nodes.now asking.now next }
    ensures ok { OnOk result
        (HasCaughtUp M.meaning M.IsText leader nodes.now asking.now next world.old world.new) }
    ensures err { IfErr result (λ h. HaltsFor h world.new) }
{
    world.facts();
    sent_commands_are_executed::<M>();
    let first = asking.first;
    if next.get() < first.get() + 2 * alpha as u64 {
        return Ok(());
    }
    let Some(vote) = offer_at(world.datagrams(), leader, asking, first) else {
        unreachable!()
    };
    let decided = decided_of(alloc, &vote)?;
    let decided = message_of(asking.cluster, leader, NodeMessage::Decided(decided));
    hand_each(alloc, world, &nodes[1..], &decided)
}
