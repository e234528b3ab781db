// A nudge, by which a node tells how many positions it has executed.
ghost use Rattle.std.specs.Prelude.{◌≡◌, ℕ, Some, IfErr, IfOk};
ghost use Rattle.lk_wire.specs.Shown.{shown};
ghost use Rattle.lk_messages.specs.declared.message.Content.TheVariants as content;
ghost use Rattle.lk_messages.specs.declared.message.Nack.{Nack as NackValue};
ghost use Rattle.lk_messages.specs.declared.message.NodeMessage.TheVariants as kinds;
ghost use Rattle.lk_healing.specs.Halts.{HaltsFor};
ghost use Rattle.lk_healing.specs.Tellings.{HasTold, IsNack, MayTell};

use crate::carrying_out::nudge;
use crate::halt::Halt;
use crate::progress::Progress;
use lk_memory_disk::MemoryDisk;
use lk_replica::{Datagram, Replica};
use lk_sim::World;
use lk_state::Machine;
use lk_types::NodeNo;
use lk_wire::{ContentRef, Datagram as Viewed, MessageRef, NodeMessageRef};

// Returns what a node tells by this message, if it is a rejection.
fn progress_of(message: &MessageRef<'_>) -> Option<Progress>
    ensures { (c n : ℕ) → (k : NackValue)
        → shown message.now ≡ record { cluster = c; content = content.Node n (kinds.Nack k) }
        → result ≡ Some (record { cluster = c; nack = k }) }
{
    match &message.content {
        ContentRef::Node(_, NodeMessageRef::Nack(nack)) => Some(Progress {
            cluster: message.cluster,
            nack: *nack,
        }),
        _ => None,
    }
}

// Returns what a node tells by this datagram, which is a rejection.
fn progress_in(datagram: &Datagram) -> Progress
    requires { IsNack datagram.now }
    ensures { (k : IsNack datagram.now) → result ≡ record { cluster = k.cluster; nack = k.nack } }
{
    let viewed = Viewed::of(&datagram.bytes);
    match viewed.message() {
        Ok(message) => match progress_of(message) {
            Some(progress) => progress,
            None => unreachable!(),
        },
        Err(_) => unreachable!(),
    }
}

/// Nudges a node that has no term, so that it tells the others of its window how many positions it has executed.
/// Returns what it tells.
pub fn tell<M: Machine>(
    world: &mut World<Replica<M, MemoryDisk>>,
    node: NodeNo,
) -> Result<Progress, Halt>
    requires { MayTell world.old node }
    ensures ok { IfOk result (λ p. HasTold M.meaning M.IsText node world.old world.new p) }
    ensures err { IfErr result (λ h. HaltsFor h world.new) }
{
    let before = world.datagrams().len();
    nudge(world, node)?;
    let Some(first) = world.datagrams().get(before) else {
        unreachable!()
    };
    Ok(progress_in(first))
}
