// A node of a world, and its device.
ghost use Rattle.std.specs.Prelude.{◌≡◌, length};
ghost use Rattle.lk_disk.specs.Disk.{contents};
ghost use Rattle.lk_memory_disk.specs.Memory.{disk_of};
ghost use Rattle.lk_disk.specs.declared.device.Side.TheVariants.{A, B};
ghost use Rattle.lk_agreement_laws.specs.Nodes.{PaxosState};
ghost use Rattle.lk_node.specs.Histories.{History};
ghost use Rattle.lk_node.specs.Leavings.{DisksFit};
ghost use Rattle.lk_replica.specs.Behaviours.{disks_by};
ghost use Rattle.lk_sim_nodes.specs.Rooms.{AreShort};
ghost use Rattle.lk_sim_nodes.specs.SimNodes.{SimNodeFits, IsTrapped, device_in, disks_of, stopped_on};
ghost use Rattle.lk_sim_nodes.specs.declared.sim_node.RunState.TheVariants.{Down};

use lk_disk::{Trap, Trapped};
use lk_memory_disk::MemoryDisk;
use lk_replica::MemoryReplica;
use lk_types::NodeNo;
use std::alloc::Global;
use std::mem;

/// Whether a node is up, as a replica, or down, with only its disks left.
#[derive(Drop)]
pub enum RunState<R: Drop> {
    Up(R),
    Down(MemoryDisk),
}

/// A node of a world from its first start on: its number, and whether it is up.
#[derive(Drop)]
pub struct SimNode<R: Drop> {
    pub number: NodeNo,
    pub run_state: RunState<R>,
}

// Takes the replica or the device out of it, and leaves it down with empty disks.
fn vacate<R: Drop>(alloc: Global, sim_node: &mut SimNode<R>) -> RunState<R>
    ensures run_state { result ≡ sim_node.old.run_state }
    ensures number { sim_node.new.number ≡ sim_node.old.number }
{
    mem::replace(
        &mut sim_node.run_state,
        RunState::Down(MemoryDisk::new(alloc)),
    )
}

/// Takes the device out of the node, up or down, and leaves it down with empty disks.
pub fn remove_device<R: MemoryReplica>(alloc: Global, sim_node: &mut SimNode<R>) -> MemoryDisk
    ensures number { sim_node.new.number ≡ sim_node.old.number }
    ensures is { result ≡ device_in R.behaves sim_node.old.run_state }
    ensures fits { (h : History) (w : PaxosState) → SimNodeFits R.Shows (disks_by R.behaves) R.meaning h w sim_node.old
        → DisksFit R.meaning h sim_node.old.number (disk_of result) }
    ensures room { (h : History) (w : PaxosState) → SimNodeFits R.Shows (disks_by R.behaves) R.meaning h w sim_node.old
        → AreShort (disk_of result) }
{
    match vacate(alloc, sim_node) {
        RunState::Up(replica) => replica.into_disks(),
        RunState::Down(device) => device,
    }
}

/// Stops the node; its disks A and B keep up to `x` and `y` of their unsynced bytes. A pending trap is gone.
pub fn stop<R: MemoryReplica>(alloc: Global, sim_node: &mut SimNode<R>, x: usize, y: usize)
    ensures number { sim_node.new.number ≡ sim_node.old.number }
    // Every history and Paxos state that explains the node and its disks still does.
    ensures fits { (h : History) (w : PaxosState) → SimNodeFits R.Shows (disks_by R.behaves) R.meaning h w sim_node.old
        → SimNodeFits R.Shows (disks_by R.behaves) R.meaning h w sim_node.new }
    ensures stopped { sim_node.new.run_state ≡ Down (stopped_on x y (device_in R.behaves sim_node.old.run_state)) }
{
    let mut device = remove_device(alloc, sim_node);
    device.stop(x, y);
    device.trap(Trap::Off);
    sim_node.run_state = RunState::Down(device);
}

/// Sets the trap of the node's device, up or down, in place of a pending one.
pub fn set_trap<R: MemoryReplica>(sim_node: &mut SimNode<R>, trap: Trap)
    ensures number { sim_node.new.number ≡ sim_node.old.number }
    ensures fits { (h : History) (w : PaxosState) → SimNodeFits R.Shows (disks_by R.behaves) R.meaning h w sim_node.old
        → SimNodeFits R.Shows (disks_by R.behaves) R.meaning h w sim_node.new }
    ensures trapped { IsTrapped R.behaves sim_node.old sim_node.new trap }
{
    match &mut sim_node.run_state {
        RunState::Up(replica) => replica.trap(trap),
        RunState::Down(device) => device.trap(trap),
    }
}

/// Returns how many bytes the disks A and B have, synced or not.
pub fn lengths<R: MemoryReplica>(sim_node: &SimNode<R>) -> (usize, usize)
    ensures a { result.0 ≡ length (contents (disks_of (disks_by R.behaves) sim_node.now.run_state A)) }
    ensures b { result.1 ≡ length (contents (disks_of (disks_by R.behaves) sim_node.now.run_state B)) }
{
    match &sim_node.run_state {
        RunState::Up(replica) => replica.device().lengths(),
        RunState::Down(device) => device.lengths(),
    }
}
