//! Replicas on disks in memory, for tests.

use lk_locks::LockTable;
use lk_memory_disk::MemoryDisk;
use lk_recovery::ReviveFault;
use lk_replica::{MemoryReplica, Replica};
use lk_store_format::Header;
use lk_types::{Genesis, Member, NodeNo, Port};
use std::alloc::Global;
use std::test::Fail;

/// A replica of the lock table.
pub type Locks = Replica<LockTable, MemoryDisk>;

fn member(node: u16) -> Result<Member, Fail> {
    let port = Port::of(node.saturating_add(7000)).ok_or("port")?;
    let node = NodeNo::of(u32::from(node)).ok_or("node")?;
    Ok(Member { node, port })
}

// The header of a node in cluster 5, which began with so many members, each at port 7000 and its number.
fn header(node: u32, alpha: u8, count: usize) -> Result<Header, Fail> {
    let mut members = [Member::default(); 7];
    for place in 0..7u16 {
        members[place as usize] = member(place + 1)?;
    }
    let genesis = Genesis::of(5, alpha, members.get(..count).ok_or("members")?)?;
    Ok(Header::new(NodeNo::of(node).ok_or("node")?, genesis))
}

fn revived(alloc: Global, device: MemoryDisk, header: &Header) -> Result<Locks, Fail> {
    match MemoryReplica::revive(alloc, device, header) {
        Ok(revived) => Ok(revived.replica),
        Err(ReviveFault { .. }) => Err("revived")?,
    }
}

/// The node's replica on empty disks, in a cluster that began with so many members.
pub fn begun(alloc: Global, node: u32, alpha: u8, count: usize) -> Result<Locks, Fail> {
    revived(alloc, MemoryDisk::new(alloc), &header(node, alpha, count)?)
}
