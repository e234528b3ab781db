//! The modes of a script: a lock table, or a world of replicas.

use crate::table_run::TableRun;
use crate::world_run::WorldRun;
use lk_replica::MemoryReplica;

/// The mode of a script, with what it has set up so far.
#[derive(Drop)]
pub enum Mode<R: MemoryReplica> {
    /// Nothing yet.
    Unset,
    /// One lock table.
    Table(TableRun),
    /// A world of replicas.
    World(WorldRun<R>),
}
