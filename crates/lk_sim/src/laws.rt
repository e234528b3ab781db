//! A law about networks of processes: everything guaranteed of a world holds of them too.
ghost use Rattle.std.specs.Prelude.{List};
ghost use Rattle.lk_types.specs.declared.genesis.Genesis.{Genesis as GenesisValue};
ghost use Rattle.lk_replica.specs.Behaviours.{disks_by};
ghost use Rattle.lk_sim.specs.Networks.{StepsAll, nothing};
ghost use Rattle.lk_sim.specs.Guarantees.{WorldGuarantee};
ghost use Rattle.lk_sim.specs.WorldStates.{WorldState};

use lk_replica::MemoryReplica;

/// Whatever the processes of a network have done, one step at a time in any order (`StepsAll`), everything that is
/// guaranteed of a world holds of them. So the guarantee does not rest on how the simulator executes events.
pub fn networks_guarantee_what_worlds_do<R: MemoryReplica>()
    ensures { (genesis : GenesisValue) (world_states : List (WorldState R)) (last : WorldState R)
        → StepsAll R.Shows (disks_by R.behaves) R.meaning (nothing genesis) world_states last
        → WorldGuarantee R.behaves R.whole R.meaning last }
{}
