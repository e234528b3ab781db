// Implements `MemoryReplica` for a replica whose disks are in memory.
ghost use Rattle.std.specs.Prelude.{◌≡◌, [], refl};
ghost use Rattle.lk_disk.specs.Meters.{trapped};
ghost use Rattle.lk_replica.specs.ReplicaValue.{device_of};
ghost use Rattle.lk_node.specs.Keeping.{ReplicaHolds};
ghost use Rattle.lk_replica.specs.Compacted.{CompactsTo};
ghost use Rattle.lk_replica.specs.Revived.{RevivesTo};
ghost use Rattle.lk_replica.specs.Taking.{ComesTo};
ghost use Rattle.lk_replica.specs.Together.{ComesToAll};

use crate::grouping::Group;
use crate::memory_post::{MemoryPost, datagrams};
use crate::memory_replica::{MemoryReplica, Revived};
use crate::replica::Replica;
use crate::taken::{Taken, TakenAll};
use lk_disk::{LogDisk, Trap};
use lk_memory_disk::MemoryDisk;
use lk_node_interface::{Input, ReplicaFault};
use lk_recovery::ReviveFault;
use lk_state::Machine;
use lk_store_format::Header;
use lk_types::{NoMemory, NodeNo};
use std::alloc::Global;

impl<M: Machine, D: LogDisk + Drop> Replica<M, D> {
    // Returns the number of its node.
    fn number(&self) -> NodeNo
        ensures { result ≡ self.now.node.header.node }
    {
        self.node.header().node()
    }

    // Returns a post without envelopes.
    fn empty_post(&self) -> MemoryPost
        ensures { result ≡ record { envelopes = []; failures = 0 } }
    {
        MemoryPost::new(self.alloc)
    }
}

impl<M: Machine> MemoryReplica for Replica<M, MemoryDisk> {
    ghost meaning = { M.meaning };

    ghost Shows = { λ r genesis n x. ReplicaHolds M.meaning r.node r.store genesis n x };

    ghost behaves = { record {
      memory = λ r. device_of r.store;
      with_trap = λ t r. record r { store = record r.store { meter = trapped t r.store.meter } };
      Takes = λ old i new came. ComesTo M.meaning M.IsText old i new came;
      TakesAll = λ old inputs new came. ComesToAll M.meaning M.IsText old inputs new came;
      Revives = λ device whose came. RevivesTo M.meaning M.IsText device whose came;
      Compacts = λ old new came. CompactsTo M.meaning old new came;
    } };

    ghost whole = { λ r. r.node.learner.whole };

    fn revive(
        alloc: Global,
        device: MemoryDisk,
        header: &Header,
    ) -> Result<Revived<Self>, ReviveFault<MemoryDisk>> {
        Replica::<M, MemoryDisk>::revive(alloc, device, header)
    }

    fn take(&mut self, input: Input) -> Result<Taken, ReplicaFault> {
        let node = self.number();
        let mut post = self.empty_post();
        let notes = Replica::take(self, input, &mut post)?;
        match post.into_datagrams(node) {
            Ok(sent) => Ok(Taken { notes, sent }),
            // No datagram could be made of the envelopes, so all of them are lost.
            Err(NoMemory) => Err(ReplicaFault::Send(notes)),
        }
    }

    fn take_all(&mut self, inputs: Vec<Input<'_>>) -> Result<TakenAll, ReplicaFault> {
        let node = self.number();
        let alloc = self.alloc();
        let mut group = Group::new(alloc);
        let mut steps = Vec::new(alloc);
        'inputs: for input in inputs {
            let before = group.envelopes().len();
            self.add_step(input, &mut group)?;
            let step = group.drain_step(alloc, before);
            self.keep(&mut steps, step)?;
        }
        self.sync_group(group.needs_sync(), group.needs_flush())?;
        match datagrams(alloc, node, group.into_envelopes()) {
            Ok(sent) => Ok(TakenAll { steps, sent }),
            // No datagram could be made of the envelopes, so all of them are lost, and the notes too.
            Err(NoMemory) => Err(ReplicaFault::Send(Vec::new(alloc))),
        }
    }

    fn compact(&mut self) -> Result<(), ReplicaFault> {
        Replica::compact(self)
    }

    fn device(&self) -> &MemoryDisk {
        Replica::device(self)
    }

    fn trap(&mut self, trap: Trap) {
        Replica::trap(self, trap);
    }

    fn into_disks(self) -> MemoryDisk {
        Replica::into_disks(self)
    }

    ghost sums_up = { λ r genesis n x shown. shown.held.follows.sums };

    ghost packed = { λ old new genesis n x shown done. done.stands genesis n x shown };

    ghost traps_alone = { λ t r. refl };

    ghost shows_on = { λ t r genesis n x shown. record {
      whose = shown.whose;
      keeps = record {
        entries = shown.keeps.entries;
        loose = shown.keeps.loose;
        holds = record {
          on = shown.keeps.holds.on;
          generation_is = shown.keeps.holds.generation_is;
          format_is = shown.keeps.holds.format_is;
          header_is = shown.keeps.holds.header_is;
        };
        decided = shown.keeps.decided;
        header = shown.keeps.header;
        standing = shown.keeps.standing;
        stands = shown.keeps.stands;
        remembers = shown.keeps.remembers;
      };
      known = shown.known;
      held = shown.held;
      told = shown.told;
    } };

    ghost whole_stays = { λ t r. refl };
}
