// What a node writes as the Base of the other file, and how it then drops what the Base's snapshot replaces.
ghost use Rattle.std.specs.Prelude.{◌≡◌, ◌≤◌, ◌↔◌, IsTrue, IfOk};
ghost use Rattle.lk_types.specs.Limits.{max_base_of};
ghost use Rattle.lk_log.specs.Stores.{FitsBase, base_room};
ghost use Rattle.lk_state.specs.Packed.{packed};
ghost use Rattle.lk_node.specs.NewBases.{standing_of, with_snapshot, IsSnapshotOld};
ghost use Rattle.lk_node.specs.Reaching.{HoldsNear};

use crate::node::Node;
use lk_acceptor::votes_above;
use lk_learner::copied_pairs;
use lk_state::Machine;
use lk_store_format::Standing;
use lk_types::NoMemory;

impl<M: Machine> Node<M> {
    /// Returns what the Base of the other file is to hold: everything that the node holds, with a snapshot of its state
    /// in place of what it has executed. Changes nothing in the node: see `set_snapshot`.
    pub fn standing(&self) -> Result<Standing, NoMemory>
        ensures value { IfOk result (λ s. s ≡ standing_of self.now) }
        ensures may { IfOk result FitsBase }
        // Its Base is no longer than one of this alpha may be.
        ensures short { IfOk result (λ s. base_room s ≤ max_base_of self.now.acceptor.alpha) }
        ensures near { HoldsNear self.now }
    {
        self.acceptor.facts();
        self.learner.facts();
        let executed = self.learner.whole().executed();
        let snapshot = self.learner.pack_now()?.as_slice().to_vec(self.alloc)?;
        let votes = votes_above(self.alloc, self.acceptor.votes(), executed)?;
        let pairs = copied_pairs(self.alloc, self.learner.pairs())?;
        Ok(Standing {
            promised: self.acceptor.promised(),
            position: executed,
            snapshot,
            votes,
            pairs,
        })
    }

    /// Whether so many positions are executed above the snapshot that a rebase is due: 256, or 16 times alpha if that
    /// is more.
    pub fn is_snapshot_old(&self) -> bool
        ensures { IsTrue result ↔ IsSnapshotOld self.now }
    {
        let snapshot = self.acceptor.snapshot_position().get();
        let span = 16 * u64::from(self.header.genesis().alpha);
        self.learner.whole().executed().get() >= snapshot + span.max(256)
    }

    /// Replaces the votes and commands of executed positions by a snapshot of the state, of this packed text. Call it
    /// once the store has that snapshot. Takes no memory.
    pub fn set_snapshot(&mut self, snapshot: Vec<u8>)
        requires text { snapshot.items ≡ packed self.old.learner.whole }
        ensures { self.new ≡ with_snapshot self.old }
    {
        let executed = self.learner.whole().executed();
        self.nothing_to_propose = false;
        self.acceptor.forget(executed);
        self.learner.set_snapshot(snapshot);
    }
}
