// The replica: a node and its store.
ghost use Rattle.std.specs.Prelude.{◌≡◌, ◌≤◌, true, IfErr, IsErrAnd, IsErrOf};
ghost use Rattle.lk_types.specs.Limits.{max_count};
ghost use Rattle.lk_disk.specs.declared.device.Side.{Side};
ghost use Rattle.lk_disk.specs.Meters.{trapped};
ghost use Rattle.lk_log.specs.StoreValue.{disks};
ghost use Rattle.lk_recovery.specs.Compacting.{IsDue};
ghost use Rattle.lk_node.specs.Calls.{InputFits};
ghost use Rattle.lk_replica.specs.Posts.{GivesEnvelopes, SendsAs, RefusesSends};
ghost use Rattle.lk_replica.specs.Taking.{GivesBy, IsRefused, StaysUp};
ghost use Rattle.lk_recovery.specs.Rebased.{LeavesDisks};
ghost use Rattle.lk_node_interface.specs.Faults.{fault_number, CountsFailures, IfGoesOn, WantsNoMemory};
ghost use Rattle.lk_recovery.specs.Rooms.{max_after};

use crate::grouping::Group;
use lk_disk::{LogDisk, Trap, Trapped};
use lk_log::Store;
use lk_node::Node;
use lk_node_interface::{Input, Note, Post, ReplicaFault};
use lk_state::Machine;
use std::alloc::Global;
use std::marker::Model;

/// A node with the store that saves what it promises, votes and learns.
#[derive(Drop)]
pub struct Replica<M: Machine, D: LogDisk + Drop> {
    pub(crate) alloc: Global,
    pub(crate) node: Node<M>,
    pub(crate) store: Store<D>,
    // Set at the start of a call and cleared once it succeeds, so that an early return with an error leaves it set.
    pub(crate) failed: bool,
}

impl<M: Machine, D: LogDisk + Drop> Model for Replica<M, D> {
    ghost use Rattle.std.specs.Prelude.{◌≡◌, false};
    ghost use Rattle.lk_node.specs.Executing.{NothingToRun};
    ghost use Rattle.lk_replica.specs.ReplicaValue.{ReplicaValue};

    ghost Value = { ReplicaValue };

    // It has executed what it could, and its store has format 2.
    ghost invariant = { λ r. (r.failed ≡ false → NothingToRun r.node) × (r.store.format ≡ 2) };

    ghost view = { λ r. record { node = r.node; store = r.store; failed = r.failed } };
}

impl<M: Machine, D: LogDisk + Drop> Replica<M, D> {
    /// Takes an input, as a group of one: the step's entries are written, and synced if a promise or a vote is among
    /// them, before anything is sent.
    ///
    /// It fails with `Device` (7), `NoMemory` (8) and `Halted` (14), and with `Failed` (11) if it has to rebase at
    /// generation 2^48; after that every call fails with `Failed` (11). With `Send` (15) some datagrams are lost, and
    /// the replica goes on.
    pub fn take<P: Post>(&mut self, input: Input, post: &mut P) -> Result<Vec<Note>, ReplicaFault>
        // Envelopes were given to the post in order, each once, and nothing else. If it goes on, it has then written
        // the outbox of its step and returned its notes, and these are the step's envelopes: what it holds permits all
        // of them. Sync before send: whatever the post, every image covers what it was given. Under `Send` the
        // envelopes whose send failed are lost.
        ensures gives { GivesEnvelopes P.Carries post.old post.new
            (λ envelopes. D.is_honest → GivesBy M.meaning M.IsText D.is_metered self.old
            input.entry self.new result envelopes
            (λ all. P.is_observable → SendsAs result all (P.sent post.old) (P.sent post.new) (P.failures post.old)
            (P.failures post.new))) }
        ensures alive { IfGoesOn result (λ notes. StaysUp D.is_honest self.old self.new) }
        // What is on the disks, however it ends: neither file has grown beyond half of its maximum and one step, nor
        // by more than a step except by a Base.
        ensures disks { D.is_honest
            → LeavesDisks M.meaning (λ h. InputFits h input.entry) max_after self.old.node
            self.old.store (disks self.new.store) }
        // It fails only with 7, 8, 11, 14 or 15, each for its cause, and all but 15 end it.
        ensures refused { IfErr result (λ e. IsRefused D.is_honest D.is_metered self.old self.new (fault_number e)) }
        // Under `Send` some sends have failed; under any other error nothing was given to the post.
        ensures sends { IfErr result
            (λ e. RefusesSends (fault_number e) post.old post.new (P.failures post.old) (P.failures post.new)) }
        // It fails with `Device` exactly if a call of the device has failed.
        ensures cause { CountsFailures self.old.store.failures self.new.store.failures result }
        ensures failed { self.old.failed ≡ true → IsErrOf result ReplicaFault.Failed }
        // If a rebase is due at generation 2^48, it fails with `Failed`, even if it is out of memory, or with `Device`
        // if the device fails.
        ensures last { D.is_honest → max_count ≤ self.old.store.generation → IsDue self.old.node self.old.store
            → IsErrAnd result (λ e. WantsNoMemory (fault_number e)) }
    {
        let mut group = Group::new(self.alloc());
        self.add_step(input, &mut group)?;
        let all = self.sync_and_send(&group, post)?;
        let notes = group.into_notes();
        if !all {
            return Err(ReplicaFault::Send(notes));
        }
        Ok(notes)
    }
}

impl<M: Machine, D: LogDisk + Drop> Replica<M, D> {
    /// Returns whether it has ended: then every call fails with `Failed`, until it restarts from its disks.
    pub fn ended(&self) -> bool
        ensures { result ≡ self.now.failed }
    {
        self.failed
    }

    /// The node.
    pub fn node(&self) -> &Node<M>
        ensures { result.now ≡ self.now.node }
    {
        &self.node
    }

    /// The generation of its store.
    pub fn generation(&self) -> u64
        ensures { result ≡ self.now.store.generation }
    {
        self.store.generation()
    }

    /// The format of its store, 1 or 2.
    pub fn format(&self) -> u8
        ensures { result ≡ self.now.store.format }
    {
        self.store.format()
    }

    /// The device.
    pub fn device(&self) -> &D
        ensures disks { (s : Side) → D.disk result.now s ≡ disks self.now.store s }
        ensures failures { D.failures result.now ≡ self.now.store.failures }
        ensures meter { D.meter result.now ≡ self.now.store.meter }
    {
        self.store.device()
    }

    // Its allocator.
    pub(crate) fn alloc(&self) -> Global {
        self.alloc
    }

    /// Closes the replica and returns its device, with both files as they are.
    pub fn into_disks(self) -> D
        ensures disks { (s : Side) → D.disk result s ≡ disks self.store s }
        ensures failures { D.failures result ≡ self.store.failures }
        ensures meter { D.meter result ≡ self.store.meter }
    {
        let Replica {
            alloc: _,
            node: _,
            store,
            failed: _,
        } = self;
        store.into_disks()
    }
}

impl<M: Machine, D: Trapped + Drop> Replica<M, D> {
    /// Sets the trap of the device, the call at which it is to fail or stop, in place of a pending one. It changes no
    /// disk.
    pub fn trap(&mut self, trap: Trap)
        ensures node { self.new.node ≡ self.old.node }
        ensures store { D.is_honest → D.is_metered
            → self.new.store ≡ record self.old.store { meter = trapped trap self.old.store.meter } }
        ensures failures { self.new.store.failures ≡ self.old.store.failures }
        ensures failed { self.new.failed ≡ self.old.failed }
    {
        self.store.trap(trap);
    }
}
