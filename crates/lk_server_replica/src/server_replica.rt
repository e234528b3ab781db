//! The interface by which a server runs a replica.

ghost use Rattle.std.specs.Prelude.{◌≡◌, ℕ, List, [], ◌∷◌, Option, Bool, true, false, IfOk, OnOk, OnErr, IfErr, IfSome};
ghost use Rattle.lk_node_interface.specs.Envelopes.{EnvelopeValue};
ghost use Rattle.lk_node.specs.Calls.{heard_by};
ghost use Rattle.lk_node_interface.specs.declared.input.Input.{Input as InputValue};
ghost use Rattle.lk_locks.specs.Plain.{Table};
ghost use Rattle.lk_types.specs.declared.member.Member.{Member};
ghost use Rattle.lk_replica.specs.Groups.{GroupValue, IsGathered};
ghost use Rattle.lk_replica.specs.Posts.{GivesEnvelopes, TellsSends};
ghost use Rattle.lk_state.specs.Packed.{packed};
ghost use Rattle.lk_probe.specs.declared.state_digest.StateDigest.{StateDigest as StateDigestValue};
ghost use Rattle.lk_server_replica.specs.Sayings.{GathersOf, SaysOf};
ghost use Rattle.lk_server_replica.specs.Groups.{GathersMore, SaysNoMore};
ghost use Rattle.lk_server_replica.specs.Showing.{IsShown};
ghost use Rattle.lk_server_replica.specs.Refusals.{IsOfGroups};
ghost use Rattle.lk_server_replica.specs.Statuses.{IsStatusOf};
ghost use Rattle.lk_server_replica.specs.StateDigests.{KeepsDigestOf};
ghost use Rattle.lk_server_replica.specs.Tables.{greatest_of, members_of, table_of};
ghost use Rattle.lk_server_replica.specs.TableVersions.{TellsRaised};
ghost use Rattle.lk_server_replica.specs.declared.probed_state.ProbedState.{ProbedState as ProbedStateValue};
ghost use Rattle.lk_server_replica.specs.declared.replica_status.ReplicaStatus.{ReplicaStatus as ReplicaStatusValue};

use crate::probed_state::{ProbedState, next_members};
use crate::replica_status::ReplicaStatus;
use crate::state_digests::next_digest;
use crate::table_machine::TableMachine;
use crate::table_version::is_raised;
use lk_disk::LogDisk;
use lk_locks::LockTable;
use lk_node_interface::{Input, Post, ReplicaFault};
use lk_probe::StateDigest;
use lk_replica::{Group, Replica};
use lk_types::{Members, NodeNo};
use std::alloc::Global;

/// A replica as a server runs it: it takes its input in groups.
pub trait ServerReplica: Sized + Drop {
    /// Whether a failed call has ended it.
    ghost failed: { Self → Bool };

    /// The effect of a group: the replica before, its inputs (the bytes of a datagram, or nothing for a tick or a
    /// nudge), the envelopes that they produce, and the replica after.
    ghost Says: { Self → List (Option (List ℕ)) → List EnvelopeValue → Self → Type 0 };

    /// The middle of a group: the replica when the group began, its input since, the group so far, and the replica
    /// now.
    ghost Gathers: { Self → List (Option (List ℕ)) → GroupValue → Self → Type 0 };

    /// A call of `add_step` that succeeded: the replica and the group before it, its input, and both after it.
    ghost Takes: { Self → GroupValue → InputValue → Self → GroupValue → Type 0 };

    /// Whether this is a summary of its state.
    ghost HasStatus: { Self → ReplicaStatusValue → Type 0 };

    /// Whether it may show this state to a probe.
    ghost Shows: { Self → ProbedStateValue → Type 0 };

    /// Whether it may return this from `is_raised`.
    ghost IsRaised: { Self → Bool → Type 0 };

    /// The lock table that it has executed.
    ghost table: { Self → Table };

    /// Whether its server, which kept the first of these digests, may now keep the second.
    ghost KeepsDigest: { Self → StateDigestValue → StateDigestValue → Type 0 };

    /// The greatest number that was ever a member's, by what it has executed.
    ghost greatest: { Self → ℕ };

    /// The members of the next position, by what it has executed.
    ghost members: { Self → List Member };

    /// Returns an empty group, for `add_step` and `sync_and_send`.
    fn new_group(&self, alloc: Global) -> Group
        ensures empty { Gathers self.now [] result self.now };

    /// Takes a tick, a nudge or a datagram into a group, as `Replica::add_step` does. Nothing is sent before
    /// `sync_and_send`, and nothing of a rejected group ever is. Any error ends the replica.
    fn add_step(&mut self, input: Input, group: &mut Group) -> Result<(), ReplicaFault>
        // The group goes on with one input more.
        ensures gathers { OnOk result
            (GathersMore Gathers (heard_by input.entry ∷ []) group.old group.new self.old self.new) }
        // It has taken exactly this input: a tick is no nudge.
        ensures takes { OnOk result (Takes self.old group.old input.entry self.new group.new) }
        // The group ends, and has said nothing.
        ensures silent { OnErr result
            (SaysNoMore Says Gathers (heard_by input.entry ∷ []) group.old self.old self.new) }
        ensures broken { OnErr result (failed self.new ≡ true) }
        ensures told { IfErr result IsOfGroups };

    /// Ends a group, as `Replica::sync_and_send` does: syncs if a promise or vote waits for that, then gives the
    /// envelopes to the post. Returns whether all were sent. Any error ends the replica.
    fn sync_and_send<P: Post>(&mut self, group: &Group, post: &mut P) -> Result<bool, ReplicaFault>
        // It gives its envelopes to the post in order, each once, and nothing else.
        ensures hands { OnOk result
            (GivesEnvelopes P.Carries post.old post.new
            (λ envelopes. (start : Self) (given : List (Option (List ℕ))) → Gathers start given group.now self.old
            → Says start given envelopes self.new)) }
        // After an error it produces nothing, and gives the post nothing.
        ensures silent { OnErr result
            ((start : Self) (given : List (Option (List ℕ))) → Gathers start given group.now self.old
            → Says start given [] self.new) }
        ensures unsent { OnErr result (post.new ≡ post.old) }
        ensures tells { IfOk result (λ all. TellsSends all (P.failures post.old) (P.failures post.new)) }
        ensures alive { OnOk result (failed self.new ≡ false) }
        ensures broken { OnErr result (failed self.new ≡ true) }
        ensures told { IfErr result IsOfGroups };

    /// Returns a summary of its state.
    fn status(&self) -> ReplicaStatus
        ensures { HasStatus self.now result };

    /// Returns what it shows to a probe.
    fn show(&self) -> ProbedState
        ensures { Shows self.now result };

    /// Returns whether its lock table was raised to the second version, or `None` if it is out of memory. It packs and
    /// unpacks its state, which is expensive.
    fn is_raised(&self, alloc: Global) -> Option<bool>
        ensures { IfSome result (IsRaised self.now) };

    /// Returns the lock table that it has executed.
    fn table(&self) -> &LockTable
        ensures { result.now ≡ table self.now };

    /// Returns the digest that its server keeps after a step: that of its state at each multiple of 64 positions, else
    /// `kept`. Out of memory it returns `kept`, and takes the digest at the next step, unless that executes more.
    fn next_digest(&self, kept: StateDigest) -> StateDigest
        ensures { KeepsDigest self.now kept result };

    /// Returns the greatest number that was ever a member's, by what it has executed.
    fn greatest(&self) -> NodeNo
        ensures { result ≡ greatest self.now };

    /// Returns the members of the next position, by what it has executed.
    fn members(&self) -> &Members
        ensures { result.now ≡ members self.now };
}

impl<M: TableMachine, D: LogDisk + Drop> ServerReplica for Replica<M, D> {
    ghost failed = { λ r. r.failed };

    ghost Says = { λ old given envelopes new. D.is_honest
        → SaysOf M.meaning M.IsText D.is_metered old given envelopes new };

    ghost Gathers = { λ start given group now. D.is_honest
        → GathersOf M.meaning M.IsText D.is_metered start given group now };

    ghost Takes = { λ old before input new now. D.is_honest
        → IsGathered M.meaning M.IsText D.is_metered old.node old.store before input new.node new.store now };

    ghost HasStatus = { IsStatusOf };

    ghost Shows = { IsShown };

    ghost IsRaised = { λ r. TellsRaised M.meaning M.IsText (packed r.node.learner.whole) };

    ghost table = { table_of };

    ghost KeepsDigest = { KeepsDigestOf };

    ghost greatest = { greatest_of };

    ghost members = { members_of };

    fn new_group(&self, alloc: Global) -> Group {
        Group::new(alloc)
    }

    fn add_step(&mut self, input: Input, group: &mut Group) -> Result<(), ReplicaFault> {
        Replica::add_step(self, input, group)
    }

    fn sync_and_send<P: Post>(
        &mut self,
        group: &Group,
        post: &mut P,
    ) -> Result<bool, ReplicaFault> {
        Replica::sync_and_send(self, group, post)
    }

    fn status(&self) -> ReplicaStatus {
        let node = self.node();
        ReplicaStatus {
            generation: self.generation(),
            snapshot: node.snapshot_position(),
            executed: node.executed(),
            gathered: node.gathered_bytes(),
            term: node.term(),
            known: node.presumed_leader(),
            silence: u64::from(node.ticks()),
        }
    }

    fn show(&self) -> ProbedState {
        ProbedState::of(self)
    }

    fn is_raised(&self, alloc: Global) -> Option<bool> {
        is_raised(alloc, self.node())
    }

    fn table(&self) -> &LockTable {
        self.node().machine().table()
    }

    fn next_digest(&self, kept: StateDigest) -> StateDigest {
        next_digest(self.node(), kept)
    }

    fn greatest(&self) -> NodeNo {
        self.node().roster().greatest()
    }

    fn members(&self) -> &Members {
        next_members(self.node().roster())
    }
}
