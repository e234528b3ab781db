// Steps of a group: their entries are written unsynced, and synced once before their envelopes are sent.
ghost use Rattle.std.specs.Prelude.{◌≡◌, ℕ, ◌-◌, ◌<◌, ◌≤◌, ◌||◌, Bool, List, [], ◌++◌, length, true, false, Contains};
ghost use Rattle.std.specs.Prelude.{IfErr, IfOk, IsOk, OnOk, OnErr, IsErrAnd, IsErrOf, ⊤};
ghost use Rattle.lk_types.specs.Limits.{max_base_of, max_count};
ghost use Rattle.lk_disk.specs.Disk.{contents};
ghost use Rattle.lk_disk.specs.Meters.{CallsSucceed};
ghost use Rattle.lk_store_format.specs.declared.stored.Stored.{Stored};
ghost use Rattle.lk_log.specs.Rooms.{StaysWithin};
ghost use Rattle.lk_log.specs.StoreValue.{disks};
ghost use Rattle.lk_log.specs.Stores.{HoldsEntries, KeepsAtLeast, KeepsItsFile};
ghost use Rattle.lk_messages.specs.Grammar.{Spells};
ghost use Rattle.lk_agreement_laws.specs.Datagrams.{NodeMessage, Datagram as DatagramValue, said_by};
ghost use Rattle.lk_node_interface.specs.Envelopes.{EnvelopeValue, batch_of};
ghost use Rattle.lk_node.specs.Calls.{InputFits, NodeFits};
ghost use Rattle.lk_node.specs.Executing.{NothingToRun};
ghost use Rattle.lk_node.specs.Histories.{History, Genesis};
ghost use Rattle.lk_node.specs.Keeping.{ReplicaHolds};
ghost use Rattle.lk_node.specs.Leavings.{AllCover};
ghost use Rattle.lk_node_interface.specs.Faults.{CountsFailures, WantsNoMemory, fault_number};
ghost use Rattle.lk_recovery.specs.Compacting.{AreLeft, AreSame, IsDue, KeepsOrSwitchesFiles};
ghost use Rattle.lk_replica.specs.Groups.{Adds, IsGroupCovered, LeavesInGroup, KeepsGroup, MakesRoom, StepsToFile};
ghost use Rattle.lk_replica.specs.Groups.{IsGathered, IsGroupSynced, IsRefusedInGroup, empty_group, sync_calls};
ghost use Rattle.lk_replica.specs.Groups.{with_step, SyncsIfNeeded, RemembersInGroup, GroupFits};
ghost use Rattle.lk_replica.specs.Groups.{GroupLeavesFit, RoomKeepsGroup, StepKeepsGroup, StepLeavesInGroup};
ghost use Rattle.lk_replica.specs.Groups.{FitsOnceSynced, LeavesFitOnceSynced};
ghost use Rattle.lk_replica.specs.Posts.{AreOf, IsDelivered};
ghost use Rattle.lk_recovery.specs.Rebased.{IsNotWritten, StaysAlive};
ghost use Rattle.lk_recovery.specs.Rooms.{GrowsFromBase, max_after};
ghost use Rattle.lk_replica.specs.Taking.{BeginsGroup, EndsGroup, IsCutShort};
ghost use Rattle.lk_replica.specs.Writing.{HasGathered, StaysWritten, LeavesGathered, IsNotSynced};

use crate::delivering::deliver;
use crate::replica::Replica;
use crate::taken::Step;
use lk_disk::LogDisk;
use lk_log::Store;
use lk_node::Node;
use lk_node_interface::{Envelope, Input, Note, Outbox, Post, ReplicaFault};
use lk_recovery::{is_rebase_due, write_base};
use lk_state::Machine;
use lk_types::NoMemory;
use std::alloc::Global;
use std::marker::Model;
use std::mem;

/// A group so far: its notes, its envelopes in order, and whether something written waits for a sync, or for a flush.
#[derive(Drop)]
pub struct Group {
    notes: Vec<Note>,
    envelopes: Vec<Envelope>,
    needs_sync: bool,
    needs_flush: bool,
}

impl Model for Group {
    ghost use Rattle.lk_replica.specs.Groups.{GroupValue};

    ghost Value = { GroupValue };

    ghost view = { λ g. record {
      notes = g.notes.items;
      envelopes = g.envelopes.items;
      needs_sync = g.needs_sync;
      needs_flush = g.needs_flush;
    } };
}

impl Group {
    /// An empty group.
    pub fn new(alloc: Global) -> Group
        ensures { result ≡ empty_group }
    {
        Group {
            notes: Vec::new(alloc),
            envelopes: Vec::new(alloc),
            needs_sync: false,
            needs_flush: false,
        }
    }

    /// The notes of the steps, in order.
    pub fn notes(&self) -> &[Note]
        ensures { result.now ≡ self.now.notes }
    {
        &self.notes
    }

    /// The envelopes of the steps, in order.
    pub fn envelopes(&self) -> &[Envelope]
        ensures { result.now ≡ self.now.envelopes }
    {
        &self.envelopes
    }

    /// Whether something written waits for a sync.
    pub fn needs_sync(&self) -> bool
        ensures { result ≡ self.now.needs_sync }
    {
        self.needs_sync
    }

    /// Whether something written may wait for a flush. After a Base nothing does.
    pub fn needs_flush(&self) -> bool
        ensures { result ≡ self.now.needs_flush }
    {
        self.needs_flush
    }

    /// Returns the last step, and removes its notes from the group; its envelopes stay. `before` is how many envelopes
    /// the group had before it. Call this after each step: it takes all notes that the group has.
    pub fn drain_step(&mut self, alloc: Global, before: usize) -> Step
        ensures notes { result.notes.items ≡ self.old.notes }
        ensures sends { result.sends ≡ length self.old.envelopes - before }
        ensures others { self.new ≡ record self.old { notes = [] } }
    {
        Step {
            notes: mem::replace(&mut self.notes, Vec::new(alloc)),
            sends: self.envelopes.len().saturating_sub(before),
        }
    }

    /// Returns the notes of the steps, in order.
    pub fn into_notes(self) -> Vec<Note>
        ensures { result.items ≡ self.notes }
    {
        self.notes
    }

    /// Returns the envelopes of the steps, in order.
    pub fn into_envelopes(self) -> Vec<Envelope>
        ensures { result.items ≡ self.envelopes }
    {
        self.envelopes
    }

    /// Appends the notes and envelopes of a step. `needs_sync` is whether something waited for a sync before it; after
    /// a rebase nothing waits. Out of memory it may have appended a part, so the caller must end the replica; an empty
    /// group takes a step without memory.
    pub fn add(&mut self, needs_sync: bool, outbox: Outbox) -> Result<(), NoMemory>
        ensures added { OnOk result (self.new ≡ with_step needs_sync outbox self.old) }
        ensures first { self.old ≡ empty_group → IsOk result }
    {
        let Outbox {
            rebase,
            entries: _,
            sync,
            notes,
            envelopes,
        } = outbox;
        append(&mut self.notes, notes)?;
        append(&mut self.envelopes, envelopes)?;
        self.needs_sync = if rebase { false } else { needs_sync || sync };
        self.needs_flush = !rebase;
        Ok(())
    }
}

// Appends more items, without memory where there are none.
fn append<T: Drop>(items: &mut Vec<T>, mut more: Vec<T>) -> Result<(), NoMemory>
    ensures appended { OnOk result (items.new.items ≡ items.old.items ++ more.items) }
    ensures first { items.old.items ≡ [] → IsOk result }
{
    if items.is_empty() {
        *items = more;
        return Ok(());
    }
    items.append(&mut more)?;
    Ok(())
}

/// Syncs the live file if something waits for that, and otherwise gives what was written to the operating system.
pub fn sync_or_flush<D: LogDisk + Drop>(
    store: &mut Store<D>,
    needs_sync: bool,
) -> Result<(), ReplicaFault>
    requires { store.old.format ≡ 2 }
    ensures syncs_all { D.is_honest → OnOk result (SyncsIfNeeded needs_sync store.old store.new) }
    // However it ends, every image that a stop may leave has everything that was synced, and a prefix of the rest.
    ensures every_image { D.is_honest → (ks ls : List Stored) → HoldsEntries store.old ks ls
        → KeepsAtLeast store.new ks ls }
    ensures room { D.is_honest → StaysWithin 0 (disks store.old) (disks store.new) }
    ensures refused { IfErr result (IsNotSynced D.is_honest D.is_metered store.old store.new) }
    ensures metered { D.is_metered → OnOk result (CallsSucceed store.old.meter store.new.meter
        (sync_calls needs_sync)) }
    ensures alive { store.old.failed ≡ false → OnOk result (store.new.failed ≡ false) }
    ensures file { KeepsItsFile store.old store.new }
    ensures format { store.new.format ≡ 2 }
    ensures cause { CountsFailures store.old.failures store.new.failures result }
{
    if !needs_sync {
        store.flush()?;
        return Ok(());
    }
    store.sync()?;
    Ok(())
}

// Writes the entries of an outbox of the node, unsynced; or, if it asks for a rebase, the node's Base in their place.
// The Base holds whatever waits for a sync, so that is not synced first. Sends nothing.
fn write_to_file<M: Machine, D: LogDisk + Drop>(
    node: &mut Node<M>,
    store: &mut Store<D>,
    outbox: &Outbox,
) -> Result<(), ReplicaFault>
    requires { store.old.format ≡ 2 }
    ensures done { D.is_honest
        → OnOk result (HasGathered M.meaning D.is_metered node.old store.old outbox.now node.new store.new) }
    ensures goes { OnOk result (StaysWritten node.old store.old outbox.now node.new store.new) }
    ensures disks { D.is_honest → LeavesGathered node.old store.old outbox.now store.new }
    ensures refused { IfErr result (IsNotWritten D.is_honest D.is_metered store.old store.new) }
    ensures halted { node.new.halted ≡ node.old.halted }
    ensures format { store.new.format ≡ 2 }
    ensures cause { CountsFailures store.old.failures store.new.failures result }
{
    if outbox.rebase {
        write_base(node, store)?;
        return Ok(());
    }
    store.put(&outbox.entries, false)?;
    Ok(())
}

// Gives an input to the node, and writes the entries of its outbox unsynced; or, if the outbox asks for a rebase (a
// snapshot was installed), the node's Base in their place, whatever waits for a sync. Sends nothing.
fn step_to_file<M: Machine, D: LogDisk + Drop>(
    node: &mut Node<M>,
    store: &mut Store<D>,
    input: Input,
) -> Result<Outbox, ReplicaFault>
    requires { store.old.format ≡ 2 }
    ensures keeps { D.is_honest → (needs_sync : Bool)
        → IfOk result (λ o. StepKeepsGroup M.meaning
        (λ h. InputFits h input.entry) node.old store.old needs_sync o node.new store.new) }
    ensures disks { D.is_honest → (needs_sync : Bool)
        → StepLeavesInGroup M.meaning
        (λ h. InputFits h input.entry) max_after node.old store.old needs_sync (disks store.new) }
    ensures runs { NothingToRun node.old → OnOk result (NothingToRun node.new) }
    ensures exact { D.is_honest
        → IfOk result (λ o. StepsToFile M.meaning M.IsText D.is_metered node.old store.old input.entry o
        node.new store.new) }
    ensures alive { IfOk result (λ o. (store.new.failed ≡ false) × (node.new.halted ≡ false)) }
    ensures refused { IfErr result
        (IsCutShort D.is_honest D.is_metered 1 node.old store.old node.new store.new (KeepsItsFile store.old store.new)
        (AreSame (disks store.old) (disks store.new))) }
    ensures format { store.new.format ≡ 2 }
    ensures cause { CountsFailures store.old.failures store.new.failures result }
{
    let outbox = node.step(input)?;
    write_to_file(node, store, &outbox)?;
    Ok(outbox)
}

// Rebases if due. The Base holds whatever waits for a sync, so that is not synced first. Returns whether something
// still waits: not after a rebase.
fn make_room<M: Machine, D: LogDisk + Drop>(
    node: &mut Node<M>,
    store: &mut Store<D>,
    needs_sync: bool,
) -> Result<bool, ReplicaFault>
    requires { store.old.format ≡ 2 }
    ensures keeps { D.is_honest
        → IfOk result (RoomKeepsGroup M.meaning node.old store.old needs_sync node.new store.new) }
    ensures disks { D.is_honest
        → LeavesInGroup M.meaning
        (λ h. ⊤) (max_base_of node.old.acceptor.alpha) node.old store.old needs_sync (disks store.new) }
    ensures exact { D.is_honest
        → IfOk result (MakesRoom D.is_metered node.old store.old needs_sync node.new store.new) }
    ensures alive { OnOk result (StaysAlive node.old store.old node.new store.new) }
    ensures refused { IfErr result
        (IsCutShort D.is_honest D.is_metered 1 node.old store.old node.new store.new (KeepsItsFile store.old store.new)
        (AreSame (disks store.old) (disks store.new))) }
    // If a rebase is due at generation 2^48, it fails with `Failed`, even if it is out of memory, or with `Device` if
    // the device fails.
    ensures last { D.is_honest → max_count ≤ store.old.generation → IsDue node.old store.old
        → IsErrAnd result (λ e. WantsNoMemory (fault_number e)) }
    ensures halted { node.new.halted ≡ node.old.halted }
    // Then the live file has room for a step.
    ensures small { D.is_honest → OnOk result (length (contents store.new.live_disk) < 131072) }
    ensures format { store.new.format ≡ 2 }
    ensures cause { CountsFailures store.old.failures store.new.failures result }
{
    let due = is_rebase_due(node, store)?;
    if !due {
        return Ok(needs_sync);
    }
    write_base(node, store)?;
    Ok(false)
}

// Takes one more step of a group: writes its entries, and keeps its notes and envelopes. Sends nothing.
fn step_in_group<M: Machine, D: LogDisk + Drop>(
    node: &mut Node<M>,
    store: &mut Store<D>,
    input: Input,
    group: &mut Group,
) -> Result<(), ReplicaFault>
    requires { store.old.format ≡ 2 }
    ensures goes { D.is_honest
        → OnOk result (Adds group.old group.new
        (λ notes envelopes. (h : History) (n : ℕ) → GroupFits M.meaning h n node.old store.old group.old.needs_sync
        → InputFits h input.entry
        → (sent : List EnvelopeValue) → AreOf sent envelopes
        → GroupLeavesFit M.meaning h n node.new store.new group.new.needs_sync notes (batch_of n sent))) }
    ensures disks { D.is_honest
        → LeavesInGroup M.meaning
        (λ h. InputFits h input.entry) max_after node.old store.old group.old.needs_sync (disks store.new) }
    ensures grows { D.is_honest → GrowsFromBase (disks store.old) (disks store.new) }
    ensures keeps { D.is_honest
        → OnOk result (KeepsGroup M.meaning
        (λ h. InputFits h input.entry) node.old store.old group.old node.new store.new group.new) }
    ensures exact { D.is_honest
        → OnOk result (IsGathered M.meaning M.IsText D.is_metered node.old store.old group.old input.entry
        node.new store.new group.new) }
    // It goes on, and has executed what it could if it had before.
    ensures alive { OnOk result ((store.new.failed ≡ false) × (node.new.halted ≡ false)
        × (NothingToRun node.old → NothingToRun node.new)) }
    // A group that begins fails as a call of `take` does.
    ensures refused { IfErr result
        (IsCutShort D.is_honest D.is_metered 2 node.old store.old node.new store.new
        (group.old ≡ empty_group → KeepsOrSwitchesFiles node.old store.old store.new)
        (group.old ≡ empty_group → AreLeft node.old store.old store.new)) }
    ensures last { D.is_honest → max_count ≤ store.old.generation → IsDue node.old store.old
        → IsErrAnd result (λ e. WantsNoMemory (fault_number e)) }
    ensures format { store.new.format ≡ 2 }
    ensures cause { CountsFailures store.old.failures store.new.failures result }
{
    let needs_sync = make_room(node, store, group.needs_sync)?;
    let outbox = step_to_file(node, store, input)?;
    group.add(needs_sync, outbox)?;
    Ok(())
}

impl<M: Machine, D: LogDisk + Drop> Replica<M, D> {
    /// Takes an input into a group. Nothing is sent before `sync_and_send`, and the step's entries are synced only
    /// there, unless a Base is written, which holds them: before the step if a rebase is due, after it for an installed
    /// snapshot.
    ///
    /// It fails as `take` does, but never with `Send`, and after that every call fails with `Failed` (11): nothing of
    /// the group is sent.
    pub fn add_step(&mut self, input: Input, group: &mut Group) -> Result<(), ReplicaFault>
        // In each history that the node fits once synced, what it holds after the call permits its notes and envelopes.
        // So the history may contain everything that the group said before.
        ensures goes { D.is_honest
            → OnOk result (Adds group.old group.new
            (λ notes envelopes. (genesis : Genesis) (k : ℕ)
            → RemembersInGroup self.old.node self.old.store group.old.needs_sync genesis k
            → (h : History) (n : ℕ)
            → FitsOnceSynced M.meaning h n self.old.node self.old.store group.old.needs_sync
            → InputFits h input.entry → (sent : List EnvelopeValue) → AreOf sent envelopes
            → LeavesFitOnceSynced M.meaning h n self.new.node self.new.store group.new.needs_sync notes
            (batch_of n sent))) }
        // After any exit, if nothing of the group is sent, the disks fit. Each step first writes a Base if one is due,
        // so no file exceeds half of its maximum by more than a step and, except for a Base, none grows by more than a
        // step.
        ensures disks { D.is_honest
            → LeavesInGroup M.meaning
            (λ h. InputFits h input.entry) max_after self.old.node self.old.store
            group.old.needs_sync (disks self.new.store) }
        ensures grows { D.is_honest → GrowsFromBase (disks self.old.store) (disks self.new.store) }
        // The group goes on if nothing of it is sent, and its envelopes are covered once everything that waits for a
        // sync is synced.
        ensures keeps { D.is_honest
            → OnOk result (KeepsGroup M.meaning
            (λ h. InputFits h input.entry) self.old.node self.old.store group.old self.new.node
            self.new.store group.new) }
        // It has taken a step and written the outbox of it, in the calls that this takes, and nothing else.
        ensures exact { D.is_honest
            → OnOk result (IsGathered M.meaning M.IsText D.is_metered self.old.node self.old.store group.old
            input.entry self.new.node self.new.store group.new) }
        // It fails only with 7, 8, 11 or 14, each for its cause, and each ends it.
        ensures refused { IfErr result
            (λ e. IsRefusedInGroup D.is_honest D.is_metered self.old self.new (fault_number e)) }
        ensures failed { self.old.failed ≡ true → IsErrOf result ReplicaFault.Failed }
        // A group that begins fails as a call of `take` does.
        ensures first { group.old ≡ empty_group
            → BeginsGroup D.is_honest D.is_metered self.old self.new result }
        ensures alive { OnOk result
            ((self.new.failed ≡ false) × (self.new.store.failed ≡ false) × (self.new.node.halted ≡ false)) }
        ensures cause { CountsFailures self.old.store.failures self.new.store.failures result }
    {
        if self.failed {
            return Err(ReplicaFault::Failed);
        }
        self.failed = true;
        step_in_group(&mut self.node, &mut self.store, input, group)?;
        self.failed = false;
        Ok(())
    }

    /// Ends a group: syncs once, if a promise or a vote of it waits for that, or else gives what it has written to the
    /// operating system, and then sends its envelopes in order. Returns whether all were sent: a lost one is no error.
    ///
    /// It fails with `Device` (7), and with `Failed` (11) after an earlier error; then nothing of the group is sent.
    pub fn sync_and_send<P: Post>(
        &mut self,
        group: &Group,
        post: &mut P,
    ) -> Result<bool, ReplicaFault>
        // The node fits each history that it was to fit once it was synced.
        ensures fits { D.is_honest → (genesis : Genesis) (k : ℕ)
            → RemembersInGroup self.old.node self.old.store group.now.needs_sync genesis k
            → (h : History) (n : ℕ)
            → FitsOnceSynced M.meaning h n self.old.node self.old.store group.now.needs_sync
            → IfOk result (λ all. NodeFits M.meaning h n
            (ReplicaHolds M.meaning self.new.node self.new.store h.genesis n)
            (disks self.new.store)) }
        // After any exit, if nothing of the group is sent, the disks fit, and neither file has grown.
        ensures disks { D.is_honest
            → LeavesInGroup M.meaning
            (λ h. ⊤) 0 self.old.node self.old.store group.now.needs_sync (disks self.new.store) }
        // Sync before send: every image covers everything that the group says.
        ensures syncs { D.is_honest → (genesis : Genesis) (n : ℕ) (x : NodeMessage)
            → RemembersInGroup self.old.node self.old.store group.now.needs_sync genesis n
            → IsGroupCovered M.meaning genesis n group.now self.old.store
            → IfOk result (λ all. (d : DatagramValue) → Contains (batch_of n group.now.envelopes) d
            → Spells (said_by genesis n x) d.bytes → AllCover M.meaning genesis n (disks self.new.store) x) }
        // The envelopes were given to the post in order, each once, and nothing else; after an error none was.
        ensures delivers { IfOk result
            (λ all. IsDelivered P.Carries P.sent P.failures P.is_observable group.now.envelopes all post.old post.new) }
        ensures silent { OnErr result (post.new ≡ post.old) }
        // It has synced once what waited for that, and has done nothing else.
        ensures exact { D.is_honest → OnOk result (IsGroupSynced D.is_metered self.old group.now.needs_sync self.new) }
        // It fails only with 7 or 11, each for its cause, and each ends it.
        ensures refused { IfErr result
            (λ e. IsRefusedInGroup D.is_honest D.is_metered self.old self.new (fault_number e)) }
        ensures alive { OnOk result (self.new.failed ≡ false) }
        ensures ends { self.old.failed ≡ false → self.old.store.failed ≡ false
            → EndsGroup (group.now.needs_sync || group.now.needs_flush) self.old self.new result }
        ensures cause { CountsFailures self.old.store.failures self.new.store.failures result }
    {
        self.sync_group(group.needs_sync(), group.needs_flush())?;
        let all = deliver(group.envelopes(), post);
        Ok(all)
    }
}
