// The trait of a replica with disks in memory, from which a world of replicas is made.
ghost use Rattle.std.specs.Prelude.{◌≡◌, ℕ, [], length, Contains, Ok, Err, IfOk, IfErr, OnOk, OnErr};
ghost use Rattle.std.specs.List.{AllByRecursion};
ghost use Rattle.lk_types.specs.Limits.{max_base_of};
ghost use Rattle.lk_memory_disk.specs.Memory.{disk_of};
ghost use Rattle.lk_disk.specs.Meters.{CallsSucceed};
ghost use Rattle.lk_disk.specs.declared.trap.Trap.{Trap as TrapValue};
ghost use Rattle.lk_log.specs.Causes.{rebase_calls};
ghost use Rattle.lk_log.specs.Rooms.{StaysWithin};
ghost use Rattle.lk_state.specs.Meanings.{Meaning};
ghost use Rattle.lk_state.specs.States.{WholeValue, SumsUp};
ghost use Rattle.lk_messages.specs.Grammar.{Spells};
ghost use Rattle.lk_agreement_laws.specs.Datagrams.{NodeMessage, Datagram as DatagramValue, said_by};
ghost use Rattle.lk_node.specs.Histories.{History, Genesis, IsLawful};
ghost use Rattle.lk_node.specs.Holdings.{Holding};
ghost use Rattle.lk_node.specs.Leavings.{header_of, DisksFit, AllCover};
ghost use Rattle.lk_node.specs.Calls.{InputFits, NodeFits, LeavesFit};
ghost use Rattle.lk_replica.specs.Behaviours.{Behaviour, TrapsAlone, disks_by};
ghost use Rattle.lk_node_interface.specs.Faults.{IsStoreFault, fault_number, RefusedAfter, IsNumberOfCalls};
ghost use Rattle.lk_node_interface.specs.Faults.{IsNumberOfRevival};
ghost use Rattle.lk_recovery.specs.Compacting.{AllStandAt};
ghost use Rattle.lk_recovery.specs.Rooms.{max_after};
ghost use Rattle.lk_replica.specs.Together.{EachLeavesFit, said_in, sent_of};

use crate::taken::{Taken, TakenAll};
use lk_disk::Trap;
use lk_memory_disk::MemoryDisk;
use lk_node_interface::{Input, Note, ReplicaFault};
use lk_recovery::ReviveFault;
use lk_store_format::Header;
use std::alloc::Global;

/// A replica, and what it executed while it restarted.
#[derive(Drop)]
pub struct Revived<R: Drop> {
    pub replica: R,
    pub notes: Vec<Note>,
    /// Whether it had no store, and this one is new.
    pub is_new: bool,
}

/// A replica with disks in memory, as a world of replicas runs it: the world rests on these clauses alone.
///
/// Whatever the replica sends and notes follows from what it holds, and every image that a stop may leave of its disks
/// covers it, at every exit of every call.
pub trait MemoryReplica: Sized + Drop {
    /// The meaning of its machine.
    ghost meaning: { Meaning };

    /// The replica is that of a node in a cluster with this genesis, and holds this.
    ghost Shows: { Self → Genesis → ℕ → Holding → Type 0 };

    /// Its device and the results of its calls, as a world sees them.
    ghost behaves: { Behaviour Self };

    /// The state that it has executed.
    ghost whole: { Self → WholeValue };

    /// Restarts from what a stop has left, or begins a store if there is none.
    ///
    /// It fails with `Device` (7), `NoMemory` (8), `Damaged` (9) and `WrongStore` (10), and for a file of format 1 at
    /// generation 2^48 with `Failed` (11), after the checks for 9, and returns the device. Disks that fit are
    /// neither damaged nor another's: 9 and 10 do not occur.
    fn revive(
        alloc: Global,
        device: MemoryDisk,
        header: &Header,
    ) -> Result<Revived<Self>, ReviveFault<MemoryDisk>>
        ensures up { (h : History) (n : ℕ) → header.now ≡ header_of h.genesis n → IsLawful meaning h
            → DisksFit meaning h n (disk_of device)
            → IfOk result (λ r. LeavesFit meaning h n (Shows r.replica h.genesis n)
            (disks_by behaves r.replica) r.notes.items []) }
        ensures down { (h : History) (n : ℕ) → header.now ≡ header_of h.genesis n → IsLawful meaning h
            → DisksFit meaning h n (disk_of device)
            → IfErr result (λ e. IsNumberOfRevival (fault_number e.fault) × DisksFit meaning h n (disk_of e.device)) }
        // Every image covers whatever every image covered before.
        ensures covers { (genesis : Genesis) (n : ℕ) (x : NodeMessage) → header.now ≡ header_of genesis n
            → AllCover meaning genesis n (disk_of device) x
            → IfOk result (λ r. AllCover meaning genesis n (disks_by behaves r.replica) x) }
        ensures covers_err { (genesis : Genesis) (n : ℕ) (x : NodeMessage) → header.now ≡ header_of genesis n
            → AllCover meaning genesis n (disk_of device) x
            → IfErr result (λ e. AllCover meaning genesis n (disk_of e.device) x) }
        // Neither file has grown, except up to the size of a Base of this alpha.
        ensures room { IfOk result
            (λ r. StaysWithin (max_base_of header.now.alpha) (disk_of device) (disks_by behaves r.replica)) }
        ensures room_err { IfErr result
            (λ e. StaysWithin (max_base_of header.now.alpha) (disk_of device) (disk_of e.device)) }
        ensures calls { IfOk result (λ r. (k : ℕ) × CallsSucceed device.meter (behaves.memory r.replica).meter k) }
        ensures calls_err { IfErr result (λ e. RefusedAfter (fault_number e.fault) device.meter e.device.meter) }
        ensures exact { IfOk result (λ r. behaves.Revives device header.now (Ok (r.replica, r.notes.items))) }
        ensures refused { IfErr result
            (λ e. behaves.Revives device header.now (Err (fault_number e.fault, e.device))) };

    /// Takes an input. Returns its notes and the datagrams that it sent. It fails as `Replica::take` does.
    fn take(&mut self, input: Input) -> Result<Taken, ReplicaFault>
        ensures goes { (h : History) (n : ℕ)
            → NodeFits meaning h n (Shows self.old h.genesis n) (disks_by behaves self.old) → InputFits h input.entry
            → IfOk result (λ t. LeavesFit meaning h n (Shows self.new h.genesis n)
            (disks_by behaves self.new) t.notes.items t.sent.items) }
        ensures ends { (h : History) (n : ℕ)
            → NodeFits meaning h n (Shows self.old h.genesis n) (disks_by behaves self.old) → InputFits h input.entry
            → OnErr result (DisksFit meaning h n (disks_by behaves self.new)) }
        // Sync before send: every image covers whatever was sent, and whatever every image covered before, even after
        // an error.
        ensures syncs { (genesis : Genesis) (n : ℕ) (held : Holding) (x : NodeMessage) → Shows self.old genesis n held
            → IfOk result (λ t. (d : DatagramValue) → Contains t.sent.items d → Spells (said_by genesis n x) d.bytes
            → AllCover meaning genesis n (disks_by behaves self.new) x) }
        ensures covers { (genesis : Genesis) (n : ℕ) (held : Holding) (x : NodeMessage) → Shows self.old genesis n held
            → AllCover meaning genesis n (disks_by behaves self.old) x
            → AllCover meaning genesis n (disks_by behaves self.new) x }
        // However it ends, neither file has grown, except up to half of its maximum and one step.
        ensures room { StaysWithin max_after (disks_by behaves self.old) (disks_by behaves self.new) }
        // At Ok its device has made this many changing calls, and all have succeeded. After error 7 one has failed;
        // after any other error all have succeeded.
        ensures calls { IfOk result
            (λ t. (k : ℕ) × CallsSucceed (behaves.memory self.old).meter (behaves.memory self.new).meter k) }
        ensures calls_err { IfErr result
            (λ e. RefusedAfter (fault_number e) (behaves.memory self.old).meter (behaves.memory self.new).meter) }
        ensures told { IfErr result (λ e. IsNumberOfCalls (fault_number e)) }
        ensures exact { IfOk result
            (λ t. behaves.Takes self.old input.entry self.new (Ok (t.notes.items, t.sent.items))) }
        ensures refused { IfErr result
            (λ e. behaves.Takes self.old input.entry self.new (Err (fault_number e))) };

    /// Takes inputs as one group: each as `take` does, in order, but their entries are synced once, if something waits
    /// for that, and nothing is sent before. After an error nothing is sent.
    fn take_all(&mut self, inputs: Vec<Input<'_>>) -> Result<TakenAll, ReplicaFault>
        // At Ok it has gone on at each of them, in each history that contains what the steps before it have sent.
        ensures goes { (genesis : Genesis) (n : ℕ) (held : Holding) → Shows self.old genesis n held
            → IfOk result (λ t. EachLeavesFit Shows
            (disks_by behaves) meaning n self.old inputs.entry.items self.new (said_in t)) }
        // However it ends, whatever a stop may leave fits if nothing of it is sent.
        ensures ends { (h : History) (n : ℕ)
            → NodeFits meaning h n (Shows self.old h.genesis n) (disks_by behaves self.old)
            → AllByRecursion (InputFits h) inputs.entry.items
            → DisksFit meaning h n (disks_by behaves self.new) }
        // Sync before send: every image covers whatever was sent, and whatever every image covered before, even after
        // an error.
        ensures syncs { (genesis : Genesis) (n : ℕ) (held : Holding) (x : NodeMessage) → Shows self.old genesis n held
            → IfOk result (λ t. (d : DatagramValue) → Contains t.sent.items d → Spells (said_by genesis n x) d.bytes
            → AllCover meaning genesis n (disks_by behaves self.new) x) }
        ensures covers { (genesis : Genesis) (n : ℕ) (held : Holding) (x : NodeMessage) → Shows self.old genesis n held
            → AllCover meaning genesis n (disks_by behaves self.old) x
            → AllCover meaning genesis n (disks_by behaves self.new) x }
        ensures room { StaysWithin max_after (disks_by behaves self.old) (disks_by behaves self.new) }
        ensures calls { IfOk result
            (λ t. (k : ℕ) × CallsSucceed (behaves.memory self.old).meter (behaves.memory self.new).meter k) }
        ensures calls_err { IfErr result
            (λ e. RefusedAfter (fault_number e) (behaves.memory self.old).meter (behaves.memory self.new).meter) }
        // It sends the envelopes of the steps, in order.
        ensures exact { IfOk result
            (λ t. (t.sent.items ≡ sent_of (said_in t))
            × behaves.TakesAll self.old inputs.entry.items self.new (Ok (said_in t))) }
        ensures refused { IfErr result
            (λ e. IsNumberOfCalls (fault_number e)
            × behaves.TakesAll self.old inputs.entry.items self.new (Err (fault_number e))) };

    /// Writes a snapshot of everything executed, which replaces the commands and the votes up to there. It notes and
    /// sends nothing.
    ///
    /// It fails with `Device` (7) and `NoMemory` (8), and, after an earlier error or at generation 2^48, with `Failed`
    /// (11).
    fn compact(&mut self) -> Result<(), ReplicaFault>
        ensures goes { (h : History) (n : ℕ)
            → NodeFits meaning h n (Shows self.old h.genesis n) (disks_by behaves self.old)
            → OnOk result (LeavesFit meaning h n (Shows self.new h.genesis n) (disks_by behaves self.new) [] []) }
        // However it ends, every image that a stop may leave fits, and covers what every image covered before.
        ensures ends { (h : History) (n : ℕ)
            → NodeFits meaning h n (Shows self.old h.genesis n) (disks_by behaves self.old)
            → DisksFit meaning h n (disks_by behaves self.new) }
        ensures covers { (genesis : Genesis) (n : ℕ) (held : Holding) (x : NodeMessage) → Shows self.old genesis n held
            → AllCover meaning genesis n (disks_by behaves self.old) x
            → AllCover meaning genesis n (disks_by behaves self.new) x }
        // At Ok every image stands for a snapshot of everything executed.
        ensures stands { (genesis : Genesis) (n : ℕ) (held : Holding) → Shows self.old genesis n held
            → OnOk result (AllStandAt meaning genesis n (disks_by behaves self.new)
            (whole self.new).roster.executed held.paxos.done) }
        // However it ends, neither file has grown, except up to the size of a Base of its alpha.
        ensures room { StaysWithin
            (max_base_of (length (whole self.old).roster.sets))
            (disks_by behaves self.old) (disks_by behaves self.new) }
        // At Ok its device has made the changing calls of a rebase, and all have succeeded. After error 7 one has
        // failed; after any other error all have succeeded.
        ensures calls { OnOk result
            (CallsSucceed (behaves.memory self.old).meter (behaves.memory self.new).meter rebase_calls) }
        ensures calls_err { IfErr result
            (λ e. RefusedAfter (fault_number e) (behaves.memory self.old).meter (behaves.memory self.new).meter) }
        ensures told { IfErr result (λ e. IsStoreFault (fault_number e)) }
        ensures exact { OnOk result (behaves.Compacts self.old self.new (Ok tt)) }
        ensures refused { IfErr result (λ e. behaves.Compacts self.old self.new (Err (fault_number e))) };

    /// Its device.
    fn device(&self) -> &MemoryDisk
        ensures is { result.now ≡ behaves.memory self.now };

    /// Sets the trap of the device, in place of a pending one. Nothing else changes.
    fn trap(&mut self, trap: Trap)
        ensures sets { self.new ≡ behaves.with_trap trap self.old };

    /// Closes the replica and returns its device, with both files as they are.
    fn into_disks(self) -> MemoryDisk
        ensures is { result ≡ behaves.memory self };

    // Its state sums up the commands that it holds as executed.
    ghost sums_up: { (r : Self) (genesis : Genesis) (n : ℕ) (x : Holding) → Shows r genesis n x
        → SumsUp meaning genesis x.paxos.done (whole r) };

    // After a compaction every image that a stop may leave of its disks stands for the packed text of everything that
    // it has executed.
    ghost packed: { (old new : Self) (genesis : Genesis) (n : ℕ) (x : Holding) → Shows old genesis n x
        → behaves.Compacts old new (Ok tt)
        → AllStandAt meaning genesis n (disks_by behaves new) (whole new).roster.executed x.paxos.done };

    // A trap belongs to its device, and shows nowhere else.
    ghost traps_alone: { TrapsAlone behaves };

    // A trap changes nothing that the replica shows.
    ghost shows_on: { (t : TrapValue) (r : Self) (genesis : Genesis) (n : ℕ) (x : Holding) → Shows r genesis n x
        → Shows (behaves.with_trap t r) genesis n x };

    // A trap changes nothing of the state that it has executed.
    ghost whole_stays: { (t : TrapValue) (r : Self) → whole (behaves.with_trap t r) ≡ whole r };
}
