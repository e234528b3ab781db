// Restarting a replica from what a stop has left.
ghost use Rattle.std.specs.Prelude.{◌≡◌, ℕ, ◌+◌, ◌≤◌, ◌↔◌, IsTrue, [], IfOk, IfErr, MatchResult};
ghost use Rattle.lk_log.specs.Images.{IsEmpty, seen};
ghost use Rattle.lk_log.specs.StoreValue.{disks};
ghost use Rattle.lk_log.specs.Rooms.{StaysWithin};
ghost use Rattle.lk_types.specs.Limits.{max_base_of};
ghost use Rattle.lk_agreement_laws.specs.Datagrams.{NodeMessage};
ghost use Rattle.lk_node.specs.Calls.{LeavesFit};
ghost use Rattle.lk_recovery.specs.Remembering.{ReplicaRemembers};
ghost use Rattle.lk_node_interface.specs.Faults.{fault_number, failures_by, RefusedAfter, IsNumberOfRevival};
ghost use Rattle.lk_node.specs.Histories.{History, Genesis as GenesisValue, IsLawful};
ghost use Rattle.lk_node.specs.Keeping.{ReplicaHolds};
ghost use Rattle.lk_node.specs.Leavings.{header_of, DisksFit, AllCover};
ghost use Rattle.lk_recovery.specs.Revivals.{IsRefusedFor, CallsOfRevival, NarrowsOrRenews};
ghost use Rattle.lk_replica.specs.Revived.{Revives, MayGoOn};
ghost use Rattle.lk_node.specs.BorneOut.{text};

use crate::memory_replica::Revived;
use crate::replica::Replica;
use lk_disk::LogDisk;
use lk_recovery::{RestartedNode, ReviveFault, renew, restart_node};
use lk_state::Machine;
use lk_store_format::Header;
use std::alloc::Global;

impl<M: Machine, D: LogDisk + Drop> Replica<M, D> {
    /// Restarts from what a stop left on these disks, or begins a store if there is none. Returns the notes of what it
    /// executed. A file of format 1 is rebased at once, and so gets format 2.
    ///
    /// It fails with `Device` (7), `NoMemory` (8), `Damaged` (9) and `WrongStore` (10), and for a file of format 1 at
    /// generation 2^48 with `Failed` (11), after the checks for 9, and returns the device. `Damaged` also means that
    /// the snapshot is no packed state at its position with the genesis' alpha, or that a vote or a decided pair is
    /// more than twice alpha above what is then executed.
    pub fn revive(
        alloc: Global,
        device: D,
        header: &Header,
    ) -> Result<Revived<Replica<M, D>>, ReviveFault<D>>
        // If the disks fit a history, the replica goes on in it, and what an error leaves fits it; they are neither
        // damaged nor another's, and so the error is 7, 8 or 11.
        ensures fits { D.is_honest → (h : History) (n : ℕ) → header.now ≡ header_of h.genesis n → IsLawful M.meaning h
            → DisksFit M.meaning h n (D.disk device)
            → MatchResult result
            (λ r. LeavesFit M.meaning h n (ReplicaHolds M.meaning r.replica.node r.replica.store h.genesis n)
            (disks r.replica.store) r.notes.items [])
            (λ e. IsNumberOfRevival (fault_number e.fault) × DisksFit M.meaning h n (D.disk e.device)) }
        // Every image covers whatever every image covered before.
        ensures covers { D.is_honest → (genesis : GenesisValue) (n : ℕ) (x : NodeMessage)
            → header.now ≡ header_of genesis n → AllCover M.meaning genesis n (D.disk device) x
            → MatchResult result (λ r. AllCover M.meaning genesis n (disks r.replica.store) x)
            (λ e. AllCover M.meaning genesis n (D.disk e.device) x) }
        // Its store keeps what its acceptor holds, whatever has happened to the disks.
        ensures remembers { D.is_honest → (genesis : GenesisValue) (n : ℕ) → header.now ≡ header_of genesis n
            → IfOk result (λ r. ReplicaRemembers r.replica.node r.replica.store genesis n) }
        // It restarts exactly from the standing of the disks, and executes nothing else. A file of format 1 at
        // generation 2^48 never restarts. The store is new exactly if there was no Base.
        ensures exact { D.is_honest
            → IfOk result (λ r. Revives M.meaning M.IsText (D.disk device) header.now r.replica r.notes.items
            × (IsTrue r.is_new ↔ IsEmpty (seen (D.disk device)))) }
        // Whatever the device does, it can take calls as the node of this header: nothing of it has failed, and it has
        // executed what it can.
        ensures ready { IfOk result (λ r. MayGoOn header.now r.replica) }
        // An error has its cause, and 9 has precedence over 11. A damaged store and another's are unchanged.
        ensures refused { D.is_honest
            → IfErr result (λ e. IsRefusedFor M.meaning M.IsText (D.disk device) header.now
            (fault_number e.fault) (D.disk e.device)) }
        // After an error every image has the verdict and the entries of an image before it, or is a new store, or has
        // the entries of the file of format 1, or the Base that was to replace it.
        ensures stays_err { D.is_honest → (genesis : GenesisValue) → header.now ≡ header_of genesis header.now.node
            → IfErr result (λ e. NarrowsOrRenews (D.disk device) (D.disk e.device) header.now
            (text M.meaning genesis [])) }
        // It fails with 7 to 11, and with `Device` exactly if a call of the device has failed.
        ensures cause { MatchResult result
            (λ r. r.replica.store.failures ≡ D.failures device)
            (λ e. (7 ≤ fault_number e.fault) × (fault_number e.fault ≤ 11)
            × (D.failures e.device ≡ failures_by (fault_number e.fault) (D.failures device))) }
        ensures metered { D.is_metered → D.is_honest → MatchResult result
            (λ r. CallsOfRevival (D.disk device) (D.meter device) r.replica.store.meter)
            (λ e. RefusedAfter (fault_number e.fault) (D.meter device) (D.meter e.device)) }
        // However it ends, neither file has grown, except up to the size of a Base of this alpha.
        ensures room { D.is_honest
            → MatchResult result
            (λ r. StaysWithin (max_base_of header.now.alpha) (D.disk device) (disks r.replica.store))
            (λ e. StaysWithin (max_base_of header.now.alpha) (D.disk device) (D.disk e.device)) }
    {
        let mut up: RestartedNode<M, D> = match restart_node(alloc, device, header) {
            Ok(up) => up,
            Err(e) => return Err(e),
        };
        match renew(&mut up.node, &mut up.store) {
            Ok(()) => Ok(Revived {
                replica: Replica {
                    alloc,
                    node: up.node,
                    store: up.store,
                    failed: false,
                },
                notes: up.notes,
                is_new: up.is_new,
            }),
            Err(fault) => Err(ReviveFault {
                fault,
                device: up.store.into_disks(),
            }),
        }
    }
}
