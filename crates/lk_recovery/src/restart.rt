// Restarting from what a stop has left.
ghost use Rattle.std.specs.Prelude.{◌≡◌, ◌⊎◌, ℕ, ◌+◌, ◌*◌, ◌≤◌, ◌↔◌, IsTrue, [], length, nat_le, IfOk, IfErr, IsErrOf};
ghost use Rattle.std.specs.Prelude.{MatchResult};
ghost use Rattle.std.specs.List.{list_all};
ghost use Rattle.lk_log.specs.Images.{IsEmpty, seen};
ghost use Rattle.lk_log.specs.Stores.{NarrowsOrIsNew, StandsForSome};
ghost use Rattle.lk_log.specs.StoreValue.{disks};
ghost use Rattle.lk_log.specs.Rooms.{StaysWithin};
ghost use Rattle.lk_types.specs.Limits.{max_base_of};
ghost use Rattle.lk_state.specs.Packed.{Packs};
ghost use Rattle.lk_state.specs.States.{WholeValue};
ghost use Rattle.lk_agreement_laws.specs.Datagrams.{NodeMessage};
ghost use Rattle.lk_node.specs.Calls.{LeavesFit};
ghost use Rattle.lk_recovery.specs.Remembering.{ReplicaRemembers};
ghost use Rattle.lk_node_interface.specs.Faults.{fault_number, failures_by, RefusedAfter, IsNumberOfRevival};
ghost use Rattle.lk_node.specs.Executing.{NothingToRun};
ghost use Rattle.lk_node.specs.Histories.{History, Genesis as GenesisValue, IsLawful};
ghost use Rattle.lk_node.specs.Keeping.{ReplicaHolds};
ghost use Rattle.lk_node.specs.Leavings.{header_of, DisksFit, AllCover};
ghost use Rattle.lk_recovery.specs.Revivals.{Unpacks, MayRevive, Restores, RestartsAs, HasRestarted, IsRefusedFor};
ghost use Rattle.lk_recovery.specs.Revivals.{CallsOfOpening};
ghost use Rattle.lk_node.specs.BorneOut.{text};

use crate::fault::ReviveFault;
use crate::relearning::relearn;
use bytes::BytesMut;
use lk_acceptor::Acceptor;
use lk_disk::LogDisk;
use lk_log::{Store, reopen};
use lk_node::Node;
use lk_node_interface::{Note, ReplicaFault};
use lk_state::{Machine, Whole};
use lk_store_format::{Header, Standing};
use lk_types::{Executed, Genesis, NoMemory, Vote};
use std::alloc::Global;

// Packs the state before any command is executed.
fn zero_text<M: Machine>(alloc: Global, genesis: &Genesis) -> Result<BytesMut, NoMemory>
    ensures text { IfOk result (λ t. t.items ≡ text M.meaning genesis.now []) }
    ensures some { IfOk result (λ t. 1 ≤ length t.items) }
    ensures room { IfOk result (λ t. length t.items ≤ 38782) }
{
    let whole: Whole<M> = Whole::begin(alloc, genesis);
    whole.facts();
    let mut out = BytesMut::new(alloc);
    whole.pack(&mut out)?;
    Ok(out)
}

// Unpacks the state of a snapshot. It is `Damaged` if it is no packed state, or is at another position or has another
// alpha than these.
fn unpacked<M: Machine>(
    alloc: Global,
    alpha: u8,
    position: Executed,
    snapshot: &[u8],
) -> Result<Whole<M>, ReplicaFault>
    ensures unpacks { IfOk result (λ w. Unpacks M.IsText alpha position snapshot.now w) }
    ensures one { (w : WholeValue) → Packs M.IsText w snapshot.now → IfOk result (λ v. v ≡ w) }
    ensures damaged { IsErrOf result ReplicaFault.Damaged → (w : WholeValue)
        → Unpacks M.IsText alpha position snapshot.now w → ⊥ }
    ensures only { IfErr result (λ e. (e ≡ ReplicaFault.Damaged) ⊎ (e ≡ ReplicaFault.NoMemory)) }
{
    let whole: Whole<M> = Whole::unpack(alloc, snapshot)?;
    if whole.executed() != position || whole.roster().alpha() != alpha {
        return Err(ReplicaFault::Damaged);
    }
    Ok(whole)
}

// Returns whether no vote is more than twice alpha above what is executed: an acceptor accepts none above that.
fn are_near(votes: &[Vote], executed: Executed, alpha: u8) -> bool
    ensures { result ≡ list_all (λ v. nat_le v.position (executed + 2 * alpha)) votes.now }
{
    let farthest = executed.get() + 2 * u64::from(alpha);
    votes.iter().all(|vote| vote.position.get() <= farthest)
}

// Rebuilds a node from its standing, and returns it with the notes of what it executed. It fails with `Damaged` if the
// snapshot does not unpack or a vote or pair is too far above what is executed, and with `NoMemory`.
fn restored<M: Machine>(
    alloc: Global,
    header: &Header,
    standing: Standing,
) -> Result<(Node<M>, Vec<Note>), ReplicaFault>
    requires stands { StandsForSome standing }
    ensures runs { IfOk result (λ r. NothingToRun r.0) }
    ensures restores { IfOk result (λ r. Restores M.meaning M.IsText header.now standing r.0 r.1.items) }
    ensures damaged { IsErrOf result ReplicaFault.Damaged → (w : WholeValue)
        → MayRevive M.IsText header.now standing w → ⊥ }
    ensures only { IfErr result (λ e. (e ≡ ReplicaFault.Damaged) ⊎ (e ≡ ReplicaFault.NoMemory)) }
{
    let Standing {
        promised,
        position,
        snapshot,
        votes,
        pairs,
    } = standing;
    let alpha = header.genesis().alpha;
    let whole: Whole<M> = unpacked(alloc, alpha, position, &snapshot)?;
    let (learner, notes) = relearn(alloc, header.node(), whole, snapshot, &pairs)?;
    if !are_near(&votes, learner.whole().executed(), alpha) {
        return Err(ReplicaFault::Damaged);
    }
    let acceptor = Acceptor::new(alloc, alpha, promised, votes, position);
    Ok((Node::new(alloc, header.copy(), acceptor, learner), notes))
}

/// A restarted node with its store, of format 1 or 2, and the notes of what it executed.
#[derive(Drop)]
pub struct RestartedNode<M: Machine, D: LogDisk + Drop> {
    pub node: Node<M>,
    pub store: Store<D>,
    pub notes: Vec<Note>,
    /// Whether there was no store, and this one is new.
    pub is_new: bool,
}

/// Restarts from what a stop has left on these disks, or begins a store if there is none. A file of format 1 keeps its
/// format.
///
/// It fails with `Device` (7), `NoMemory` (8), `Damaged` (9) and `WrongStore` (10), and returns the device.
pub fn restart_node<M: Machine, D: LogDisk + Drop>(
    alloc: Global,
    device: D,
    header: &Header,
) -> Result<RestartedNode<M, D>, ReviveFault<D>>
    // If the disks fit a history, the restarted replica goes on in it, and what an error leaves fits it; they are
    // neither damaged nor another's.
    ensures fits { D.is_honest → (h : History) (n : ℕ) → header.now ≡ header_of h.genesis n → IsLawful M.meaning h
        → DisksFit M.meaning h n (D.disk device)
        → MatchResult result
        (λ r. LeavesFit M.meaning h n (ReplicaHolds M.meaning r.node r.store h.genesis n)
        (disks r.store) r.notes.items [])
        (λ e. IsNumberOfRevival (fault_number e.fault) × DisksFit M.meaning h n (D.disk e.device)) }
    // Every image covers whatever every image covered before.
    ensures covers { D.is_honest → (genesis : GenesisValue) (n : ℕ) (x : NodeMessage)
        → header.now ≡ header_of genesis n → AllCover M.meaning genesis n (D.disk device) x
        → MatchResult result (λ r. AllCover M.meaning genesis n (disks r.store) x)
        (λ e. AllCover M.meaning genesis n (D.disk e.device) x) }
    // Its store keeps what its acceptor holds, whatever has happened to the disks.
    ensures remembers { D.is_honest → (genesis : GenesisValue) (n : ℕ) → header.now ≡ header_of genesis n
        → IfOk result (λ r. ReplicaRemembers r.node r.store genesis n) }
    // It restarts exactly from the standing of the disks, and executes nothing else. The store is new exactly if there
    // was no Base.
    ensures exact { D.is_honest
        → IfOk result (λ r. RestartsAs M.meaning M.IsText (D.disk device) header.now r.node r.store r.notes.items
        × (IsTrue r.is_new ↔ IsEmpty (seen (D.disk device)))) }
    // Nothing of it has failed, and it has executed what it can.
    ensures ready { IfOk result (λ r. HasRestarted header.now r.node r.store) }
    // An error has its cause. A damaged store and another's are unchanged.
    ensures refused { D.is_honest
        → IfErr result (λ e. IsRefusedFor M.meaning M.IsText (D.disk device) header.now
        (fault_number e.fault) (D.disk e.device)) }
    // After an error every image has the verdict and the entries of an image before it, or is a new store.
    ensures stays_err { D.is_honest → (genesis : GenesisValue) → header.now ≡ header_of genesis header.now.node
        → IfErr result (λ e. NarrowsOrIsNew (D.disk device) (D.disk e.device) header.now (text M.meaning genesis [])) }
    // It fails with 7 to 10, and with `Device` exactly if a call of the device has failed.
    ensures cause { MatchResult result
        (λ r. r.store.failures ≡ D.failures device)
        (λ e. (7 ≤ fault_number e.fault) × (fault_number e.fault ≤ 10)
        × (D.failures e.device ≡ failures_by (fault_number e.fault) (D.failures device))) }
    ensures metered { D.is_metered → D.is_honest → MatchResult result
        (λ r. CallsOfOpening (D.disk device) (D.meter device) r.store.meter)
        (λ e. RefusedAfter (fault_number e.fault) (D.meter device) (D.meter e.device)) }
    // However it ends, neither file has grown, except up to the size of a Base of this alpha.
    ensures room { D.is_honest
        → MatchResult result (λ r. StaysWithin (max_base_of header.now.alpha) (D.disk device) (disks r.store))
        (λ e. StaysWithin (max_base_of header.now.alpha) (D.disk device) (D.disk e.device)) }
{
    header.genesis().facts();
    let Ok(zero) = zero_text::<M>(alloc, header.genesis()) else {
        return Err(ReviveFault {
            fault: ReplicaFault::NoMemory,
            device,
        });
    };
    match reopen(alloc, device, header, zero.as_slice()) {
        Ok(opened) => match restored(alloc, header, opened.standing) {
            Ok((node, notes)) => Ok(RestartedNode {
                node,
                store: opened.store,
                notes,
                is_new: opened.is_new,
            }),
            Err(fault) => Err(ReviveFault {
                fault,
                device: opened.store.into_disks(),
            }),
        },
        Err(e) => Err(ReviveFault {
            fault: ReplicaFault::from(e.fault),
            device: e.device,
        }),
    }
}
