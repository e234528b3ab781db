// Executing the stored decided commands again when a node restarts.
ghost use Rattle.std.specs.Prelude.{◌≡◌, ◌⊎◌, ℕ, ◌+◌, ◌*◌, ◌<◌, ◌≤◌, ◌++◌, [], ◌∷◌, Contains, IsTrue, length, OnOk};
ghost use Rattle.std.specs.Prelude.{IfOk, IfErr, IsErrOf};
ghost use Rattle.lk_learner.specs.Learners.{Command as CommandValue, Pair, IsLearner, IsNext, IsWanted, executed};
ghost use Rattle.lk_learner.specs.Learners.{keeping, advanced};
ghost use Rattle.lk_learner.specs.Pairs.{are_pairs_above};
ghost use Rattle.lk_recovery.specs.Revivals.{run_from, notes_of, relearned, reached};
ghost use Rattle.lk_node_interface.specs.declared.note.Note.TheVariants as note;
ghost use Rattle.lk_state.specs.Packed.{packed};

use lk_learner::Learner;
use lk_node_interface::{Note, ReplicaFault};
use lk_state::{Machine, Whole};
use lk_types::{Command, NoMemory, NodeNo, Position};
use std::alloc::Global;

// Executes the command of the next position, if the learner has it, and notes that. `command` must be that command.
fn run_next<M: Machine>(
    learner: &mut Learner<M>,
    notes: &mut Vec<Note>,
    node: NodeNo,
    command: &Command,
) -> Result<(), NoMemory>
    ensures runs { IsNext learner.old command.now
        → OnOk result (learner.new ≡ advanced M.meaning command.now learner.old) }
    ensures noted { IsNext learner.old command.now
        → OnOk result (notes.new.items ≡ notes.old.items ++ note.Ran node (executed learner.old + 1) command.now ∷ []) }
    ensures none { ((v : CommandValue) → IsNext learner.old v → ⊥) → OnOk result (learner.new ≡ learner.old) }
    ensures silent { ((v : CommandValue) → IsNext learner.old v → ⊥) → OnOk result (notes.new.items ≡ notes.old.items) }
{
    if let Some(ran) = learner.execute_next()? {
        notes.push(Note::Ran(node, ran.position, command.copy()))?;
    }
    Ok(())
}

// Gives the learner a decided command, and executes it if its position is the next one. The error is `Damaged` if the
// learner does not want it: it is more than twice alpha above what is executed, or its position has one already.
fn learn<M: Machine>(
    learner: &mut Learner<M>,
    notes: &mut Vec<Note>,
    node: NodeNo,
    pair: &(Position, Command),
) -> Result<(), ReplicaFault>
    requires quiet { (v : CommandValue) → IsNext learner.old v → ⊥ }
    ensures runs { pair.now.0 ≡ executed learner.old + 1
        → OnOk result (learner.new ≡ advanced M.meaning pair.now.1 (keeping pair.now learner.old)) }
    ensures noted { pair.now.0 ≡ executed learner.old + 1
        → OnOk result (notes.new.items ≡ notes.old.items ++ note.Ran node pair.now.0 pair.now.1 ∷ []) }
    ensures keeps { (pair.now.0 ≡ executed learner.old + 1 → ⊥)
        → OnOk result (learner.new ≡ keeping pair.now learner.old) }
    ensures silent { (pair.now.0 ≡ executed learner.old + 1 → ⊥) → OnOk result (notes.new.items ≡ notes.old.items) }
    ensures fits { IsLearner learner.old }
    ensures damaged { IsErrOf result ReplicaFault.Damaged → IsWanted learner.old pair.now.0 → ⊥ }
    ensures only { IfErr result (λ e. (e ≡ ReplicaFault.Damaged) ⊎ (e ≡ ReplicaFault.NoMemory)) }
{
    learner.facts();
    if !learner.decided(pair.0, &pair.1) {
        return Err(ReplicaFault::Damaged);
    }
    run_next(learner, notes, node, &pair.1)?;
    Ok(())
}

/// Makes the learner of a node whose snapshot unpacks to `whole`, gives it the stored pairs, and executes those from
/// the next position on, up to the first gap. Returns it with the notes of what it executed. It fails with `Damaged` if
/// a pair is more than twice alpha above what is then executed, and with `NoMemory`.
pub fn relearn<M: Machine>(
    alloc: Global,
    node: NodeNo,
    whole: Whole<M>,
    snapshot: Vec<u8>,
    pairs: &[(Position, Command)],
) -> Result<(Learner<M>, Vec<Note>), ReplicaFault>
    requires text { snapshot.items ≡ packed whole }
    requires rising { IsTrue (are_pairs_above whole.roster.executed pairs.now) }
    ensures learner { IfOk result (λ r. r.0 ≡ relearned M.meaning whole pairs.now) }
    ensures notes { IfOk result
        (λ r. r.1.items ≡ notes_of node whole.roster.executed (run_from whole.roster.executed pairs.now)) }
    ensures reaches { IfOk result (λ r. executed r.0 ≡ reached whole.roster.executed pairs.now) }
    ensures sets { IfOk result (λ r. length r.0.whole.roster.sets ≡ length whole.roster.sets) }
    ensures quiet { IfOk result (λ r. (v : CommandValue) → IsNext r.0 v → ⊥) }
    ensures near { IfOk result
        (λ r. (p : Pair) → Contains pairs.now p
        → p.0 ≤ reached whole.roster.executed pairs.now + 2 * length whole.roster.sets) }
    ensures damaged { IsErrOf result ReplicaFault.Damaged
        → ((p : Pair) → Contains pairs.now p
        → p.0 ≤ reached whole.roster.executed pairs.now + 2 * length whole.roster.sets) → ⊥ }
    ensures only { IfErr result (λ e. (e ≡ ReplicaFault.Damaged) ⊎ (e ≡ ReplicaFault.NoMemory)) }
{
    let mut learner = Learner::new(alloc, whole, snapshot);
    let mut notes = Vec::new(alloc);
    'pairs: for pair in pairs {
        learn(&mut learner, &mut notes, node, pair)?;
    }
    learner.facts();
    Ok((learner, notes))
}
