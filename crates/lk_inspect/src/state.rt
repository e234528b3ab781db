//! Rebuilds the state of a node from the standing of its store.

ghost use Rattle.std.specs.Prelude.{◌≡◌, ◌<◌, ◌⊎◌, ◌++◌, List, length, OnOk, IfOk, IfErr, IsErrOf};
ghost use Rattle.lk_members.specs.Effects.{Command as CommandValue};
ghost use Rattle.lk_members.specs.Rosters.{Genesis as GenesisValue};
ghost use Rattle.lk_types.specs.Limits.{max_count};
ghost use Rattle.lk_state.specs.Packed.{Packs};
ghost use Rattle.lk_state.specs.Runs.{ran};
ghost use Rattle.lk_state.specs.States.{WholeValue, SumsUp, whole_after};
ghost use Rattle.lk_recovery.specs.Revivals.{run_from, all_ran};
ghost use Rattle.lk_locks.specs.Meaning.{table_meaning};
ghost use Rattle.lk_locks.specs.Packed.{IsTableText};
ghost use Rattle.lk_inspect.specs.Inspections.{PacksNoState};

use lk_locks::LockTable;
use lk_program_fault::ProgramFault;
use lk_state::{Ran, Whole};
use lk_store_format::Standing;
use lk_types::{Answer, Command, NoMemory, Position};
use std::alloc::Global;

// Unpacks the snapshot of a standing. It fails with `Damaged` if the snapshot packs no state, or one of another
// position.
fn unpacked(alloc: Global, standing: &Standing) -> Result<Whole<LockTable>, ProgramFault>
    ensures one { (w : WholeValue) → Packs IsTableText w standing.now.snapshot → IfOk result (λ v. v ≡ w) }
    ensures stands { IfOk result (λ w. w.roster.executed ≡ standing.now.position) }
    ensures damaged { IsErrOf result ProgramFault.Damaged → PacksNoState standing.now }
    ensures only { IfErr result (λ e. (e ≡ ProgramFault.Damaged) ⊎ (e ≡ ProgramFault.NoMemory)) }
{
    let whole: Whole<LockTable> = Whole::unpack(alloc, &standing.snapshot)?;
    if whole.executed() != standing.position {
        return Err(ProgramFault::Damaged);
    }
    Ok(whole)
}

// Executes a command, and returns its answer, if it has one. A failed call changes nothing.
fn run_one(whole: &mut Whole<LockTable>, command: &Command) -> Result<Option<Answer>, NoMemory>
    requires { whole.old.roster.executed < max_count }
    ensures { OnOk result (whole.new ≡ ran table_meaning command.now whole.old) }
{
    let run: Ran = whole.run(command)?;
    Ok(run.answer)
}

// Executes the decided commands from the next position on, up to the first gap.
fn run_on(whole: &mut Whole<LockTable>, pairs: &[(Position, Command)]) -> Result<(), NoMemory>
    ensures { OnOk result (whole.new ≡ all_ran table_meaning (run_from whole.old.roster.executed pairs.now) whole.old) }
{
    for pair in pairs {
        if pair.0.get() != whole.executed().get() + 1 {
            return Ok(());
        }
        run_one(whole, &pair.1)?;
    }
    Ok(())
}

/// Returns the state after the snapshot and the decided commands above it, up to the first gap. It fails with `Damaged`
/// if the snapshot packs no state at its position, and with `NoMemory`.
pub fn state_of(alloc: Global, standing: &Standing) -> Result<Whole<LockTable>, ProgramFault>
    ensures sums { (genesis : GenesisValue) (L : List CommandValue)
        → Packs IsTableText (whole_after table_meaning genesis L) standing.now.snapshot
        → IfOk result (SumsUp table_meaning genesis (L ++ run_from (length L) standing.now.pairs)) }
    ensures damaged { IsErrOf result ProgramFault.Damaged → PacksNoState standing.now }
    ensures only { IfErr result (λ e. (e ≡ ProgramFault.Damaged) ⊎ (e ≡ ProgramFault.NoMemory)) }
{
    let mut whole = unpacked(alloc, standing)?;
    run_on(&mut whole, &standing.pairs)?;
    Ok(whole)
}
