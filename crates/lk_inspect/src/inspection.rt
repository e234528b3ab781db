//! A summary of the state of a store.

ghost use Rattle.std.specs.Prelude.{◌≡◌, ◌⊎◌, ◌++◌, List, length, IfOk, IfErr, IsErrOf};
ghost use Rattle.std.specs.List.{AllByRecursion};
ghost use Rattle.lk_types.specs.Commands.{IsCommand};
ghost use Rattle.lk_members.specs.Effects.{Command as CommandValue};
ghost use Rattle.lk_members.specs.Rosters.{Genesis as GenesisValue};
ghost use Rattle.lk_state.specs.Packed.{Packs};
ghost use Rattle.lk_state.specs.States.{whole_after};
ghost use Rattle.lk_recovery.specs.Revivals.{run_from};
ghost use Rattle.lk_locks.specs.Meaning.{table_meaning};
ghost use Rattle.lk_locks.specs.Packed.{IsTableText};
ghost use Rattle.lk_inspect.specs.Inspections.{PacksNoState, DescribesList};

use crate::state::state_of;
use lk_locks::{LockEntry, Name};
use lk_members::Window;
use lk_program_fault::ProgramFault;
use lk_store_format::Standing;
use lk_types::Executed;
use std::alloc::Global;

/// A summary of the state that a list of commands leads to.
#[derive(Drop)]
pub struct Inspection {
    /// How many positions are executed.
    pub executed: Executed,
    /// The members of the next positions.
    pub window: Window,
    /// The names of the table, rising, each with its lock entry.
    pub names: Vec<(Name, LockEntry)>,
    /// How many clients have had a request executed.
    pub clients: usize,
}

/// Returns the summary of the state of a standing, up to the first gap in its decided commands. It fails with `Damaged`
/// if the snapshot packs no state at its position, and with `NoMemory`.
pub fn inspected(alloc: Global, standing: &Standing) -> Result<Inspection, ProgramFault>
    ensures tells { (genesis : GenesisValue) (L : List CommandValue)
        → Packs IsTableText (whole_after table_meaning genesis L) standing.now.snapshot
        → AllByRecursion IsCommand (L ++ run_from (length L) standing.now.pairs)
        → IfOk result (DescribesList genesis (L ++ run_from (length L) standing.now.pairs)) }
    ensures damaged { IsErrOf result ProgramFault.Damaged → PacksNoState standing.now }
    ensures only { IfErr result (λ e. (e ≡ ProgramFault.Damaged) ⊎ (e ≡ ProgramFault.NoMemory)) }
{
    let whole = state_of(alloc, standing)?;
    let table = whole.machine();
    table.facts();
    Ok(Inspection {
        executed: whole.executed(),
        window: whole.roster().window().copy(),
        names: table.names(alloc)?,
        clients: whole.sessions().len(),
    })
}
