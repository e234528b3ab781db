//! A machine that is a lock table, so that a server can ask it who holds a name.

ghost use Rattle.std.specs.Prelude.{◌≡◌};
ghost use Rattle.lk_locks.specs.Packed.{table_in};

use lk_locks::LockTable;
use lk_state::Machine;

/// A machine that is a lock table.
pub trait TableMachine: Machine {
    /// Returns the table whose packed text is that of the machine.
    fn table(&self) -> &LockTable
        ensures { result.now ≡ table_in (Self.text self.now) };
}

impl TableMachine for LockTable {
    fn table(&self) -> &LockTable {
        self.facts();
        self
    }
}
