//! A law about the definitions alone: in table mode a script determines its output.

ghost use Rattle.std.specs.Prelude.{◌≡◌, List, ℕ};
ghost use Rattle.lk_script_lines.specs.Lines.{lines_of};
ghost use Rattle.lk_script.specs.Scripts.{Runs, Stop, begun, OpensWorld};

use lk_replica::MemoryReplica;

/// A script of table mode has one output: by the rules its lines print one text, and end in one way.
pub fn one_output<R: MemoryReplica>()
    ensures { (input a b : List ℕ) (stop end : Stop R) → (OpensWorld (lines_of input) → ⊥)
        → Runs R.behaves begun 1 (lines_of input) a stop → Runs R.behaves begun 1 (lines_of input) b end
        → (a ≡ b) × (stop ≡ end) }
{}
