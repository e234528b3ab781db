//! The files that a command line names beside the store: where the nodes live, and keys.

ghost use Rattle.std.specs.Prelude.{List, ℕ, IfOk};

use lk_program_fault::ProgramFault;
use std::alloc::Global;
use std::io::Write;

/// Reads files by their paths.
pub trait TextFiles {
    /// The file of this path had these bytes when it was read. Of the system's files every bytes are such: that a path
    /// leads to the file of that name is trusted.
    ghost is_text: { Self → List ℕ → List ℕ → Type 0 };

    /// Reads a file. On failure it writes the reason and returns `CannotOpen`; also if the file should be secret and
    /// others have access to it.
    fn read_file<E: Write>(
        &self,
        alloc: Global,
        path: &str,
        is_secret: bool,
        err: &mut E,
    ) -> Result<Vec<u8>, ProgramFault>
        ensures { IfOk result (λ bytes. is_text self.now path.now bytes.items) };
}
