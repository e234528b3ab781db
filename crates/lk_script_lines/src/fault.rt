//! Why a script ends early.

ghost use Rattle.std.specs.Prelude.{◌≡◌};

use lk_sim::Refused;
use lk_types::NoMemory;
use std::alloc::{AllocError, AllocFailed};
use thiserror::Error;

/// Why a script ended before its end.
#[derive(Clone, Copy, Debug, Error)]
pub enum ScriptFault {
    /// Fault 23: the input could not be read, or has more than 2^32 - 3 lines.
    #[error("fault 23")]
    Read,
    /// Fault 24: the output could not be written.
    #[error("fault 24")]
    Write,
    /// Fault 25: out of memory.
    #[error("fault 25")]
    ScriptMemory,
    /// Fault 26: the line of this number, counted from 1, is not understood in its mode.
    #[error("line {0}: not understood")]
    BadLine(u32),
    /// Fault 27: the world refused an event.
    #[error("fault 27")]
    Ended(Refused),
}

/// Why a line was not executed.
#[derive(Clone, Copy, Debug, Error)]
pub enum LineFault {
    /// Out of memory.
    #[error("no memory")]
    NoMemory,
    /// No line of its mode reads like this.
    #[error("not understood")]
    NotUnderstood,
}

impl ScriptFault {
    ghost use Rattle.lk_script_lines.specs.Faults.{number_of};

    /// Returns the number of this fault, 23 to 27.
    pub fn number(self) -> u8
        ensures { result ≡ number_of self }
    {
        match self {
            ScriptFault::Read => 23,
            ScriptFault::Write => 24,
            ScriptFault::ScriptMemory => 25,
            ScriptFault::BadLine(_) => 26,
            ScriptFault::Ended(_) => 27,
        }
    }
}

impl LineFault {
    ghost use Rattle.lk_script_lines.specs.Faults.{fault_of_line};

    /// Returns the script's fault for a failed line of this number, counted from 1.
    pub fn of_line(self, number: u32) -> ScriptFault
        ensures { result ≡ fault_of_line number self }
    {
        match self {
            LineFault::NoMemory => ScriptFault::ScriptMemory,
            LineFault::NotUnderstood => ScriptFault::BadLine(number),
        }
    }
}

impl<T: Drop> From<AllocFailed<T>> for LineFault {
    ghost use Rattle.std.specs.Prelude.{◌≡◌};
    ghost use Rattle.lk_script_lines.specs.declared.fault.LineFault.TheVariants.{NoMemory as memory};

    ghost from_gives = { λ _ e. e ≡ memory };

    fn from(_error: AllocFailed<T>) -> LineFault {
        LineFault::NoMemory
    }
}

impl From<NoMemory> for LineFault {
    ghost use Rattle.std.specs.Prelude.{◌≡◌};
    ghost use Rattle.lk_script_lines.specs.declared.fault.LineFault.TheVariants.{NoMemory as memory};

    ghost from_gives = { λ _ e. e ≡ memory };

    fn from(_error: NoMemory) -> LineFault {
        LineFault::NoMemory
    }
}

impl From<AllocError> for LineFault {
    ghost use Rattle.std.specs.Prelude.{◌≡◌};
    ghost use Rattle.lk_script_lines.specs.declared.fault.LineFault.TheVariants.{NoMemory as memory};

    ghost from_gives = { λ _ e. e ≡ memory };

    fn from(_error: AllocError) -> LineFault {
        LineFault::NoMemory
    }
}
