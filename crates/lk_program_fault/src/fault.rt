//! Why a command of the service ended early.

ghost use Rattle.std.specs.Prelude.{◌≡◌, ◌<◌};

use lk_disk::CannotOpen;
use lk_log::OpenFault;
use lk_node_interface::ReplicaFault;
use lk_state::UnpackFault;
use lk_types::NoMemory;
use std::alloc::{AllocError, AllocFailed};
use std::io::Write;

/// Why a command ended early. Its text is the last line on standard error.
#[derive(Clone, Copy, Debug)]
pub enum ProgramFault {
    /// A folder, a file or a socket did not open.
    CannotOpen,
    /// Fault 7: a call of a file failed.
    Device,
    /// Fault 8: out of memory.
    NoMemory,
    /// Fault 9: the store is damaged.
    Damaged,
    /// Fault 10: the store belongs to another node or another genesis.
    WrongStore,
    /// Fault 11: the store failed earlier, or no generation is left for a rebase.
    Failed,
    /// Fault 14: the node ran out of memory.
    Halted,
    /// Fault 24: the output could not be written.
    Write,
    /// This node has followed a node of another genesis. Whoever finds that writes the line that reports it.
    OtherGenesis,
}

impl ProgramFault {
    ghost use Rattle.lk_node_interface.specs.Faults.{fault_number};
    ghost use Rattle.lk_program_fault.specs.Faults.{replica_fault};

    /// Converts the fault of a replica that did not start. It is never `Send`, which only a running replica reports.
    pub fn of_replica(fault: &ReplicaFault) -> ProgramFault
        requires { fault_number fault.now < 15 }
        ensures { result ≡ replica_fault fault.now }
    {
        match fault {
            ReplicaFault::Device => ProgramFault::Device,
            ReplicaFault::NoMemory => ProgramFault::NoMemory,
            ReplicaFault::Damaged => ProgramFault::Damaged,
            ReplicaFault::WrongStore => ProgramFault::WrongStore,
            ReplicaFault::Failed => ProgramFault::Failed,
            ReplicaFault::Halted => ProgramFault::Halted,
            ReplicaFault::Send(_) => unreachable!(),
        }
    }

    /// Returns the line that reports it, with its newline; empty for `OtherGenesis`, which is reported already.
    pub fn text(self) -> &'static str {
        match self {
            ProgramFault::CannotOpen => "cannot open\n",
            ProgramFault::Device => "fault 7\n",
            ProgramFault::NoMemory => "fault 8\n",
            ProgramFault::Damaged => "fault 9\n",
            ProgramFault::WrongStore => "fault 10\n",
            ProgramFault::Failed => "fault 11\n",
            ProgramFault::Halted => "fault 14\n",
            ProgramFault::Write => "fault 24\n",
            ProgramFault::OtherGenesis => "",
        }
    }

    /// Writes the line to standard error, given as `err`, and returns the exit status 1. A failed write is ignored.
    pub fn write_to<E: Write>(self, err: &mut E) -> u8
        ensures { result ≡ 1 }
    {
        let _ = err.write_all(self.text().as_bytes());
        1
    }
}

impl From<CannotOpen> for ProgramFault {
    ghost use Rattle.lk_program_fault.specs.declared.fault.ProgramFault.TheVariants.{CannotOpen as closed};

    ghost from_gives = { λ _ e. e ≡ closed };

    fn from(_: CannotOpen) -> ProgramFault {
        ProgramFault::CannotOpen
    }
}

impl From<AllocError> for ProgramFault {
    ghost use Rattle.lk_program_fault.specs.declared.fault.ProgramFault.TheVariants.{NoMemory as memory};

    ghost from_gives = { λ _ e. e ≡ memory };

    fn from(_: AllocError) -> ProgramFault {
        ProgramFault::NoMemory
    }
}

impl<T: Drop> From<AllocFailed<T>> for ProgramFault {
    ghost use Rattle.lk_program_fault.specs.declared.fault.ProgramFault.TheVariants.{NoMemory as memory};

    ghost from_gives = { λ _ e. e ≡ memory };

    fn from(_: AllocFailed<T>) -> ProgramFault {
        ProgramFault::NoMemory
    }
}

impl From<OpenFault> for ProgramFault {
    ghost use Rattle.lk_program_fault.specs.Faults.{open_fault};

    ghost from_gives = { λ f e. e ≡ open_fault f };

    fn from(fault: OpenFault) -> ProgramFault {
        match fault {
            OpenFault::Device => ProgramFault::Device,
            OpenFault::NoMemory => ProgramFault::NoMemory,
            OpenFault::Damaged => ProgramFault::Damaged,
            OpenFault::WrongStore => ProgramFault::WrongStore,
        }
    }
}

impl From<NoMemory> for ProgramFault {
    ghost use Rattle.lk_program_fault.specs.declared.fault.ProgramFault.TheVariants.{NoMemory as memory};

    ghost from_gives = { λ _ e. e ≡ memory };

    fn from(_: NoMemory) -> ProgramFault {
        ProgramFault::NoMemory
    }
}

impl From<UnpackFault> for ProgramFault {
    ghost use Rattle.lk_program_fault.specs.Faults.{unpack_fault};

    ghost from_gives = { λ f e. e ≡ unpack_fault f };

    fn from(fault: UnpackFault) -> ProgramFault {
        match fault {
            UnpackFault::NotPacked => ProgramFault::Damaged,
            UnpackFault::NoMemory => ProgramFault::NoMemory,
        }
    }
}
