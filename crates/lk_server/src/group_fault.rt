//! Why a group ended a replica.

ghost use Rattle.std.specs.Prelude.{◌≡◌};
ghost use Rattle.lk_program_fault.specs.Faults.{replica_fault};
ghost use Rattle.lk_server.specs.GroupFaults.{program_fault};
ghost use Rattle.lk_server_replica.specs.Refusals.{IsOfGroups};

use lk_node_interface::ReplicaFault;
use lk_program_fault::ProgramFault;

/// Why a group ended a replica. Nothing of it is sent.
#[derive(Clone, Copy, Debug)]
pub enum GroupFault {
    /// Fault 7: a call of the device failed.
    Device,
    /// Fault 8: the store is out of memory.
    NoMemory,
    /// Fault 11: the replica failed earlier.
    Failed,
    /// Fault 14: a step is out of memory.
    Halted,
}

impl GroupFault {
    /// Converts the fault of a call of a group. Its other kinds cannot occur: only a restart finds damage or the store
    /// of another node, and a failed send ends no group.
    pub fn of(fault: &ReplicaFault) -> GroupFault
        requires { IsOfGroups fault.now }
        ensures { program_fault result ≡ replica_fault fault.now }
    {
        match fault {
            ReplicaFault::Device => GroupFault::Device,
            ReplicaFault::NoMemory => GroupFault::NoMemory,
            ReplicaFault::Failed => GroupFault::Failed,
            ReplicaFault::Halted => GroupFault::Halted,
            ReplicaFault::Damaged | ReplicaFault::WrongStore | ReplicaFault::Send(_) =>
                unreachable!(),
        }
    }
}

impl From<GroupFault> for ProgramFault {
    ghost use Rattle.lk_server.specs.GroupFaults.{program_fault as told_as};

    ghost from_gives = { λ f e. e ≡ told_as f };

    fn from(fault: GroupFault) -> ProgramFault {
        match fault {
            GroupFault::Device => ProgramFault::Device,
            GroupFault::NoMemory => ProgramFault::NoMemory,
            GroupFault::Failed => ProgramFault::Failed,
            GroupFault::Halted => ProgramFault::Halted,
        }
    }
}
