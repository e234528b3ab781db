ghost use Rattle.std.specs.Prelude.{◌≡◌};
ghost use Rattle.lk_node_interface.specs.Faults.{fault_number, fault_of, open_fault, unpack_fault};
ghost use Rattle.lk_node_interface.specs.declared.fault.ReplicaFault.TheVariants as fault;

use crate::halted::Halted;
use crate::note::Note;
use lk_log::{OpenFault, StoreFault};
use lk_state::UnpackFault;
use lk_types::NoMemory;
use thiserror::Error;

/// Why a replica rejected a call. After `Device`, `NoMemory`, `Failed` and `Halted` every call fails with `Failed`,
/// until the replica restarts from its disks. After `Send` it goes on. Only a restart returns `Damaged` or
/// `WrongStore`.
#[derive(Debug, Drop, Error)]
pub enum ReplicaFault {
    #[error("the device failed")]
    Device,
    /// The store is out of memory.
    #[error("no memory")]
    NoMemory,
    #[error("the store is damaged")]
    Damaged,
    #[error("the store is another node's or of another genesis")]
    WrongStore,
    #[error("the replica has failed before")]
    Failed,
    /// The step is out of memory. Nothing was written or sent.
    #[error("the node has halted")]
    Halted,
    /// Some datagrams were not sent, and are lost. From `take` it carries the notes of the call.
    #[error("a datagram was not sent")]
    Send(Vec<Note>),
}

impl ReplicaFault {
    /// The number of this error: 7 to 11, 14 or 15.
    pub fn number(&self) -> u8
        ensures { result ≡ fault_number self.now }
    {
        match self {
            ReplicaFault::Device => 7,
            ReplicaFault::NoMemory => 8,
            ReplicaFault::Damaged => 9,
            ReplicaFault::WrongStore => 10,
            ReplicaFault::Failed => 11,
            ReplicaFault::Halted => 14,
            ReplicaFault::Send(_) => 15,
        }
    }
}

impl From<Halted> for ReplicaFault {
    ghost from_gives = { λ _ e. e ≡ fault.Halted };

    fn from(_: Halted) -> ReplicaFault {
        ReplicaFault::Halted
    }
}

impl From<NoMemory> for ReplicaFault {
    ghost from_gives = { λ _ e. e ≡ fault.NoMemory };

    fn from(_: NoMemory) -> ReplicaFault {
        ReplicaFault::NoMemory
    }
}

impl From<UnpackFault> for ReplicaFault {
    ghost from_gives = { λ f e. e ≡ unpack_fault f };

    fn from(fault: UnpackFault) -> ReplicaFault {
        match fault {
            UnpackFault::NotPacked => ReplicaFault::Damaged,
            UnpackFault::NoMemory => ReplicaFault::NoMemory,
        }
    }
}

impl From<StoreFault> for ReplicaFault {
    ghost from_gives = { λ f e. e ≡ fault_of f };

    fn from(store_fault: StoreFault) -> ReplicaFault {
        match store_fault {
            StoreFault::Device => ReplicaFault::Device,
            StoreFault::NoMemory => ReplicaFault::NoMemory,
            StoreFault::Failed => ReplicaFault::Failed,
        }
    }
}

impl From<OpenFault> for ReplicaFault {
    ghost from_gives = { λ f e. e ≡ open_fault f };

    fn from(fault: OpenFault) -> ReplicaFault {
        match fault {
            OpenFault::Device => ReplicaFault::Device,
            OpenFault::NoMemory => ReplicaFault::NoMemory,
            OpenFault::Damaged => ReplicaFault::Damaged,
            OpenFault::WrongStore => ReplicaFault::WrongStore,
        }
    }
}
