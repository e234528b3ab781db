// Why a call of a store failed, or why none was opened, and the numbers of these errors.
ghost use Rattle.std.specs.Prelude.{◌≡◌};
ghost use Rattle.lk_log.specs.Causes.{number_of};
ghost use Rattle.lk_log.specs.OpenCauses.{number_of as open_number};
ghost use Rattle.lk_log.specs.declared.fault.StoreFault.TheVariants.{Device as device_fault, NoMemory as memory_fault};
ghost use Rattle.lk_log.specs.declared.fault.OpenFault.TheVariants as opening;

use lk_disk::DeviceFault;
use lk_types::NoMemory;
use std::alloc::AllocError;
use thiserror::Error;

/// Why a call of an open store failed.
#[derive(Clone, Copy, Debug, Error)]
pub enum StoreFault {
    #[error("the device failed")]
    Device,
    #[error("no memory")]
    NoMemory,
    /// An earlier call failed, or the store has the last generation and was to rebase.
    #[error("the store has failed before")]
    Failed,
}

impl StoreFault {
    /// The number of this error: 7, 8 or 11.
    pub fn number(self) -> u8
        ensures { result ≡ number_of self }
    {
        match self {
            StoreFault::Device => 7,
            StoreFault::NoMemory => 8,
            StoreFault::Failed => 11,
        }
    }
}

impl From<DeviceFault> for StoreFault {
    ghost from_gives = { λ _ e. e ≡ device_fault };

    fn from(_: DeviceFault) -> StoreFault {
        StoreFault::Device
    }
}

impl From<NoMemory> for StoreFault {
    ghost from_gives = { λ _ e. e ≡ memory_fault };

    fn from(_: NoMemory) -> StoreFault {
        StoreFault::NoMemory
    }
}

impl From<AllocError> for StoreFault {
    ghost from_gives = { λ _ e. e ≡ memory_fault };

    fn from(_: AllocError) -> StoreFault {
        StoreFault::NoMemory
    }
}

/// Why no store was opened or read.
#[derive(Clone, Copy, Debug, Error)]
pub enum OpenFault {
    #[error("the device failed")]
    Device,
    #[error("no memory")]
    NoMemory,
    #[error("the store is damaged")]
    Damaged,
    #[error("the store is another node's or of another genesis")]
    WrongStore,
}

impl OpenFault {
    /// The number of this error, 7 to 10.
    pub fn number(self) -> u8
        ensures { result ≡ open_number self }
    {
        match self {
            OpenFault::Device => 7,
            OpenFault::NoMemory => 8,
            OpenFault::Damaged => 9,
            OpenFault::WrongStore => 10,
        }
    }
}

impl From<DeviceFault> for OpenFault {
    ghost from_gives = { λ _ e. e ≡ opening.Device };

    fn from(_: DeviceFault) -> OpenFault {
        OpenFault::Device
    }
}

impl From<NoMemory> for OpenFault {
    ghost from_gives = { λ _ e. e ≡ opening.NoMemory };

    fn from(_: NoMemory) -> OpenFault {
        OpenFault::NoMemory
    }
}

impl From<AllocError> for OpenFault {
    ghost from_gives = { λ _ e. e ≡ opening.NoMemory };

    fn from(_: AllocError) -> OpenFault {
        OpenFault::NoMemory
    }
}

/// Why no store was opened, with the device, which the caller gets back.
#[derive(Drop)]
pub struct ReopenFault<D> {
    pub fault: OpenFault,
    pub device: D,
}

impl<D> ReopenFault<D> {
    /// The number of this error, 7 to 10.
    pub fn number(&self) -> u8
        ensures { result ≡ open_number self.now.fault }
    {
        self.fault.number()
    }
}
