// Why a device is not opened.
ghost use Rattle.std.specs.Prelude.{◌≡◌};
ghost use Rattle.lk_summed_disk.specs.declared.fault.OpenFault.TheVariants.{Device as device_fault};
ghost use Rattle.lk_summed_disk.specs.declared.fault.OpenFault.TheVariants.{NoMemory as memory_fault};

use lk_disk::{DeviceFault, Side};
use std::alloc::AllocError;

/// Why a device is not opened.
#[derive(Clone, Copy)]
pub enum OpenFault {
    /// A call of the device failed.
    Device,
    /// There is no memory for the bytes of a file.
    NoMemory,
    /// The file at this side is damaged: no stop leaves the bytes from this offset on.
    Damaged(Side, usize),
}

impl From<DeviceFault> for OpenFault {
    ghost from_gives = { λ _ e. e ≡ device_fault };

    fn from(_fault: DeviceFault) -> OpenFault {
        OpenFault::Device
    }
}

impl From<AllocError> for OpenFault {
    ghost from_gives = { λ _ e. e ≡ memory_fault };

    fn from(_fault: AllocError) -> OpenFault {
        OpenFault::NoMemory
    }
}

/// Why a device is not opened, and the device.
#[derive(Drop)]
pub struct OpenRefused<D: Drop> {
    pub fault: OpenFault,
    pub device: D,
}
