ghost use Rattle.std.specs.Prelude.{◌≡◌};
ghost use Rattle.lk_store_format.specs.declared.entry_fault.EntryFault.TheVariants.{NoMemory as memory};

use std::alloc::{AllocError, AllocFailed};

/// Why no entry was read.
#[derive(Clone, Copy)]
pub enum EntryFault {
    // The bytes do not begin with one.
    NoEntry,
    NoMemory,
}

impl From<AllocError> for EntryFault {
    ghost from_gives = { λ _ e. e ≡ memory };

    fn from(_: AllocError) -> EntryFault {
        EntryFault::NoMemory
    }
}

impl<T: Drop> From<AllocFailed<T>> for EntryFault {
    ghost from_gives = { λ _ e. e ≡ memory };

    fn from(_: AllocFailed<T>) -> EntryFault {
        EntryFault::NoMemory
    }
}
