ghost use Rattle.std.specs.Prelude.{◌≡◌};

use thiserror::Error;

/// The bytes are no datagram: error 5.
#[derive(Clone, Copy, Debug, Error)]
#[error("the bytes are no datagram")]
pub struct Bad;

/// Why no message was read into memory.
#[derive(Clone, Copy, Debug, Error)]
pub enum ReadFault {
    #[error("the bytes are no datagram")]
    Bad = 5,
    #[error("no memory")]
    NoMemory = 6,
}

impl ReadFault {
    ghost use Rattle.lk_wire.specs.Faults.{fault_number};

    /// The number of this fault.
    pub fn number(self) -> u8
        ensures { result ≡ fault_number self }
    {
        self as u8
    }
}
