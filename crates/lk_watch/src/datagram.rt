// The bytes of a watch or of a notice.
ghost use Rattle.std.specs.Prelude.{◌≡◌};

use std::marker::Model;

/// The length of the datagram of a watch and of a notice, in bytes.
pub const LENGTH: usize = 71;

/// The datagram of a watch or of a notice. Its size is fixed.
#[derive(Drop)]
pub struct WatchDatagram {
    bytes: [u8; LENGTH],
}

impl Model for WatchDatagram {
    ghost use Rattle.std.specs.Prelude.{List, ℕ};

    ghost Value = { List ℕ };

    ghost view = { λ d. d.bytes };
}

impl WatchDatagram {
    /// Returns the datagram of these bytes.
    pub(crate) fn of(bytes: &[u8; LENGTH]) -> WatchDatagram
        ensures { result ≡ bytes.now }
    {
        WatchDatagram { bytes: *bytes }
    }

    /// Returns its bytes.
    pub fn as_slice(&self) -> &[u8]
        ensures { result.now ≡ self.now }
    {
        &self.bytes
    }
}
