ghost use Rattle.std.specs.Prelude.{◌≡◌};
ghost use Rattle.lk_disk.specs.Meters.{trapped};
ghost use Rattle.lk_disk.specs.declared.device.Side.{Side};

use crate::device::LogDisk;

/// A fault to inject at a future changing call (an append, a sync or a cut). Calls are counted from 1, starting now; no
/// call has number 0.
#[derive(Clone, Copy)]
pub enum Trap {
    /// Nothing.
    Off,
    /// The call of that number fails once and changes nothing.
    Fail(u64),
    /// A stop of the machine at the call of that number, which is to keep up to this many unsynced bytes. That call and
    /// each later one fails until the stop is carried out. At that call an append still adds its piece, a sync does
    /// nothing, and a cut leaves this many bytes, but no fewer than requested. Code that sends after the calls of a
    /// step goes on counting at its sends.
    Arm(u64, usize),
}

/// A device that can be made to fail.
pub trait Trapped: LogDisk {
    /// Sets the trap, in place of a pending one. It changes no disk.
    fn trap(&mut self, trap: Trap)
        ensures unchanged { Self.is_honest → (s : Side) → Self.disk self.new s ≡ Self.disk self.old s }
        ensures set { Self.is_metered → Self.meter self.new ≡ trapped trap (Self.meter self.old) }
        ensures failures { Self.failures self.new ≡ Self.failures self.old };
}
