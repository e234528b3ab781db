//! What triggers the ticks of a server: datagrams, or the clock alone.

ghost use Rattle.std.specs.Prelude.{◌≡◌, true, false};
ghost use Rattle.lk_pacing.specs.Paces.{is_clock, ticks_after};

use crate::tick_timer::TickTimer;
use crate::turn_input::TurnInput;
use std::time::Clock;

// With `Pace::Datagrams` a tick follows every this many datagrams, at any rate.
const DATAGRAMS_PER_TICK: u64 = 64;

/// What triggers the ticks of a server.
#[derive(Clone, Copy, Debug, PartialEq, Eq)]
pub enum Pace {
    /// Datagrams: a tick after every 64th, and after each 100 ms in which none came.
    Datagrams,
    /// The clock: a tick each 100 ms, whatever comes.
    Clock,
}

impl Pace {
    /// Whether the clock alone triggers the ticks.
    pub fn is_clock(self) -> bool
        ensures { result ≡ is_clock self }
    {
        matches!(self, Pace::Clock)
    }

    /// Returns whether a tick follows this datagram at once. `number` counts all datagrams so far, this one included.
    pub fn ticks_after(self, number: u64) -> bool
        ensures { result ≡ ticks_after self number }
    {
        match self {
            Pace::Datagrams => number % DATAGRAMS_PER_TICK == 0,
            Pace::Clock => false,
        }
    }

    /// Returns whether a tick is due at the end of a turn that found this. With `Datagrams` silence brings a tick,
    /// input for the replica brings none, and either restarts the 100 ms. For filtered datagrams, and with `Clock`, a
    /// tick is due once the 100 ms have passed.
    pub fn is_due<C: Clock>(self, found: TurnInput, tick_timer: &mut TickTimer<C>) -> bool
        // With `Datagrams` it is due if nothing came, and not if the replica was given something.
        ensures none { self ≡ Pace.Datagrams → found ≡ TurnInput.Nothing → result ≡ true }
        ensures given { self ≡ Pace.Datagrams → found ≡ TurnInput.Something → result ≡ false }
    {
        match (self, found) {
            (Pace::Datagrams, TurnInput::Nothing) => {
                tick_timer.reset();
                true
            }
            (Pace::Datagrams, TurnInput::Something) => {
                tick_timer.reset();
                false
            }
            _ => tick_timer.has_elapsed(),
        }
    }
}
