ghost use Rattle.std.specs.Prelude.{◌≡◌};
ghost use Rattle.lk_healing.specs.declared.halt.Halt.TheVariants.{NoMemory as no_memory};

use lk_sim::End;
use lk_types::NoMemory;

/// Why a schedule has stopped before its end.
#[derive(Clone, Copy)]
pub enum Halt {
    /// Memory ran out. The node that was stepping may have stopped.
    NoMemory,
    /// More than 99,000 datagrams were sent.
    Full,
    /// The last event was done, and has ended its node like this.
    Ended(End),
}

impl From<NoMemory> for Halt {
    ghost from_gives = { λ _ e. e ≡ no_memory };

    fn from(_error: NoMemory) -> Halt {
        Halt::NoMemory
    }
}
