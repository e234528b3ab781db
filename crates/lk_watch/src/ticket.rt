// What a watch and its notices have in common: who waits, for which name, and after which fence.
ghost use Rattle.std.specs.Prelude.{◌≡◌};
ghost use Rattle.lk_watch.specs.Grammar.{IsTicket};

use lk_locks::Name;
use lk_types::{ClientNo, Fence};

/// How a client wants to hold a name.
#[derive(Clone, Copy, PartialEq, Eq)]
pub enum Mode {
    /// Alone.
    Exclusive,
    /// Together with others.
    Share,
}

/// What a watch says, and its notices repeat.
#[derive(Drop)]
pub struct Ticket {
    /// The client that waits, by whose key its watches are sealed.
    pub client: ClientNo,
    /// A number that rises with each watch of that client for that name.
    pub number: u64,
    /// The fence of the `Busy` that the watch follows.
    pub fence: Fence,
    pub mode: Mode,
    /// The name that the client waits for.
    pub name: Name,
}

impl Ticket {
    /// The same ticket. Takes no memory.
    pub fn copy(&self) -> Ticket
        ensures { result ≡ self.now }
    {
        Ticket {
            client: self.client,
            number: self.number,
            fence: self.fence,
            mode: self.mode,
            name: self.name.copy(),
        }
    }

    /// Shows the prover that each part is in its range. Does nothing at run time.
    pub fn facts(&self)
        ensures { IsTicket self.now }
    {
        let _ = self.client.get();
        let _number = self.number;
        let _ = self.fence.get();
        let _ = self.name.as_slice();
    }
}
