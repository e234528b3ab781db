//! The lock that a request asks for.

ghost use Rattle.std.specs.Prelude.{IfSome};
ghost use Rattle.lk_client.specs.Waits.{AsksFor};

use lk_locks::{Body, Name};
use lk_types::Op;
use lk_watch::Mode;

/// A lock that a client wants to hold.
#[derive(Drop)]
pub struct Wanted {
    pub mode: Mode,
    pub name: Name,
}

impl Wanted {
    /// Returns the lock that an op asks for, if it is an acquire or a share of a valid name.
    pub fn of(op: &Op) -> Option<Wanted>
        ensures { IfSome result (λ wanted. AsksFor op.now wanted.mode wanted.name) }
    {
        let Op::Table(payload) = op else {
            return None;
        };
        match Body::read(payload.as_slice()) {
            Some(Body::Acquire(name)) => Some(Wanted {
                mode: Mode::Exclusive,
                name,
            }),
            Some(Body::Share(name)) => Some(Wanted {
                mode: Mode::Share,
                name,
            }),
            _ => None,
        }
    }
}
