//! Watches and notices: datagrams beside the protocol, by which a client waits for a name without asking again, and is
//! told when it is free. Both begin with `LW` and have 71 bytes. The queue of those who wait has neither clock nor
//! socket.
#![tactic(auto)]

mod datagram;
pub mod laws;
mod notice;
pub mod queue;
mod reading;
mod same_name;
mod seen;
mod standing;
mod table;
mod ticket;
mod waiter;
mod watch;
mod writing;

pub use datagram::{LENGTH, WatchDatagram};
pub use notice::{News, Notice};
pub use seen::{SeenName, SeenNames};
pub use standing::{NameTable, Standing};
pub use ticket::{Mode, Ticket};
pub use waiter::{Envelope, Stage, Waiter};
pub use watch::Watch;
