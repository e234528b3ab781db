//! Schedules that bring a world on: each function applies events to a world until what it ensures is so, and stops
//! before that only for want of memory or room, or because an event has ended a node.
#![tactic(auto)]

mod answering;
mod asking;
mod carrying_out;
mod catching_up;
mod closing;
mod contending;
mod feeding;
mod filling;
mod finding;
mod halt;
mod handing;
mod healing;
pub mod laws;
mod leveling;
mod polling;
mod progress;
mod restarting;
mod serving;
mod standing;
mod telling;
mod waiting;

pub use answering::answer;
pub use asking::Asking;
pub use carrying_out::{ask, carry_out, deliver, nudge, tick};
pub use catching_up::catch_up;
pub use closing::close_gap;
pub use contending::contend;
pub use feeding::feed;
pub use filling::{fill, offer_at};
pub use finding::place_of;
pub use halt::Halt;
pub use handing::{hand, hand_each, message_of};
pub use healing::heal;
pub use leveling::level;
pub use polling::collect;
pub use progress::Progress;
pub use restarting::{restart, restart_each};
pub use serving::serve;
pub use standing::{lead, rejection_in};
pub use telling::tell;
pub use waiting::begin_ballot;
