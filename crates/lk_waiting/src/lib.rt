//! Those who wait for names, from one turn of a server to the next: at which names the queue looks, and whom it tells.
#![tactic(auto)]

mod changed_names;
mod moment;
mod waiting;

pub use changed_names::ChangedNames;
pub use moment::Moment;
pub use waiting::Waiting;
