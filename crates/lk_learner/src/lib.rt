//! The learner's part of a node: the decided commands that it has heard of, their execution in order, and what it
//! serves to a node that is behind: commands, or its snapshot in parts, which the other gathers and installs. It has
//! no access to a disk or socket. A call that takes memory returns `NoMemory` if it gets none, and changes nothing.
#![tactic(auto)]

mod gathered;
mod gathering;
pub mod laws;
mod learner;
mod pair;
mod parts;
mod snapshot;

pub use gathered::Gathered;
pub use learner::Learner;
pub use pair::{Pair, copied_pairs, position_behind};
