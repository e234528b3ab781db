//! A device that notices changed bytes: on the device below each append is a frame with a sum, which covers all before
//! it.
#![tactic(auto)]

mod addition;
mod checking;
mod fault;
mod frame;
mod gathered_disk;
mod hiding_disk;
pub mod laws;
mod legible;
mod optional_sums;
mod parsing;
mod place;
mod steps;
mod summed_disk;
mod waiting;

pub use checking::check_side;
pub use fault::{OpenFault, OpenRefused};
pub use gathered_disk::GatheredDisk;
pub use hiding_disk::{Hidden, HidingDisk};
pub use legible::legible_text;
pub use optional_sums::OptionalSums;
pub use summed_disk::{OpenedSums, SummedDisk};
