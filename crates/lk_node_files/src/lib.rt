//! The folder of a node: opens its files, and explains why a file or a store does not open.
#![tactic(auto)]

pub mod causes;
pub mod existing;
pub mod folder;
pub mod laws;
pub mod older;
pub mod opening;
pub mod outdated;
pub mod refusals;
