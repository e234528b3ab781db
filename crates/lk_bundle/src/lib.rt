//! Bundles: several datagrams to one address in one UDP payload. It begins with `LB`, and each datagram stands in it
//! unchanged, behind its length. A single datagram goes bare.
#![tactic(auto)]

mod bundle;
pub mod bundling;
pub mod laws;
mod pieces;

pub use bundle::{Bundle, is_piece};
pub use pieces::Pieces;
