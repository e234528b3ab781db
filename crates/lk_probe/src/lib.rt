//! Probes and reports: datagrams beside the protocol, by which a node is asked for its status and replies. Both begin
//! with `LP`. Each has two forms, and a report has the form of its probe and so its length: a probe with a forged
//! source address amplifies nothing.
#![tactic(auto)]

mod datagram;
pub mod laws;
pub mod neighbours;
mod probe;
mod reach;
mod reading;
pub mod reported;
mod state_digest;
mod status;
mod writing;

pub use datagram::ProbeDatagram;
pub use probe::{Probe, Report};
pub use reach::Reach;
pub use state_digest::StateDigest;
pub use status::{
    DIGEST, Identity, LENGTH, Leadership, PROGRAM, Progress, STATE_DIGEST, Status, Traffic, Version,
};
