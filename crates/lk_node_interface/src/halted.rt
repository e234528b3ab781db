use thiserror::Error;

/// The node ran out of memory, in this step or an earlier one: error 14 of the replica.
#[derive(Clone, Copy, Debug, Error)]
#[error("the node has halted")]
pub struct Halted;
