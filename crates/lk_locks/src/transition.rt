use crate::lock_entry::LockEntry;
use lk_types::Answer;

/// The result of a body: its answer, and the name's new lock entry, if it changes.
#[derive(Drop)]
pub struct Transition {
    pub answer: Answer,
    pub change: Option<LockEntry>,
}
