use crate::base::Base;
use lk_types::Entry;

/// An entry of a file.
#[derive(Drop)]
pub enum Stored {
    /// The first entry of a file.
    Base(Base),
    /// A later entry: a promise, a vote or a decided command.
    Plain(Entry),
}
