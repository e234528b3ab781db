//! The format of a store's file: reads and writes its entries, which are a Base and then promises, votes and decided
//! commands, each with one encoding (its spelling). It also states the standing that they add up to, and which format a
//! file has. This crate knows no disk, and not which of two files is live.
#![tactic(auto)]

mod base;
mod entry_fault;
mod formats;
mod header;
pub mod laws;
mod reading;
mod standing;
mod stored;
mod votes;
mod writing;

pub use base::Base;
pub use entry_fault::EntryFault;
pub use formats::{format_of, is_mixed};
pub use header::Header;
pub use lk_codec::put_members;
pub use reading::first_entry;
pub use standing::Standing;
pub use stored::Stored;
pub use votes::{count_below, keep_vote};
pub use writing::{encode, encode_base, encode_parts, entries_facts};
