//! Begins a cluster whose fences are above those of a lost one (`locks seed`): a node that is its only member, in
//! memory, is asked for each name as often as its last fence says, and the disks that it leaves become its store.
#![tactic(auto)]

mod checking;
mod copying;
mod lost;
pub mod seed;
mod seeding;
mod sole_member;
mod survivors;
pub mod wanted;
