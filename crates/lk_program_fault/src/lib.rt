//! Why a command of the service ended early: the fault, its line on standard error, and the exit status.
#![tactic(auto)]

mod fault;

pub use fault::ProgramFault;
